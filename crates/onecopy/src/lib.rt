// Why a rehearsal can be trusted: many sites behave as one copy. No code: the statements and their proofs stand in specs/.

#![tactic(auto)]
