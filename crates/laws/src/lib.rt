// What follows from the definitions of the crate protocol. No code: the statements and their proofs stand in specs/.

#![tactic(auto)]
