// The theorem of the crate onecopy speaks of something, and it notices. No code: the runs that show it stand in specs/.

#![tactic(auto)]
