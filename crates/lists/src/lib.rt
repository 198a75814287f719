#![tactic(auto)]

// Laws of lists, for the proofs of all crates; no code.
