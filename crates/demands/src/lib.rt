// The demands of the order as records of statements on the definitions, with their proofs: no code.
#![tactic(auto)]
