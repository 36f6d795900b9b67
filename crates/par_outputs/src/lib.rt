// The whole output of the program `par`: its definition, what it means, and how long it is. Statements and proofs only.
#![tactic(auto)]
