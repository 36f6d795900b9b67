// The starred exercises of document 01 as one list of theorems on the definitions: statements and proofs only.
#![tactic(auto)]
