// Least costs over a finite graph: definitions and theorems only.
#![tactic(auto)]
