// Recorded runs: replaying a list of rule numbers from a start.
#![tactic(auto)]

pub mod replay;
