// Rules read backwards: candidates for the predecessors of a state, which the fill tries.
#![tactic(auto)]

mod reversed_rules;

pub use reversed_rules::{next_candidate, reverse_rules};
