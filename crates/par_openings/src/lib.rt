// Opening the exercise at the front of an input: its block and its filled table.
#![tactic(auto)]

mod opening;

pub use opening::{LONGEST_INPUT, Opened, open};
