// The public call that reads an exercise from its text.
#![tactic(auto)]

mod reading;

pub use reading::read_exercise;
