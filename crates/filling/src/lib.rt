// The fill: the table of least costs of an exercise.
#![tactic(auto)]

mod filling;
mod queue;
mod rank_words;
mod spreading;
mod sweeping;

pub use filling::{fast_pass, fill};
