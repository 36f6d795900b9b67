// The public call that searches from many starts at once: query records in, answer records out.
#![tactic(auto)]

mod answering;
mod batches;

pub use batches::find_plans;
