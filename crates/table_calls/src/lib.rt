// The public calls on tables.
#![tactic(auto)]

mod estimating;
mod whole_tables;

pub use estimating::look_up_estimate;
pub use whole_tables::{fill_table, test_table};
