// The public call that searches for a plan; and what turns back the tables that a search is lent.
#![tactic(auto)]

mod searching;

pub use queries::Limits;
pub use search::{Ending, Plan};
pub use searching::{check_tables, find_plan};
