// The public calls on blocks, rules and states.
#![tactic(auto)]

mod applying;
mod checking;
mod goals;
mod relabelling;

pub use applying::{apply_rule, check_application};
pub use checking::{check_block, check_state};
pub use goals::test_goals;
pub use psvn::rules::NO_GOAL;
pub use relabelling::relabel_block;
