// The public calls, all of them. Each asks nothing of its caller: it refuses first, with the number and in the order of
// document 01, and then calls the layer below. A call is proved in the crate of its subject, and handed on here.
#![tactic(auto)]

pub use backward_calls::{first_predecessor, next_predecessor, test_reversible};
pub use batch_calls::find_plans;
pub use psvn_calls::{NO_GOAL, apply_rule, check_block, relabel_block, test_goals};
pub use refusals::Refusal;
pub use run_calls::{Replayed, RunEnd, replay_run};
pub use search_calls::{Ending, Limits, Plan, find_plan};
pub use table_calls::{fill_table, look_up_estimate, test_table};
pub use text_calls::read_exercise;
