// The public calls of stepping back, and of reversible rules.
#![tactic(auto)]

mod predecessors;
mod reversing;

pub use predecessors::{first_predecessor, next_predecessor};
pub use reversing::test_reversible;
