// The public call that replays a recorded run.
#![tactic(auto)]

mod replaying;

pub use replaying::replay_run;
pub use runs::replay::{Replayed, RunEnd};
