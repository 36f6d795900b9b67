// The answers of the public calls in numbers, since C knows no enum that holds values: the structs, and what turns a
// call's result into each. The members stand in the order of include/mikjuqan.h; `refusal` is 0, or the refusal's
// number, and all else is then 0, but FF for a goal. `GoalNumbers`, `ReplayNumbers` and `SearchNumbers` are C's
// mikjuqan_goal, mikjuqan_replay and mikjuqan_search.
#![tactic(auto)]

mod decisions;
mod entries;
mod goals;
mod lengths;
mod replays;
mod searches;
mod verdicts;

pub use decisions::Decision;
pub use entries::Entry;
pub use goals::GoalNumbers;
pub use lengths::Length;
pub use replays::ReplayNumbers;
pub use searches::SearchNumbers;
pub use verdicts::refusal_of;
