// A query line and its answer line, or the line of a refusal: records in digits.
#![tactic(auto)]

mod answering;
mod refusing;

pub use answering::{Answered, answer_line};
pub use refusing::refuse;

// Room for every line: two digits for each of at most 75 bytes of a record, and the line feed.
pub const LINE_ROOM: usize = 151;
