// Text: lines of hexadecimal digits, the reader that takes one line at a time, and an exercise read from its lines.
#![tactic(auto)]

mod digits;
pub mod lines;
pub mod reader;
mod reading;

pub use reading::{Heading, read_head, read_text};
