// Records: a query as bytes, the search that it asks for, and the bytes that answer it.
#![tactic(auto)]

mod answering;
mod asking;
mod numbers;

pub use answering::{RECORD_ROOM, answer_query, put_refusal};
pub use asking::{QUERY_ROOM, query_length};
