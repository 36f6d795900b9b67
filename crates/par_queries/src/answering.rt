// The answer line of a query line.
ghost use Rattle.std.specs.Prelude.{◌≤◌, length};
ghost use Rattle.preparing.specs.Prepared.{Prepared};
ghost use Rattle.search.specs.OnWords.{Rates};
ghost use Rattle.par_queries.specs.QueryLines.{line_room, filled_estimate, AnsweredAt};

use super::refusing::refuse;
use blocks::validity::Entries;
use frames::lines::{decode_line, encode_line};
use frames::reader::read_line;
use records::{QUERY_ROOM, RECORD_ROOM, query_length};
use refusals::Refusal;
use words::changes::Changes;
use words::code::Code;

// How many bytes an answer line has, and the place behind the query line.
#[derive(Drop)]
pub struct Answered {
    pub bytes: usize,
    pub next: usize,
}

// Answers the query line at `at`: writes the answer line at the front of `line`. The arrays are prepared from the
// block, once for all lines, and rate by its filled table.
pub fn answer_line(
    block: &[u8],
    code: &Code,
    changes: &Changes,
    entries: &Entries,
    input: &[u8],
    at: usize,
    line: &mut [u8],
) -> Answered
    requires { Prepared block.now code.now changes.now ×
        Rates block.now changes.now entries.now (filled_estimate block.now) ×
        (line_room ≤ length line.old) }
    ensures { AnsweredAt block.now input.now at line.old result line.new }
{
    let found = read_line(input, at);
    let next = found.next;
    if !found.ok {
        let bytes = refuse(Refusal::Character, line);
        return Answered { bytes, next };
    }
    if found.bytes != query_length(block) {
        let bytes = refuse(Refusal::Line, line);
        return Answered { bytes, next };
    }
    let mut query = [0u8; QUERY_ROOM];
    let asked = decode_line(&input[at..next], &mut query);
    let mut answer = [0u8; RECORD_ROOM];
    let count = records::answer_query(block, code, changes, entries, &query[..asked], &mut answer);
    let bytes = encode_line(&answer[..count], line);
    Answered { bytes, next }
}
