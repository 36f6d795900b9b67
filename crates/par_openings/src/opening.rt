// Opening an exercise: its lines are read, and its table is filled.
ghost use Rattle.std.specs.Prelude.{◌≡◌, ◌+◌, length, take, drop};
ghost use mathlib.Core.List.{flatten};
ghost use Rattle.refusals.specs.Refusals.{answer_of};
ghost use Rattle.frames.specs.Lines.{lines_of};
ghost use Rattle.frames.specs.Reading.{HeadRead};
ghost use Rattle.par_openings.specs.Openings.{exercise_end, open_outcome, open_exercise};

use blocks::layout;
use blocks::layout::BlockBuffer;
use blocks::validity::Entries;
use frames::lines::line_end;
use frames::{Heading, read_head, read_text};
use refusals::Refusal;

// The most bytes of input.
pub const LONGEST_INPUT: usize = 32768;

// An open exercise: how many bytes its block has, and where its query lines begin.
#[derive(Clone, Copy)]
pub struct Opened {
    pub bytes: usize,
    pub queries_at: usize,
}

// The place behind `count` lines from `from` on, or the end of the input.
fn lines_end(input: &[u8], from: usize, count: usize) -> usize
    ensures { result ≡ from + length (flatten (take count (lines_of (drop from input.now)))) }
{
    let mut at = from;
    for _ in 0..count {
        at = line_end(input, at);
    }
    at
}

// Where the lines end that the reader receives, by the head line.
fn exercise_end(input: &[u8], heading: Heading) -> usize
    requires { HeadRead (lines_of input.now) heading }
    ensures { result ≡ exercise_end input.now }
{
    if !heading.ok {
        return heading.next;
    }
    match heading.head {
        Ok(head) => lines_end(input, heading.next, layout::frame_count(&head)),
        Err(_) => heading.next,
    }
}

// Opens the exercise at the front of the input: its block is written at the front of `block`, and its table is filled
// at the front of `table`.
pub fn open(input: &[u8], block: &mut BlockBuffer, table: &mut Entries) -> Result<Opened, Refusal>
    ensures { open_outcome (answer_of result) block.new table.new ≡
        open_exercise input.now block.old table.old }
{
    if LONGEST_INPUT < input.len() {
        return Err(Refusal::Line);
    }
    let heading = read_head(input);
    let queries_at = exercise_end(input, heading);
    let bytes = read_text(&input[..queries_at], heading, block)?;
    filling::fill(&block[..bytes], table);
    Ok(Opened { bytes, queries_at })
}
