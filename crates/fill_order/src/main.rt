// Whether the fast pass of the fill leaves nothing to the sweeps behind it: makes that pass for each exercise of the
// input, and tests the table that it leaves. A fill is right in any case; where the sweeps lower an entry late it may
// be slow.
#![tactic(auto)]

mod fills;

use exercise_texts::Texts;
use inputs::read_full;
use std::io;

// Room for all exercises that are tried.
const INPUT_ROOM: usize = 65536;

// Prints how the exercises of the input were filled, a line for each.
fn main(rt: HostRuntime) -> io::Result<()> {
    let mut input = [0u8; INPUT_ROOM];
    let received = read_full(&mut rt.stdin(), &mut input);
    received.outcome?;
    for text in (Texts {
        rest: &input[..received.read],
    }) {
        fills::print_fill(&rt, text)?;
    }
    Ok(())
}
