// What the two parts of matching answer, which no public call tells: for each exercise of the input each goal that is a
// state is matched with each left side and each goal, on bytes and on words.
#![tactic(auto)]

mod answers;

use exercise_texts::Texts;
use inputs::read_full;
use std::io;

// Room for all exercises that are tried.
const INPUT_ROOM: usize = 65536;

// Prints the matches of the exercises of the input.
fn main(rt: HostRuntime) -> io::Result<()> {
    let mut input = [0u8; INPUT_ROOM];
    let received = read_full(&mut rt.stdin(), &mut input);
    received.outcome?;
    for text in (Texts {
        rest: &input[..received.read],
    }) {
        answers::print_matches(&rt, text)?;
    }
    Ok(())
}
