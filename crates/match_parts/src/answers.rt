// The matches of a state with the sides of a block, two characters for each side: the position that the first part
// tells, or '-' for none, and '+' where the state matches, '.' where it does not. The left sides of the rules come
// first, then the goals.
ghost use Rattle.std.specs.Prelude.{◌≡◌, true, ℕ, ◌+◌, ◌*◌, ◌≤◌, ◌<◌, length};
ghost use Rattle.blocks.specs.Layout.{positions, rules, goals};
ghost use Rattle.blocks.specs.States.{state_ok};
ghost use Rattle.blocks.specs.Validity.{Sized, Valid};

use blocks::layout;
use blocks::layout::BLOCK_ROOM;
use compiling::compile;
use psvn::matching::{constant_mismatch, side_matches};
use std::io;
use words::code::{CODE, Code, FIRST_GOAL};
use words::matching::{matches_word, mismatch_word};
use words::packing::pack;

// Room for two characters of each side of 64 rules and 8 goals.
const LINE: usize = 144;

// The characters of one side.
fn characters(mismatch: Option<usize>, matches: bool) -> [u8; 2] {
    let position = match mismatch {
        Some(i) => b"0123456789ABCDEF"[i % 16],
        None => b'-',
    };
    [position, if matches { b'+' } else { b'.' }]
}

// Where side k of a block begins.
fn side_at(block: &[u8], k: usize) -> usize
    requires { Sized block.now × (k < rules block.now + goals block.now) }
    ensures { result + positions block.now ≤ length block.now }
{
    let rules = layout::rules(block);
    if k < rules {
        layout::left_at(block, k)
    } else {
        layout::goal_at(block, k - rules)
    }
}

// A state and side k, on bytes.
fn on_bytes(block: &[u8], state: &[u8], k: usize) -> [u8; 2]
    requires { Sized block.now × (length state.now ≡ positions block.now) ×
        (k < rules block.now + goals block.now) }
{
    let at = side_at(block, k);
    characters(
        constant_mismatch(block, at, state),
        side_matches(block, at, state),
    )
}

// The same for its word and the place of the side in a compiled block with so many rules.
fn on_words(code: &Code, rules: usize, word: u64, k: usize) -> [u8; 2]
    requires { (rules ≤ 64) × (k < rules + 8) }
{
    let x = if k < rules {
        2 * k
    } else {
        FIRST_GOAL + (k - rules)
    };
    characters(mismatch_word(code, x, word), matches_word(code, x, word))
}

// Prints the characters of so many sides as a line, which is written at once.
fn print_sides<F: Fn(usize) -> [u8; 2]>(rt: &impl Print, count: usize, side: F) -> io::Result<()>
    requires few { 2 * count ≤ 144 }
    requires sides { (k : ℕ) → k < count → F.pre side k }
{
    let mut line = [0u8; LINE];
    for k in 0..count {
        let [position, sign] = side(k);
        line[2 * k] = position;
        line[2 * k + 1] = sign;
    }
    rt.write_all(&line[..2 * count])?;
    rt.write_all(b"\n")
}

// Prints the matches of a state, on bytes and on words, a line for each.
fn print_state(rt: &impl Print, block: &[u8], code: &Code, state: &[u8]) -> io::Result<()>
    requires { Sized block.now × (state_ok block.now state.now ≡ true) }
{
    let left_sides = layout::rules(block);
    let count = left_sides + layout::goals(block);
    let bytes_side = |k|
        requires { Sized block.now × (length state.now ≡ positions block.now) ×
            (k < rules block.now + goals block.now) }
    { on_bytes(block, state, k) };
    print_sides(rt, count, bytes_side)?;
    let word = pack(state);
    let word_side = |k|
        requires { (left_sides ≤ 64) × (k < left_sides + 8) }
    { on_words(code, left_sides, word, k) };
    print_sides(rt, count, word_side)
}

// Prints the matches of goal g, where it is a state.
fn print_goal(rt: &impl Print, block: &[u8], code: &Code, g: usize) -> io::Result<()>
    requires { Sized block.now × (g < goals block.now) }
{
    let at = layout::goal_at(block, g);
    let state = &block[at..at + layout::positions(block)];
    if blocks::states::state_ok(block, state) {
        print_state(rt, block, code, state)?;
    }
    Ok(())
}

// Prints the matches of each goal of a block that is a state.
fn print_goals(rt: &impl Print, block: &[u8]) -> io::Result<()>
    requires { Valid block.now }
{
    let mut code = [0u64; CODE];
    compile(block, &mut code);
    for g in 0..layout::goals(block) {
        print_goal(rt, block, &code, g)?;
    }
    Ok(())
}

// Reads an exercise and prints its matches.
pub fn print_matches(rt: &impl Print, text: &[u8]) -> io::Result<()> {
    let mut block = [0u8; BLOCK_ROOM];
    match text_calls::read_exercise(text, &mut block) {
        Ok(length) => print_goals(rt, &block[..length]),
        Err(_) => Ok(()),
    }
}
