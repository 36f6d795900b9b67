// Applying and goals on words, by the sides of a compiled block (see `code`): the sides of rule r stand at the places
// 2 * r and 2 * r + 1, goal g at 128 + g.
ghost use Rattle.std.specs.Prelude.{◌≡◌, ◌%◌, ◌<◌, ◌≤◌};
ghost use Rattle.words.specs.Sides.{moved, rewritten_word, applies_word, step_word, cost_word, meets_word};
ghost use Rattle.words.specs.Sides.{met_goal_word};

use super::code::{COSTS, Code, FIRST_GOAL, FROM, KEEP, MOVES, SIDE, TO, VALUE};
use super::matching::matches_word;
use super::packing::digit;

// The label at the position that the lowest digit of `from` tells, at the position that the lowest digit of `to` tells.
fn move_label(word: u64, from: u64, to: u64) -> u64
    ensures { result ≡ moved word (from % 16) (to % 16) }
{
    digit(word, (from % 16) as usize) << (4 * ((to % 16) as usize))
}

// What the side at place x makes of a word.
pub fn rewritten_word(code: &Code, x: usize, word: u64) -> u64
    requires { x < 136 }
    ensures { result ≡ rewritten_word code.now x word }
{
    let at = SIDE * x;
    let mut made = (word & code[at + KEEP]) | code[at + VALUE];
    let mut from = code[at + FROM];
    let mut to = code[at + TO];
    for _ in 0..code[at + MOVES] {
        made = made | move_label(word, from, to);
        from = from / 16;
        to = to / 16;
    }
    made
}

// Whether rule r applies to a word.
pub fn applies_word(code: &Code, r: usize, word: u64) -> bool
    requires { r < 64 }
    ensures { result ≡ applies_word code.now r word }
{
    matches_word(code, 2 * r, word)
}

// The word that rule r makes of a word.
pub fn step_word(code: &Code, r: usize, word: u64) -> u64
    requires { r < 64 }
    ensures { result ≡ step_word code.now r word }
{
    rewritten_word(code, 2 * r + 1, word)
}

// The cost of rule r.
pub fn cost_word(code: &Code, r: usize) -> u64
    requires { r < 64 }
    ensures { (result ≡ cost_word code.now r) × (result ≤ 255) }
{
    code[COSTS + r] % 256
}

// The goal that a word meets, the lowest number of a met one, if one is met.
pub fn met_goal_word(code: &Code, goals: usize, word: u64) -> Option<u8>
    requires { goals ≤ 8 }
    ensures { result ≡ met_goal_word code.now goals word }
{
    for g in 0..goals {
        if matches_word(code, FIRST_GOAL + g, word) {
            return Some(g as u8);
        }
    }
    None
}

// Whether a word meets one of the goals.
pub fn meets_word(code: &Code, goals: usize, word: u64) -> bool
    requires { goals ≤ 8 }
    ensures { result ≡ meets_word code.now goals word }
{
    met_goal_word(code, goals, word).is_some()
}
