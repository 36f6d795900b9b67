// Matching on words in two parts, by the sides of a compiled block (see `code`): first all constants of a side, and its
// variables only where no constant differs.
ghost use Rattle.std.specs.Prelude.{◌≡◌, ◌%◌, ◌<◌, true, ◌==◌};
ghost use Rattle.psvn.specs.TwoParts.{MismatchMeans};
ghost use Rattle.words.specs.Packing as packing;
ghost use Rattle.words.specs.Sides.{count_at, mask_allows, constant_agrees_word, constants_word, mismatch_word};
ghost use Rattle.words.specs.Sides.{matches_word};

use super::code::{Code, FROM, MOVES, SIDE, TO, VALUE};
use super::packing::digit;
use basics::sets::lowest_of;

// Whether a label may stand at position i, as far as the constants of the side at place x go.
pub fn mask_allows(code: &Code, x: usize, i: usize, label: u64) -> bool
    requires { (x < 136) × (i < 16) }
    ensures { result ≡ mask_allows code.now x i label }
{
    label & digit(code[SIDE * x], i) == digit(code[SIDE * x + VALUE], i)
}

// The first part: the lowest position where the side at place x has another constant than a word has a label, if there
// is one. Four bits are a label, so that the lowest bit that differs stands in it.
pub fn mismatch_word(code: &Code, x: usize, word: u64) -> Option<usize>
    requires { x < 136 }
    ensures result_value { result ≡ mismatch_word code.now x word }
    ensures mismatch_means { MismatchMeans 16 (constant_agrees_word code.now x word) result }
{
    let differing = (word & code[SIDE * x]) ^ code[SIDE * x + VALUE];
    if differing == 0 {
        None
    } else {
        Some(lowest_of(differing) / 4)
    }
}

// Whether a word has the same label at the positions that the lowest digits of `from` and of `to` tell.
fn move_agrees(word: u64, from: u64, to: u64) -> bool
    ensures { result ≡ (packing.digit word (to % 16) == packing.digit word (from % 16)) }
{
    digit(word, (to % 16) as usize) == digit(word, (from % 16) as usize)
}

// The second part: whether a word that has the constants of the side at place x matches it, by its variables alone. A
// variable that stands more than once is a move for each position but the first, from there.
pub fn variables_match_word(code: &Code, x: usize, word: u64) -> bool
    requires { (x < 136) × (constants_word code.now x word ≡ true) }
    ensures { result ≡ matches_word code.now x word }
{
    let at = SIDE * x;
    let mut from = code[at + FROM];
    let mut to = code[at + TO];
    for _ in 0..code[at + MOVES] {
        if !move_agrees(word, from, to) {
            return false;
        }
        from = from / 16;
        to = to / 16;
    }
    true
}

// Whether the side at place x has no variable to look at: none stands in it more than once.
pub fn is_plain(code: &Code, x: usize) -> bool
    requires { x < 136 }
    ensures { result ≡ (count_at code.now x == 0) }
{
    code[SIDE * x + MOVES] == 0
}

// Whether a word matches the side at place x: the first part, and only where it finds nothing the second.
pub fn matches_word(code: &Code, x: usize, word: u64) -> bool
    requires { x < 136 }
    ensures { result ≡ matches_word code.now x word }
{
    mismatch_word(code, x, word).is_none() && variables_match_word(code, x, word)
}
