// The words of all ranks in an array, and the word of a rank from that of the rank before it, without a division.
ghost use Rattle.std.specs.Prelude.{◌≡◌, ◌+◌, ◌^◌, ◌<◌};
ghost use Rattle.blocks.specs.Validity.{Headed};
ghost use Rattle.words.specs.Ranking.{word_of};
ghost use Rattle.filling.specs.RankWords.{Ranked};

use blocks::layout;
use blocks::validity::MOST_STATES;
use tables::edges::Compiled;
use words::packing::digit;

// The word of each rank.
pub type RankWords = [u64; MOST_STATES];

// A compiled block, and the word of each rank.
#[derive(Clone, Copy)]
pub struct RankedBlock<'a> {
    pub compiled: Compiled<'a>,
    pub words: &'a RankWords,
    ghost ranked: { Ranked compiled.block.now words.now },
}

// What a label of 1 at position i counts in a word.
fn unit(i: usize) -> u64
    requires { i < 16 }
    ensures { result ≡ 16 ^ i }
{
    1 << (4 * i)
}

// The word of the rank behind u, from the word of rank u: the last label that can rise does, and those behind it
// begin again.
pub fn next_word(block: &[u8], word: u64, u: usize) -> u64
    requires { Headed block.now × (word ≡ word_of block.now u) }
    ensures { result ≡ word_of block.now (u + 1) }
{
    let labels = layout::abstracts(block) as u64;
    let mut next = word;
    for i in (0..layout::positions(block)).rev() {
        if digit(next, i) + 1 < labels {
            return next + unit(i);
        }
        next %= unit(i);
    }
    next
}
