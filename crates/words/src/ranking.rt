// Ranks of abstract states, by words: the sum of what each pair of labels adds, and the word of a rank.
ghost use Rattle.std.specs.Prelude.{◌≡◌, ◌+◌, ◌*◌, ◌<◌, ◌≤◌, length, slice_index};
ghost use Rattle.blocks.specs.Layout.{abstract_states};
ghost use Rattle.blocks.specs.Validity.{Headed};
ghost use Rattle.words.specs.Ranking.{rank_word, word_of};

use super::packing::{ConcretePair, first_pair};
use blocks::layout;

// A number for each label at each position, sixteen for each position.
pub const LABELS: usize = 256;

pub type PerLabel<T> = [T; LABELS];

// The weights of pairs of labels.
pub const WEIGHTS: usize = 2048;

pub type Weights = [u16; WEIGHTS];

// What the labels of pair j add to the rank: the weights of their two abstract labels, which the map gave and whose
// sum was stored when the block was compiled.
fn weight(weights: &[u16], j: usize, pair: ConcretePair) -> usize
    requires { (2048 ≤ length weights.now) × (j < 8) × (pair.0 < 256) }
    ensures { (result ≡ slice_index weights.now (256 * j + pair.0)) × (result ≤ 65535) }
{
    usize::from(weights[256 * j + usize::from(pair.0)])
}

// The rank of the relabelled state of a word of n labels.
pub fn rank_word(weights: &[u16], n: usize, word: u64) -> usize
    requires { (2048 ≤ length weights.now) × (n ≤ 16) }
    ensures { result ≡ rank_word weights.now n word }
{
    let pairs = (n + 1) / 2;
    let mut rank: usize = 0;
    let mut rest = word;
    for j in 0..pairs {
        rank += weight(weights, j, first_pair(rest));
        rest = rest / 256;
    }
    rank
}

// The word of the abstract state of rank k.
pub fn word_of(block: &[u8], k: usize) -> u64
    requires { Headed block.now × (k < abstract_states block.now) }
    ensures { result ≡ word_of block.now k }
{
    let mut word: u64 = 0;
    let mut rest = k;
    for i in (0..layout::positions(block)).rev() {
        let base = layout::abstract_count(block, i);
        word = word * 16 + (rest % base) as u64;
        rest = rest / base;
    }
    word
}
