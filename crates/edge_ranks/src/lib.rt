// The ranks of all states that a side matches, and of what a second side makes of them, by additions: the label at
// each position adds so much to both ranks, whatever stands at the others.
#![tactic(auto)]

ghost use Rattle.std.specs.Prelude.{◌≡◌, true, ℕ, ◌+◌, ◌*◌, ◌%◌, ◌^◌, ◌≤◌, ◌<◌, IfSome};
ghost use Rattle.words.specs.Code.{position_count};
ghost use Rattle.words.specs.Ranking.{rank_word};
ghost use Rattle.words.specs.Sides.{rewritten_word};
ghost use Rattle.edge_ranks.specs.Lists.{rank_at, first_rank, second_rank};
ghost use Rattle.edge_ranks.specs.Lists.{Extended, LabelsAdded, Additive, Listed};

use words::code::{Code, position_count};
use words::ranking::{Weights, rank_word};
use words::sides::rewritten_word;

// How many ranks a list has room for.
pub const ROOM: usize = 16384;

// The ranks of the states that edges lead from, and of those that they lead to, in the same order.
#[derive(Clone, Copy, PartialEq, Eq, PartialOrd, Ord, Hash, Debug, Default)]
pub struct Lists {
    pub sources: [u16; ROOM],
    pub targets: [u16; ROOM],
}

// A rank as an entry of a list: modulo 16,384, above which no rank is.
fn narrow(rank: usize) -> u16
    ensures { result ≡ rank % 16384 }
{
    (rank % 16384) as u16
}

// A label at a position, alone.
fn single(label: usize, p: usize) -> u64
    requires { (label < 16) × (p < 16) }
    ensures { result ≡ label * 16 ^ p }
{
    (label as u64) << (4 * p)
}

// What is to be added to `base` for `rank`.
fn difference(rank: u16, base: u16) -> u16
    requires { (rank < 16384) × (base < 16384) }
    ensures { (result < 16384) × ((result + base) % 16384 ≡ rank) }
{
    (rank + 16384 - base) % 16384
}

// Writes the first `count` ranks of a list again from `at` on, each with so much more.
fn extend(list: &mut [u16; ROOM], count: usize, at: usize, by: u16)
    requires { (count ≤ at) × (at + count ≤ 16384) × (by < 16384) }
    ensures { Extended count at by (rank_at list.old) (rank_at list.new) }
{
    for j in 0..count {
        list[at + j] = (list[j] % 16384 + by) % 16384;
    }
}

// A side of a compiled block, the one at place x, and a second one, at place y, which takes what the first one makes.
#[derive(Drop)]
pub struct Sides<'a> {
    pub code: &'a Code,
    pub weights: &'a Weights,
    pub x: usize,
    pub y: usize,
    ghost counted: { position_count code.now ≤ 16 },
    ghost x_place: { x < 136 },
    ghost y_place: { y < 136 },
}

impl<'a> Sides<'a> {
    // The rank of a state, by its word.
    fn rank(&self, word: u64) -> u16
        ensures { result ≡ rank_word self.now.weights.now (position_count self.now.code.now) word % 16384 }
    {
        let weights = self.weights;
        narrow(rank_word(weights, position_count(self.code), word))
    }

    // What the first side makes of a word.
    fn made(&self, word: u64) -> u64
        ensures { result ≡ rewritten_word self.now.code.now self.now.x word }
    {
        rewritten_word(self.code, self.x, word)
    }

    // The rank of what the first side makes of a word.
    fn first_rank(&self, word: u64) -> u16
        ensures { result ≡ first_rank self.now.code.now self.now.weights.now self.now.x word % 16384 }
    {
        self.rank(self.made(word))
    }

    // The rank of what the second side makes of that.
    fn second_rank(&self, word: u64) -> u16
        ensures { result ≡
            second_rank self.now.code.now self.now.weights.now self.now.x self.now.y word % 16384 }
    {
        self.rank(rewritten_word(self.code, self.y, self.made(word)))
    }

    // Whether the label at position p changes nothing in what the first side makes.
    fn is_idle(&self, labels: usize, p: usize) -> bool
        requires { (labels ≤ 16) × (p < 16) }
        ensures { result ≡ true → (l : ℕ) → 1 ≤ l → l < labels →
            rewritten_word self.now.code.now self.now.x (l * 16 ^ p) ≡ rewritten_word self.now.code.now self.now.x 0 }
    {
        let base = self.made(0);
        // Written with `all` over the range, the proof did not close.
        for label in 1..labels {
            if self.made(single(label, p)) != base {
                return false;
            }
        }
        true
    }

    // Takes all ranks again for each further label at position p; and how many there are then, where there is room
    // for them.
    fn add_labels(&self, labels: usize, p: usize, lists: &mut Lists, count: usize) -> Option<usize>
        requires count_bound { (labels ≤ 16) × (p < 16) × (0 < count) × (count ≤ 16384) }
        requires first_ranks { (rank_at lists.old.sources 0 < 16384) × (rank_at lists.old.targets 0 < 16384) }
        ensures sources_added { IfSome result (λ new.
            LabelsAdded (first_rank self.now.code.now self.now.weights.now self.now.x) labels p count new
            (rank_at lists.old.sources) (rank_at lists.new.sources)) }
        ensures targets_added { IfSome result (λ new.
            LabelsAdded (second_rank self.now.code.now self.now.weights.now self.now.x self.now.y) labels p count new
            (rank_at lists.old.targets) (rank_at lists.new.targets)) }
    {
        let source = lists.sources[0];
        let target = lists.targets[0];
        let mut at = count;
        for label in 1..labels {
            if ROOM - at < count {
                return None;
            }
            let word = single(label, p);
            let first = self.first_rank(word);
            let second = self.second_rank(word);
            extend(&mut lists.sources, count, at, difference(first, source));
            extend(&mut lists.targets, count, at, difference(second, target));
            at += count;
        }
        Some(at)
    }

    // Writes the ranks of what the first side makes of each word, and of what the second side makes of that; and how
    // many there are, where there is room for them.
    pub fn find_edges(&self, labels: usize, lists: &mut Lists) -> Option<usize>
        requires labels_bound { labels ≤ 16 }
        requires first_additive { Additive (position_count self.now.code.now) labels
            (first_rank self.now.code.now self.now.weights.now self.now.x) }
        requires second_additive { Additive (position_count self.now.code.now) labels
            (second_rank self.now.code.now self.now.weights.now self.now.x self.now.y) }
        ensures { IfSome result (λ count. (count ≤ 16384) ×
            Listed (first_rank self.now.code.now self.now.weights.now self.now.x)
            (second_rank self.now.code.now self.now.weights.now self.now.x self.now.y)
            (position_count self.now.code.now) labels 0
            (rank_at lists.new.sources) (rank_at lists.new.targets) count) }
    {
        lists.sources[0] = self.first_rank(0);
        lists.targets[0] = self.second_rank(0);
        let mut count: usize = 1;
        for p in (0..position_count(self.code)).rev() {
            if !self.is_idle(labels, p) {
                count = self.add_labels(labels, p, lists, count)?;
            }
        }
        Some(count)
    }
}

// Writes the ranks of what the side at place x makes of each word, and of what the side at place y makes of that; and
// how many there are, where there is room for them.
pub fn find_edges(
    code: &Code,
    weights: &Weights,
    x: usize,
    y: usize,
    labels: usize,
    lists: &mut Lists,
) -> Option<usize>
    requires places { (position_count code.now ≤ 16) × (x < 136) × (y < 136) × (labels ≤ 16) }
    requires first_additive { Additive (position_count code.now) labels (first_rank code.now weights.now x) }
    requires second_additive { Additive (position_count code.now) labels (second_rank code.now weights.now x y) }
    ensures { IfSome result (λ count. (count ≤ 16384) ×
        Listed (first_rank code.now weights.now x) (second_rank code.now weights.now x y)
        (position_count code.now) labels 0
        (rank_at lists.new.sources) (rank_at lists.new.targets) count) }
{
    let sides = Sides {
        code,
        weights,
        x,
        y,
    };
    sides.find_edges(labels, lists)
}
