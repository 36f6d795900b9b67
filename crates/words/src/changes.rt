// The ranks of a state under all maps, 16 bits for each in one number, and the ranks after a rule, from the ranks
// before it: what each part of the rule's change adds for the label at its position. Sums are those of words of 64
// bits, so that what is taken away needs no sign.
ghost use Rattle.std.specs.Prelude.{◌≡◌, ◌+◌, ◌<◌, ◌≤◌};
ghost use Rattle.words.specs.Changes as counted;
ghost use Rattle.words.specs.Changes.{part_count, part_adds, next_ranks, ranks_word};

use super::packing::digit;

// Where the number of maps stands, behind the weights of single labels, sixteen for each position.
pub const MAPS: usize = 256;

// Where the change of rule 0 begins, and how many elements each has: the number of its parts, and sixteen parts.
pub const FIRST_CHANGE: usize = 257;

pub const CHANGE: usize = 273;

// How many elements a part has: a shift to the digit of its position, and what each of sixteen labels there adds.
pub const PART: usize = 17;

// The weights of single labels, the number of maps, and the changes of 64 rules.
pub const CHANGES: usize = 17729;

pub type Changes = [u64; CHANGES];

// How many maps there are.
pub fn map_count(changes: &Changes) -> u64
    ensures { result ≡ counted.map_count changes.now }
{
    changes[MAPS]
}

// The ranks of the state of n labels that a word holds.
pub fn ranks_word(changes: &Changes, n: usize, word: u64) -> u64
    requires { n ≤ 16 }
    ensures { result ≡ ranks_word changes.now n word }
{
    let mut ranks: u64 = 0;
    for p in 0..n {
        let label = digit(word, p) as usize;
        ranks = ranks.wrapping_add(changes[16 * p + label]);
    }
    ranks
}

// What the part that begins at an index adds for a word.
fn added(changes: &Changes, part: usize, word: u64) -> u64
    requires { part + 17 ≤ 17729 }
    ensures { result ≡ part_adds changes.now part word }
{
    let label = ((word >> (changes[part] % 64)) % 16) as usize;
    changes[part + 1 + label]
}

// The ranks after rule r of a word that has these ranks.
pub fn next_ranks(changes: &Changes, r: usize, ranks: u64, word: u64) -> u64
    requires { (r < 64) × (0 < part_count changes.now r) × (part_count changes.now r ≤ 16) }
    ensures { result ≡ next_ranks changes.now r ranks word }
{
    let at = FIRST_CHANGE + CHANGE * r;
    let mut part = at + 1;
    let mut sum = ranks.wrapping_add(added(changes, part, word));
    let parts = changes[at];
    for _ in 1..parts {
        part += PART;
        sum = sum.wrapping_add(added(changes, part, word));
    }
    sum
}
