// Writes the rows of a rule that add something behind one another: the parts of its change (see `words::changes`).
ghost use Rattle.std.specs.Prelude.{◌≡◌, ◌+◌, ◌<◌, ◌≤◌, length};
ghost use Rattle.words.specs.Changes.{changes_length};
ghost use Rattle.rank_changes.specs.Parts.{plain_row, is_part, PartPlaced, PartsPlaced};

use words::changes::{CHANGE, Changes, FIRST_CHANGE, PART};
use words::ranking::PerLabel;

// Whether no label at position p adds anything.
fn is_plain(rows: &PerLabel<u64>, p: usize) -> bool
    requires { p < 16 }
    ensures { result ≡ plain_row rows.now p }
{
    (0..16).all(|x| rows[16 * p + x] == 0)
}

// The first of n positions whose label adds something, or 0. A rule's constant may be added to the row of any
// position: to this one it makes no part more, except where there would be none.
pub fn first_part(rows: &PerLabel<u64>, n: usize) -> usize
    requires { (0 < n) × (n ≤ 16) }
    ensures { result < n }
{
    (0..n).find(|p| !is_plain(rows, *p)).unwrap_or(0)
}

// Whether the row of position p is a part: the first one is, and each other one that adds something.
fn is_part(rows: &PerLabel<u64>, lead: usize, p: usize) -> bool
    requires { p < 16 }
    ensures { result ≡ is_part rows.now lead p }
{
    p == lead || !is_plain(rows, p)
}

// Writes the row of position p as a part.
fn place_part(rows: &PerLabel<u64>, p: usize, changes: &mut Changes, at: usize)
    requires { (p < 16) × (at + 17 ≤ changes_length) }
    ensures { PartPlaced rows.now p at changes.old changes.new }
{
    changes[at] = 4 * p as u64;
    changes[at + 1..at + PART].copy_from_slice(&rows[16 * p..16 * p + 16]);
}

// Writes the rows of n positions that add something, and that of the first part, as the parts of rule r, and tells
// how many these are.
pub fn place_parts(
    rows: &PerLabel<u64>,
    n: usize,
    lead: usize,
    changes: &mut Changes,
    r: usize,
) -> usize
    requires { (n ≤ 16) × (r < 64) }
    ensures { PartsPlaced rows.now lead r n result changes.old changes.new }
{
    let at = FIRST_CHANGE + CHANGE * r + 1;
    let mut count: usize = 0;
    for p in 0..n {
        if is_part(rows, lead, p) {
            place_part(rows, p, changes, at + PART * count);
            count += 1;
        }
    }
    count
}
