// What a rule adds to ranks, on the way: a constant, and for each position a row of what each of sixteen labels there
// adds. Sums are those of words of 64 bits.
ghost use Rattle.std.specs.Prelude.{◌≡◌, ℕ, ◌+◌, ◌<◌, length};
ghost use Rattle.blocks.specs.Sides.{left_terms, right_terms};
ghost use Rattle.rank_changes.specs.Rows.{entry, Bound, RowsBegun, RowAdded, Balanced};

use basics::first_of;
use blocks::sides::Sides;
use blocks::terms::{Term, decode};
use words::ranking::PerLabel;

// The rows of a rule that takes every label away.
fn begin_rows(singles: &PerLabel<u64>, rows: &mut PerLabel<u64>)
    ensures { RowsBegun singles.now rows.new }
{
    for (k, weight) in singles.iter().enumerate() {
        rows[k] = 0u64.wrapping_sub(*weight);
    }
}

// Adds to each entry of the row of position p what a closure tells of its label.
pub fn add_to_row<F: Fn(usize) -> u64>(rows: &mut PerLabel<u64>, p: usize, added: F)
    requires p_in_bounds { p < 16 }
    requires callable { (x : ℕ) → x < 16 → F.pre added x }
    ensures { (d : ℕ → ℕ) → ((x y : ℕ) → x < 16 → F.post added x y → y ≡ d x) → RowAdded d p 16 rows.old rows.new }
{
    for x in 0..16 {
        rows[16 * p + x] = rows[16 * p + x].wrapping_add(added(x));
    }
}

// Adds the weights of the labels at position i to the row of position p, whose label position i takes.
fn add_row(singles: &PerLabel<u64>, i: usize, rows: &mut PerLabel<u64>, p: usize)
    requires { (i < 16) × (p < 16) }
    ensures { RowAdded (entry singles.now i) p 16 rows.old rows.new }
{
    add_to_row(rows, p, |x| singles[16 * i + x]);
}

// Adds what position i holds after the rule: the weight of its right term's constant to the rule's constant, or a row
// to that of the position whose label it takes.
fn add_term(
    sides: &Sides,
    singles: &PerLabel<u64>,
    rows: &mut PerLabel<u64>,
    constant: u64,
    i: usize,
) -> u64
    requires i_in_bounds { i < sides.now.n }
    requires bound { Bound sides.now.n (left_terms sides.now) (right_terms sides.now) }
    requires balanced { Balanced sides.now.n (left_terms sides.now) (right_terms sides.now)
        singles.now rows.old constant i }
    ensures { Balanced sides.now.n (left_terms sides.now) (right_terms sides.now)
        singles.now rows.new result (i + 1) }
{
    match decode(sides.bytes[sides.right + i]) {
        Term::Label(label) => constant.wrapping_add(singles[16 * i + usize::from(label.0)]),
        Term::Variable(v) => {
            let p = first_of(sides.bytes, sides.left, sides.n, v).unwrap();
            add_row(singles, i, rows, p);
            constant
        }
        Term::Dash | Term::Refused => {
            add_row(singles, i, rows, i);
            constant
        }
    }
}

// The rows of a rule, and its constant.
pub fn add_terms(sides: &Sides, singles: &PerLabel<u64>, rows: &mut PerLabel<u64>) -> u64
    requires { Bound sides.now.n (left_terms sides.now) (right_terms sides.now) }
    ensures { Balanced sides.now.n (left_terms sides.now) (right_terms sides.now)
        singles.now rows.new result sides.now.n }
{
    begin_rows(singles, rows);
    let mut constant: u64 = 0;
    for i in 0..sides.n {
        constant = add_term(sides, singles, rows, constant, i);
    }
    constant
}
