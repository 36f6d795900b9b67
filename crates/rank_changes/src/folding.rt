// Where the left term of a rule is a constant, a state that the rule applies to has that label: what the row of the
// position says of it goes into the rule's constant, and the row adds nothing more.
ghost use Rattle.std.specs.Prelude.{◌≡◌, ◌<◌};
ghost use Rattle.blocks.specs.Sides.{left_terms};
ghost use Rattle.rank_changes.specs.Folds.{RowCleared, Folded};

use blocks::sides::Sides;
use blocks::terms::{Term, decode};
use words::ranking::PerLabel;

// Makes the row of position p add nothing.
fn clear_row(rows: &mut PerLabel<u64>, p: usize)
    requires { p < 16 }
    ensures { RowCleared p rows.old rows.new }
{
    rows[16 * p..16 * p + 16].fill(0);
}

// Folds the row of position i, if its left term is a constant, into the rule's constant.
fn fold_term(sides: &Sides, rows: &mut PerLabel<u64>, constant: u64, i: usize) -> u64
    requires { i < sides.now.n }
    ensures { Folded sides.now.n (left_terms sides.now) rows.old constant rows.new result }
{
    if let Term::Label(label) = decode(sides.bytes[sides.left + i]) {
        let sum = constant.wrapping_add(rows[16 * i + usize::from(label.0)]);
        clear_row(rows, i);
        sum
    } else {
        constant
    }
}

// Folds the rows of all positions whose left terms are constants.
pub fn fold_terms(sides: &Sides, rows: &mut PerLabel<u64>, constant: u64) -> u64
    ensures { Folded sides.now.n (left_terms sides.now) rows.old constant rows.new result }
{
    let mut folded = constant;
    for i in 0..sides.n {
        folded = fold_term(sides, rows, folded, i);
    }
    folded
}
