// Writes the weights of single labels, and the change of each rule (see `words::changes`).
ghost use Rattle.std.specs.Prelude.{◌≡◌, ◌<◌, length};
ghost use Rattle.blocks.specs.Layout.{rules};
ghost use Rattle.blocks.specs.Validity.{Valid};
ghost use Rattle.words.specs.Changes.{changes_length};
ghost use Rattle.rank_changes.specs.Changes.{SinglesCopied, ChangePlaced, ChangesPlaced};

use super::folding::fold_terms;
use super::parts::{first_part, place_parts};
use super::rows::{add_terms, add_to_row};
use blocks::layout;
use blocks::sides::Sides;
use words::changes::{CHANGE, Changes, FIRST_CHANGE};
use words::ranking::{LABELS, PerLabel};

// Copies the weights of single labels to the front.
pub fn copy_singles(singles: &PerLabel<u64>, changes: &mut Changes)
    ensures { SinglesCopied singles.now changes.old changes.new }
{
    changes[..LABELS].copy_from_slice(singles);
}

// Writes the change of rule r.
fn place_change(block: &[u8], singles: &PerLabel<u64>, changes: &mut Changes, r: usize)
    requires { Valid block.now × (r < rules block.now) }
    ensures { ChangePlaced block.now singles.now r changes.old
        changes.new }
{
    let sides = Sides::of(block, r);
    let mut rows = [0u64; LABELS];
    let added = add_terms(&sides, singles, &mut rows);
    let constant = fold_terms(&sides, &mut rows, added);
    let lead = first_part(&rows, sides.n);
    add_to_row(&mut rows, lead, |_| constant);
    let count = place_parts(&rows, sides.n, lead, changes, r);
    changes[FIRST_CHANGE + CHANGE * r] = count as u64;
}

// Writes the changes of all rules.
pub fn place_rule_changes(block: &[u8], singles: &PerLabel<u64>, changes: &mut Changes)
    requires { Valid block.now }
    ensures { ChangesPlaced block.now singles.now changes.old
        changes.new }
{
    let count = layout::rules(block);
    for r in 0..count {
        place_change(block, singles, changes, r);
    }
}
