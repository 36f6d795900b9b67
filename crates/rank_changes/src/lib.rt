// Compiles what each rule adds to the ranks of a state under all maps: the ranks of a state that a rule makes are then
// known before the state is made (see `words::changes`). Nothing here knows what the weights of labels stand for.
#![tactic(auto)]

ghost use Rattle.std.specs.Prelude.{◌≡◌, ℕ, ◌<◌, length, slice_index};
ghost use Rattle.blocks.specs.Validity.{Valid};
ghost use Rattle.words.specs.Changes.{changes_length, Changed};

use words::changes::Changes;
use words::ranking::PerLabel;

mod changing;
mod folding;
mod parts;
mod rows;

use changing::{copy_singles, place_rule_changes};

// Writes the weights of single labels to the front and, behind the number of maps, which stays, what each rule adds to
// ranks.
pub fn place_changes(block: &[u8], singles: &PerLabel<u64>, changes: &mut Changes)
    requires { Valid block.now }
    ensures changed { Changed block.now changes.new }
    ensures by_index { ((k : ℕ) → k < 256 → slice_index changes.new k ≡ slice_index singles.now k) ×
        (slice_index changes.new 256 ≡ slice_index changes.old 256) }
{
    copy_singles(singles, changes);
    place_rule_changes(block, singles, changes);
}
