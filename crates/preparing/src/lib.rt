// Prepares a block for searches by the tables of all its maps: compiled once, with its sets of rules and what its rules
// add to the ranks of a state under all maps.
#![tactic(auto)]

ghost use Rattle.std.specs.Prelude.{◌≡◌, length};
ghost use Rattle.words.specs.Code.{code_length};
ghost use Rattle.words.specs.Changes.{changes_length};
ghost use Rattle.maps.specs.Maps.{Mapped};
ghost use Rattle.preparing.specs.Prepared.{Packed, Prepared};

use blocks::layout;
use compiling::compile;
use rank_changes::place_changes;
use rule_sets::place_sets;
use words::changes::{Changes, MAPS};
use words::code::Code;

mod weights;

use weights::packed_weights;

// Prepares an accepted block with accepted maps.
pub fn prepare(block: &[u8], maps: &[u8], code: &mut Code, changes: &mut Changes)
    requires { Mapped block.now maps.now }
    ensures prepared { Prepared block.now code.new changes.new }
    ensures packed { Packed block.now maps.now changes.new }
{
    compile(block, code);
    place_sets(code, layout::rules(block), layout::positions(block));
    let singles = packed_weights(block, maps);
    changes[MAPS] = 1 + maps::further_maps(block, maps) as u64;
    place_changes(block, &singles, changes);
}
