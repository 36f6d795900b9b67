// Fills the tables of an exercise under all its maps, behind one another in one slice, the block's own first.
#![tactic(auto)]

ghost use Rattle.std.specs.Prelude.{◌≡◌, suc, ◌≤◌, ◌<◌, length};
ghost use Rattle.basics.specs.Lists.{at_front};
ghost use Rattle.blocks.specs.Layout.{abstract_states};
ghost use Rattle.maps.specs.Maps.{further_maps, exercise_at, all_entries, Mapped};
ghost use Rattle.filling.specs.FilledTables.{filled};
ghost use Rattle.map_fills.specs.MapFills.{all_filled};

use blocks::layout;
use filling::fill;
use maps::Remapped;

// Fills the table of further map i.
fn fill_further(block: &[u8], maps: &[u8], i: usize, table: &mut [u32])
    requires { Mapped block.now maps.now × (i < further_maps block.now maps.now) ×
        (abstract_states (exercise_at block.now maps.now (suc i)) ≤ length table.old) }
    ensures { table.new ≡
        at_front (filled (exercise_at block.now maps.now (suc i))) table.old }
{
    fill(Remapped::under(block, maps, i).bytes(), table);
}

// Fills the tables of all maps; further elements keep their contents.
pub fn fill_all(block: &[u8], maps: &[u8], table: &mut [u32])
    requires { Mapped block.now maps.now × (all_entries block.now maps.now ≤ length table.old) }
    ensures { table.new ≡
        at_front (all_filled block.now maps.now) table.old }
{
    fill(block, table);
    let mut at = layout::abstract_states(block);
    for i in 0..maps::further_maps(block, maps) {
        fill_further(block, maps, i, &mut table[at..]);
        at += maps::entries_of(block, maps, i);
    }
}
