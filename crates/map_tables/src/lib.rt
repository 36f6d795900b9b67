// The tables of an exercise under all its maps, behind one another in one slice, the block's own first: the estimate by
// all of them, and the lower-bound test of each under its own map.
#![tactic(auto)]

ghost use Rattle.std.specs.Prelude.{◌≡◌, true, suc, ◌≤◌, ◌<◌, length};
ghost use Rattle.blocks.specs.Layout.{abstract_states};
ghost use Rattle.blocks.specs.States.{state_ok};
ghost use Rattle.maps.specs.Maps.{further_maps, exercise_at, all_entries, Mapped};
ghost use Rattle.tables.specs.Tables.{estimate, passes_test};
ghost use Rattle.map_tables.specs.MapTables.{largest_entry, all_pass};

use blocks::layout;
use blocks::layout::BLOCK_ROOM;
use maps::{Remapped, remap};
use tables::estimates::estimate;
use tables::lower_bound::passes;

// The entry of a state under further map i, by its table. In a buffer and no `Remapped`: with the copy of that a
// look-up with further maps takes up to twice the time.
fn further_entry(block: &[u8], maps: &[u8], i: usize, state: &[u8], table: &[u32]) -> u32
    requires { Mapped block.now maps.now × (i < further_maps block.now maps.now) ×
        (state_ok block.now state.now ≡ true) ×
        (abstract_states (exercise_at block.now maps.now (suc i)) ≤ length table.now) }
    ensures { result ≡ estimate (exercise_at block.now maps.now (suc i))
        table.now state.now }
{
    let mut own = [0u8; BLOCK_ROOM];
    remap(block, maps, i, &mut own);
    estimate(&own[..block.len()], state, table)
}

// The estimate of a state by all tables: the largest of its entries. The mark is the largest number that an entry can
// be.
pub fn largest_entry(block: &[u8], maps: &[u8], state: &[u8], table: &[u32]) -> u32
    requires { Mapped block.now maps.now × (state_ok block.now state.now ≡ true) ×
        (all_entries block.now maps.now ≤ length table.now) }
    ensures { result ≡
        largest_entry block.now maps.now table.now state.now }
{
    let mut largest = estimate(block, state, table);
    let mut at = layout::abstract_states(block);
    for i in 0..maps::further_maps(block, maps) {
        largest = largest.max(further_entry(block, maps, i, state, &table[at..]));
        at += maps::entries_of(block, maps, i);
    }
    largest
}

// Whether the table of further map i passes the lower-bound test under it.
fn further_passes(block: &[u8], maps: &[u8], i: usize, table: &[u32]) -> bool
    requires { Mapped block.now maps.now × (i < further_maps block.now maps.now) ×
        (abstract_states (exercise_at block.now maps.now (suc i)) ≤ length table.now) }
    ensures { result ≡ passes_test (exercise_at block.now maps.now (suc i))
        table.now }
{
    passes(Remapped::under(block, maps, i).bytes(), table)
}

// Whether every table passes the lower-bound test under its own map: one that fails is enough.
pub fn all_pass(block: &[u8], maps: &[u8], table: &[u32]) -> bool
    requires { Mapped block.now maps.now × (all_entries block.now maps.now ≤ length table.now) }
    ensures { result ≡ all_pass block.now maps.now table.now }
{
    if !passes(block, table) {
        return false;
    }
    let mut at = layout::abstract_states(block);
    for i in 0..maps::further_maps(block, maps) {
        if !further_passes(block, maps, i, &table[at..]) {
            return false;
        }
        at += maps::entries_of(block, maps, i);
    }
    true
}
