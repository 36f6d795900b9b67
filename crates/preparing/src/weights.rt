// The weights of labels under all maps, packed into one number for each label at each position: 16 bits for each map,
// the block's own lowest. The ranks of a state are the weights of its labels together.
ghost use Rattle.std.specs.Prelude.{◌≡◌, ℕ, suc, ◌/◌, ◌≤◌, ◌<◌, length, get_or};
ghost use Rattle.blocks.specs.Validity.{Valid};
ghost use Rattle.maps.specs.Maps.{further_maps, all_maps, exercise_at, Mapped};
ghost use Rattle.preparing.specs.Weights.{at_first, MapAdded, MapPlaced, WeightsPacked};

use compiling::place_singles;
use maps::Remapped;
use words::ranking::{LABELS, PerLabel};

// Where a table begins, for a label at position 0, which every state has; nothing for the others. `k` is the label's
// place among sixteen for each position.
fn begins_at(k: usize, begin: usize) -> usize
    ensures { (result ≡ at_first begin (k / 16)) × (result ≤ begin) }
{
    if k < 16 { begin } else { 0 }
}

// Puts the weights of one more map in front: those that are packed move up, and of three at most none is lost.
fn add_map(own: &PerLabel<u16>, begin: usize, singles: &mut PerLabel<u64>)
    requires { ((k : ℕ) → get_or own.now k 0 ≤ 16384) × (begin ≤ 16384) }
    ensures { MapAdded own.now begin singles.old singles.new }
{
    for (k, packed) in singles.iter_mut().enumerate() {
        let weight = usize::from(own[k]) + begins_at(k, begin);
        *packed = weight as u64 + 65536 * (*packed % 281474976710656);
    }
}

// Puts the weights of the labels under the map of a block in front, whose table begins at `begin`.
fn place_map(block: &[u8], begin: usize, singles: &mut PerLabel<u64>)
    requires { Valid block.now × (begin ≤ 16384) }
    ensures { MapPlaced block.now begin singles.old singles.new }
{
    let mut own = [0u16; LABELS];
    place_singles(block, &mut own);
    add_map(&own, begin, singles);
}

// The weights under all maps, put in front from the last one on.
pub fn packed_weights(block: &[u8], maps: &[u8]) -> PerLabel<u64>
    requires { Mapped block.now maps.now }
    ensures { WeightsPacked block.now maps.now 0
        (all_maps block.now maps.now) result }
{
    let mut singles = [0u64; LABELS];
    let mut begin = maps::all_entries(block, maps);
    for i in (0..maps::further_maps(block, maps)).rev() {
        begin -= maps::entries_of(block, maps, i);
        place_map(Remapped::under(block, maps, i).bytes(), begin, &mut singles);
    }
    place_map(block, 0, &mut singles);
    singles
}
