// Further maps of an exercise: records of K and L map bytes behind one another. How many are lent, the exercise under
// each, how many entries their tables have, and what turns them back.
#![tactic(auto)]

ghost use Rattle.std.specs.Prelude.{◌≡◌, ℕ, suc, ◌+◌, ◌*◌, ◌≤◌, ◌<◌, min, List, length, take};
ghost use Rattle.basics.specs.Lists.{at_front};
ghost use Rattle.refusals.specs.Answers.{verdict};
ghost use Rattle.refusals.specs.Refusals.{answer_of};
ghost use Rattle.blocks.specs.Layout.{abstracts, abstract_states};
ghost use Rattle.blocks.specs.Validity.{Headed, Sized, Valid};
ghost use Rattle.maps.specs.Maps.{map_width, further_maps, further_map, further_abstracts, exercise_at};
ghost use Rattle.maps.specs.Maps.{all_entries, maps_whole, further_ok, maps_ok, map_conditions};
ghost use Rattle.maps.specs.Maps.{exercise_conditions, Mapped};

use basics::power_within;
use blocks::layout;
use blocks::layout::{BLOCK_ROOM, BlockBuffer};
use blocks::validity::{MOST_STATES, lies_within};
use refusals::Refusal;
use std::marker::Model;

// The most further maps that may be lent.
pub const MOST_FURTHER: usize = 3;

// How many bytes a further map has.
fn map_width(block: &[u8]) -> usize
    requires { Headed block.now }
    ensures { result ≡ map_width block.now }
{
    layout::labels(block) + 1
}

// How many further maps are lent.
pub fn further_maps(block: &[u8], maps: &[u8]) -> usize
    requires { Headed block.now }
    ensures { result ≡ further_maps block.now maps.now }
{
    maps.len() / map_width(block)
}

// Where further map i begins.
fn map_at(block: &[u8], maps: &[u8], i: usize) -> usize
    requires { Headed block.now × (i < further_maps block.now maps.now) }
    ensures { (result ≡ i * map_width block.now) ×
        (result + map_width block.now ≤ length maps.now) }
{
    i * map_width(block)
}

// The bytes lent from further map i on: its K and its L map bytes stand at their front.
fn further_map<'a>(block: &[u8], maps: &'a [u8], i: usize) -> &'a [u8]
    requires { Headed block.now × (i < further_maps block.now maps.now) }
    ensures { (result.now ≡ further_map block.now maps.now i) ×
        (map_width block.now ≤ length result.now) }
{
    &maps[map_at(block, maps, i)..]
}

// Writes the exercise under further map i at the front of `out`.
pub fn remap(block: &[u8], maps: &[u8], i: usize, out: &mut BlockBuffer)
    requires { Sized block.now × (i < further_maps block.now maps.now) }
    ensures { out.new ≡
        at_front (exercise_at block.now maps.now (suc i)) out.old }
{
    blocks::remapping::remap(block, further_map(block, maps, i), out);
}

// The exercise under a further map, at the front of a buffer with room for every block. Contracts see its bytes. Where
// one look-up is all that is done with it, `remap` serves: this buffer is copied once on its way out.
#[derive(Drop)]
pub struct Remapped {
    buffer: BlockBuffer,
    length: usize,
}

impl Model for Remapped {
    ghost Value = { List ℕ };

    ghost view = { λ e. take e.length e.buffer };

    ghost invariant = { λ e. e.length ≤ 2304 };
}

impl Remapped {
    // The exercise under further map i.
    pub fn under(block: &[u8], maps: &[u8], i: usize) -> Self
        requires { Sized block.now × (i < further_maps block.now maps.now) }
        ensures { result ≡ exercise_at block.now maps.now (suc i) }
    {
        let mut buffer = [0u8; BLOCK_ROOM];
        remap(block, maps, i, &mut buffer);
        Remapped {
            buffer,
            length: block.len(),
        }
    }

    // Its bytes, an ordinary block.
    pub fn bytes(&self) -> &[u8]
        ensures { result.now ≡ self.now }
    {
        &self.buffer[..self.length]
    }
}

// K of further map i.
fn further_abstracts(block: &[u8], maps: &[u8], i: usize) -> usize
    requires { Headed block.now × (i < further_maps block.now maps.now) }
    ensures { (result ≡ further_abstracts block.now maps.now i) × (result ≤ 255) }
{
    usize::from(further_map(block, maps, i)[0])
}

// How many entries the table of further map i has, or one more than a table may have where there are more.
pub fn entries_of(block: &[u8], maps: &[u8], i: usize) -> usize
    requires { Sized block.now × (i < further_maps block.now maps.now) ×
        (1 ≤ abstracts (exercise_at block.now maps.now (suc i))) }
    ensures { result ≡
        min (abstract_states (exercise_at block.now maps.now (suc i))) 16385 }
{
    power_within(
        further_abstracts(block, maps, i),
        layout::positions(block),
        MOST_STATES,
    )
}

// How many entries the tables of all maps have together, the block's own first.
pub fn all_entries(block: &[u8], maps: &[u8]) -> usize
    requires { Mapped block.now maps.now }
    ensures { (result ≡ all_entries block.now maps.now) × (result ≤ 16384) }
{
    let count = further_maps(block, maps);
    let mut sum = layout::abstract_states(block);
    for i in 0..count {
        sum += entries_of(block, maps, i);
    }
    sum
}

// Condition 14.
fn maps_whole(block: &[u8], maps: &[u8]) -> bool
    requires { Headed block.now }
    ensures { result ≡ maps_whole block.now maps.now }
{
    maps.len() % map_width(block) == 0 && further_maps(block, maps) <= MOST_FURTHER
}

// Whether K of further map i is from 1 to L, and each of its bytes below it.
fn further_ok(block: &[u8], maps: &[u8], i: usize) -> bool
    requires { Headed block.now × (i < further_maps block.now maps.now) }
    ensures { result ≡ further_ok block.now maps.now i }
{
    let labels = layout::labels(block);
    let map = further_map(block, maps, i);
    let abstracts = usize::from(map[0]);
    lies_within(1, abstracts, labels)
        && map[1..1 + labels]
            .iter()
            .all(|byte| usize::from(*byte) < abstracts)
}

// Condition 15.
fn maps_ok(block: &[u8], maps: &[u8]) -> bool
    requires { Sized block.now }
    ensures { result ≡ maps_ok block.now maps.now }
{
    let count = further_maps(block, maps);
    let mut entries = layout::abstract_states(block);
    for i in 0..count {
        if !further_ok(block, maps, i) {
            return false;
        }
        entries += entries_of(block, maps, i);
        if MOST_STATES < entries {
            return false;
        }
    }
    true
}

// Whether further maps of an accepted block are accepted, or what turns them back: 14 and 15.
pub fn check_maps(block: &[u8], maps: &[u8]) -> Result<(), Refusal>
    requires { Valid block.now }
    ensures { answer_of result ≡ verdict (map_conditions block.now maps.now) }
{
    if !maps_whole(block, maps) {
        return Err(Refusal::Maps);
    }
    if !maps_ok(block, maps) {
        return Err(Refusal::MapRange);
    }
    Ok(())
}

// Whether a block and its further maps are accepted, or what turns them back: the block, then the maps.
pub fn check(block: &[u8], maps: &[u8]) -> Result<(), Refusal>
    ensures { answer_of result ≡ verdict (exercise_conditions block.now maps.now) }
{
    blocks::validity::check(block)?;
    check_maps(block, maps)
}
