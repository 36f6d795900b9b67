// Where the parts of an exercise block stand. No other module knows the layout; only psvn's relabelling
// writes the rules and goals of a block in the same order.
ghost use Rattle.std.specs.Prelude.{◌≡◌, ◌+◌, ◌≤◌, ◌<◌, length};
ghost use Rattle.std.proofs.lemmas.List.Edits.{sets};
ghost use Rattle.blocks.specs.Layout.{head_byte, positions, labels, abstracts, rules, goals, label_count};
ghost use Rattle.blocks.specs.Layout.{abstract_count, abstract_states, head_length, map_byte, map_at, rule_width};
ghost use Rattle.blocks.specs.Layout.{rule_at, left_at, right_at, goal_at, block_length, frame_count, frame_length};
ghost use Rattle.blocks.specs.Layout.{cost_of, relabel_head, relabelled_length};
ghost use Rattle.blocks.specs.Validity.{Headed, Sized};

use super::labels::{AbstractLabel, ConcreteLabel, mapped};
use super::validity::MOST_STATES;
use basics::power_within;

// How many bytes the head has.
pub const HEAD_LENGTH: usize = 5;

// The bytes of a head.
pub type Head = [u8; HEAD_LENGTH];

// The most positions that a state can have.
pub const MOST_POSITIONS: usize = 16;

// How many bytes hold every block, the longest of which has 2,261.
pub const BLOCK_ROOM: usize = 2304;

pub type BlockBuffer = [u8; BLOCK_ROOM];

// Byte i of the head.
fn head_byte(block: &[u8], i: usize) -> usize
    requires { (head_length ≤ length block.now) × (i < head_length) }
    ensures { (result ≡ head_byte block.now i) × (result ≤ 255) }
{
    usize::from(block[i])
}

// n: how many positions a state has.
pub fn positions(block: &[u8]) -> usize
    requires { head_length ≤ length block.now }
    ensures { (result ≡ positions block.now) × (result ≤ 255) }
{
    head_byte(block, 0)
}

// L: how many labels there are.
pub fn labels(block: &[u8]) -> usize
    requires { head_length ≤ length block.now }
    ensures { (result ≡ labels block.now) × (result ≤ 255) }
{
    head_byte(block, 1)
}

// K: how many abstract labels there are.
pub fn abstracts(block: &[u8]) -> usize
    requires { head_length ≤ length block.now }
    ensures { (result ≡ abstracts block.now) × (result ≤ 255) }
{
    head_byte(block, 2)
}

// R: how many rules there are.
pub fn rules(block: &[u8]) -> usize
    requires { head_length ≤ length block.now }
    ensures { (result ≡ rules block.now) × (result ≤ 255) }
{
    head_byte(block, 3)
}

// G: how many goals there are.
pub fn goals(block: &[u8]) -> usize
    requires { head_length ≤ length block.now }
    ensures { (result ≡ goals block.now) × (result ≤ 255) }
{
    head_byte(block, 4)
}

// How many labels there are at position i.
pub fn label_count(block: &[u8], i: usize) -> usize
    requires { Headed block.now × (i < positions block.now) }
    ensures { (result ≡ label_count block.now i) × (result ≤ 16) }
{
    labels(block)
}

// How many abstract labels there are at position i.
pub fn abstract_count(block: &[u8], i: usize) -> usize
    requires { Headed block.now × (i < positions block.now) }
    ensures { (result ≡ abstract_count block.now i) × (1 ≤ result) × (result ≤ 16) }
{
    abstracts(block)
}

// How many abstract states there are: K to the power n.
pub fn abstract_states(block: &[u8]) -> usize
    requires { Headed block.now }
    ensures { (result ≡ abstract_states block.now) × (result ≤ 16384) }
{
    power_within(abstracts(block), positions(block), MOST_STATES)
}

// Byte x of the map.
pub fn map_byte(block: &[u8], x: usize) -> u8
    requires { Sized block.now × (x < labels block.now) }
    ensures { result ≡ map_byte block.now x }
{
    block[HEAD_LENGTH + x]
}

// The abstract label of a label at position i.
pub fn abstract_label(block: &[u8], i: usize, label: ConcreteLabel) -> AbstractLabel
    requires { Sized block.now × (i < positions block.now) × (label.0 < label_count block.now i) }
    ensures { result.0 ≡ map_at block.now i label.0 }
{
    mapped(block, HEAD_LENGTH, label)
}

// How many bytes a rule has.
fn rule_width(block: &[u8]) -> usize
    requires { Headed block.now }
    ensures { (result ≡ rule_width block.now) × (result ≤ 33) }
{
    1 + 2 * positions(block)
}

// Where rule r begins; behind the last rule, where the goals do.
fn rule_at(block: &[u8], r: usize) -> usize
    requires { Headed block.now × (r ≤ rules block.now) }
    ensures { (result ≡ rule_at block.now r) × (result ≤ 2133) }
{
    HEAD_LENGTH + labels(block) + r * rule_width(block)
}

// Where the left side of rule r begins.
pub fn left_at(block: &[u8], r: usize) -> usize
    requires { Headed block.now × (r ≤ rules block.now) }
    ensures { (result ≡ left_at block.now r) × (result ≤ 2134) }
{
    rule_at(block, r) + 1
}

// Where the right side of rule r begins.
pub fn right_at(block: &[u8], r: usize) -> usize
    requires { Headed block.now × (r ≤ rules block.now) }
    ensures { (result ≡ right_at block.now r) × (result ≤ 2150) }
{
    left_at(block, r) + positions(block)
}

// Where goal g begins; behind the last goal, where the block ends.
pub fn goal_at(block: &[u8], g: usize) -> usize
    requires { Headed block.now × (g ≤ goals block.now) }
    ensures { (result ≡ goal_at block.now g) × (result ≤ 2261) }
{
    rule_at(block, rules(block)) + g * positions(block)
}

// How long the head demands the block to be.
pub fn block_length(block: &[u8]) -> usize
    requires { Headed block.now }
    ensures { (result ≡ block_length block.now) × (result ≤ 2261) }
{
    goal_at(block, goals(block))
}

// How many frames stand behind the head: the map, each rule and each goal.
pub fn frame_count(block: &[u8]) -> usize
    requires { Headed block.now }
    ensures { (result ≡ frame_count block.now) × (result ≤ 73) }
{
    1 + rules(block) + goals(block)
}

// How many bytes frame i has.
pub fn frame_length(block: &[u8], i: usize) -> usize
    requires { Headed block.now }
    ensures { result ≡ frame_length block.now i }
{
    if i == 0 {
        return labels(block);
    }
    if i <= rules(block) {
        return rule_width(block);
    }
    positions(block)
}

// The cost of rule r.
pub fn cost(block: &[u8], r: usize) -> u8
    requires { Sized block.now × (r < rules block.now) }
    ensures { result ≡ cost_of block.now r }
{
    block[rule_at(block, r)]
}

// How long the relabelled block is.
pub fn relabelled_length(block: &[u8]) -> usize
    requires { Headed block.now }
    ensures { (result ≡ relabelled_length block.now) × (result ≤ 2261) }
{
    block_length(block) - labels(block) + abstracts(block)
}

// Writes the head and the map of the relabelled block at the front, and gives the place behind them.
pub fn relabel_head(block: &[u8], out: &mut [u8]) -> usize
    requires { Headed block.now × (length (relabel_head block.now) ≤ length out.old) }
    ensures value { result ≡ length (relabel_head block.now) }
    ensures out_after { out.new ≡ sets out.old 0 (relabel_head block.now) }
{
    let k = block[2];
    out[0] = block[0];
    out[1] = k;
    out[2] = k;
    out[3] = block[3];
    out[4] = block[4];
    for x in 0..k {
        out[HEAD_LENGTH + usize::from(x)] = x;
    }
    HEAD_LENGTH + usize::from(k)
}
