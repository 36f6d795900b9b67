// Compiles the map to weights: what each pair of labels that stand side by side in a word adds to the rank of the
// relabelled state (see `words::ranking`).
ghost use Rattle.std.specs.Prelude.{◌≡◌, ℕ, ◌*◌, ◌≤◌, ◌<◌, length, get_or};
ghost use Rattle.blocks.specs.Layout.{positions, abstract_count};
ghost use Rattle.blocks.specs.Validity.{Valid};
ghost use Rattle.words.specs.Compiled.{Weighted};
ghost use Rattle.compiling.specs.PlacingWeights.{RowPlaced, SinglesPlaced, PairsPlaced};

use blocks::labels::ConcreteLabel;
use blocks::layout;
use words::ranking::{LABELS, PerLabel, Weights};

// Writes the weights of the labels at position i, where an abstract label counts p.
fn place_row(block: &[u8], i: usize, p: usize, singles: &mut PerLabel<u16>)
    requires { Valid block.now × (i < positions block.now) × (abstract_count block.now i * p ≤ 16384) }
    ensures { RowPlaced block.now i p singles.old singles.new }
{
    let count = layout::label_count(block, i);
    for x in 0..count {
        let label = ConcreteLabel(x as u8);
        let byte = u8::from(layout::abstract_label(block, i, label));
        let y = usize::from(byte);
        singles[16 * i + x] = (y * p) as u16;
    }
}

// Writes the weights of single labels, from the last position on: a label counts as often as there are lists of
// abstract labels for the positions behind it. What a rule adds to a rank is made of these too.
pub fn place_singles(block: &[u8], singles: &mut PerLabel<u16>)
    requires { Valid block.now × ((k : ℕ) → get_or singles.old k 0 ≡ 0) }
    ensures { SinglesPlaced block.now singles.new }
{
    let mut p: usize = 1;
    for i in (0..layout::positions(block)).rev() {
        place_row(block, i, p, singles);
        p *= layout::abstract_count(block, i);
    }
}

// Writes the weights of the pairs that n labels make: those at positions 2 * j and 2 * j + 1 stand in byte j of a word,
// the first as its low digit.
fn place_pairs(singles: &PerLabel<u16>, n: usize, weights: &mut Weights)
    requires { (n ≤ 16) × ((k : ℕ) → get_or singles.now k 0 ≤ 16384) }
    ensures { PairsPlaced n singles.now weights.new }
{
    let end = 256 * ((n + 1) / 2);
    for k in 0..end {
        let row = 32 * (k / 256);
        weights[k] = singles[row + k % 16] + singles[row + 16 + k / 16 % 16];
    }
}

// Writes the weights. Those of single labels are not kept: a rank is summed by pairs, in half the steps.
pub fn place_weights(block: &[u8], weights: &mut Weights)
    requires { Valid block.now }
    ensures { Weighted block.now weights.new }
{
    let mut singles = [0u16; LABELS];
    place_singles(block, &mut singles);
    place_pairs(&singles, layout::positions(block), weights);
}
