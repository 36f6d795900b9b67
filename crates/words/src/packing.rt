// A state as one word: its labels are digits in base 16, position 0 lowest.
ghost use Rattle.std.specs.Prelude.{◌≡◌, ℕ, ◌%◌, ◌<◌, ◌≤◌, length, slice_index};
ghost use Rattle.words.specs.Packing as packing;

// The digit at position i.
pub fn digit(word: u64, i: usize) -> u64
    requires { i < 16 }
    ensures { (result ≡ packing.digit word i) × (result < 16) }
{
    (word >> (4 * i)) % 16
}

// Two labels of an exercise's own states that stand side by side in a word, in one byte: the first is the low digit.
#[derive(Drop)]
pub struct ConcretePair(pub u8);

// The labels at positions 0 and 1.
pub fn first_pair(word: u64) -> ConcretePair
    ensures { (result.0 ≡ word % 256) × (result.0 < 256) }
{
    ConcretePair((word % 256) as u8)
}

// The word of a state.
pub fn pack(state: &[u8]) -> u64
    requires { (length state.now ≤ 16) × ((i : ℕ) → i < length state.now → slice_index state.now i < 16) }
    ensures { result ≡ packing.pack state.now }
{
    let mut word: u64 = 0;
    for label in state.iter().rev() {
        word = word * 16 + u64::from(*label);
    }
    word
}
