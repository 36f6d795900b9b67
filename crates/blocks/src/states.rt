// States: n labels, each below the count at its position.
ghost use Rattle.std.specs.Prelude.{◌≡◌};
ghost use Rattle.blocks.specs.States.{state_ok};
ghost use Rattle.blocks.specs.Validity.{Headed};

use super::layout;

// Condition 8: whether the bytes are a state of the block.
pub fn state_ok(block: &[u8], state: &[u8]) -> bool
    requires { Headed block.now }
    ensures { result ≡ state_ok block.now state.now }
{
    state.len() == layout::positions(block)
        && (0..state.len()).all(|i| usize::from(state[i]) < layout::label_count(block, i))
}
