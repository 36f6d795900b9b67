// Estimates: the rank of a state's relabelled state, and the entry there.
ghost use Rattle.std.specs.Prelude.{◌≡◌, true, ◌≤◌, ◌<◌, length};
ghost use Rattle.blocks.specs.Layout.{abstract_states};
ghost use Rattle.blocks.specs.Validity.{Valid};
ghost use Rattle.blocks.specs.States.{state_ok};
ghost use Rattle.psvn.specs.Relabelling.{relabel_state};
ghost use Rattle.psvn.specs.Ranks.{rank};
ghost use Rattle.tables.specs.Tables.{estimate};

use blocks::labels::ConcreteLabel;
use blocks::layout;

// The rank of the relabelled state.
fn relabelled_rank(block: &[u8], state: &[u8]) -> usize
    requires { Valid block.now × (state_ok block.now state.now ≡ true) }
    ensures { (result ≡ rank block.now (relabel_state block.now state.now)) ×
        (result < abstract_states block.now) }
{
    let n = layout::positions(block);
    let mut k: usize = 0;
    for i in 0..n {
        let label = layout::abstract_label(block, i, ConcreteLabel(state[i]));
        let byte = u8::from(label);
        k = k * layout::abstract_count(block, i) + usize::from(byte);
    }
    k
}

// The estimate of a state.
pub fn estimate(block: &[u8], state: &[u8], table: &[u32]) -> u32
    requires { Valid block.now × (state_ok block.now state.now ≡ true) ×
        (abstract_states block.now ≤ length table.now) }
    ensures { result ≡ estimate block.now table.now state.now }
{
    table[relabelled_rank(block, state)]
}
