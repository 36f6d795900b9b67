// The exercise under another map.
ghost use Rattle.std.specs.Prelude.{◌≡◌, ◌<◌, length};
ghost use Rattle.basics.specs.Lists.{at_front};
ghost use Rattle.blocks.specs.Layout.{labels};
ghost use Rattle.blocks.specs.Validity.{Sized};
ghost use Rattle.blocks.specs.Remapping.{remapped};

use super::layout;
use super::layout::{BlockBuffer, HEAD_LENGTH};

// Writes the exercise with the K and the map bytes that stand at the front of `map` at the front of `out`.
pub fn remap(block: &[u8], map: &[u8], out: &mut BlockBuffer)
    requires { Sized block.now × (labels block.now < length map.now) }
    ensures { out.new ≡
        at_front (remapped block.now map.now) out.old }
{
    let labels = layout::labels(block);
    out[..block.len()].copy_from_slice(block);
    out[2] = map[0];
    // Byte by byte, as `placed` says it: with a copy of the slice the proof did not close.
    for x in 0..labels {
        out[HEAD_LENGTH + x] = map[x + 1];
    }
}
