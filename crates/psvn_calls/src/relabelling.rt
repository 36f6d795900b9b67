// Relabelling a block.
ghost use Rattle.std.specs.Prelude.{◌≡◌};
ghost use Rattle.refusals.specs.Answers.{outcome};
ghost use Rattle.refusals.specs.Refusals.{answer_of};
ghost use Rattle.psvn_calls.specs.Relabelling.{relabel_exercise, RelabellingKept};

use blocks::exercise::Exercise;
use refusals::Refusal;

// Writes the relabelled block at the front of `out`, and tells its length. Refused with 3 to 7, 11; 11 measures the
// relabelled block.
#[tactic(auto, using(crate::proofs::Promises::relabels), unfolding(crate::specs::Relabelling::relabel_exercise))]
pub fn relabel_block(block: &[u8], out: &mut [u8]) -> Result<usize, Refusal>
    ensures out_after { outcome (answer_of result) out.new ≡
        relabel_exercise block.now out.old }
    ensures relabelling_kept { RelabellingKept (answer_of result) out.new }
{
    let exercise = Exercise::of(block)?;
    let length = exercise.relabelled_length();
    if out.len() < length {
        return Err(Refusal::Buffer);
    }
    psvn::relabelling::relabel_block(exercise.bytes(), out);
    Ok(length)
}
