// Reading an exercise.
ghost use Rattle.std.specs.Prelude.{◌≡◌};
ghost use Rattle.refusals.specs.Answers.{outcome};
ghost use Rattle.refusals.specs.Refusals.{answer_of};
ghost use Rattle.frames.specs.Reading.{read_exercise};
ghost use Rattle.text_calls.specs.Reading.{ReadingKept};

use frames::{read_head, read_text};
use refusals::Refusal;

// Reads an exercise from its text: its block is written at the front of `out`, and its length is told. Refused with 1,
// 2 (head line), 3, 2 (other lines), 11, 5, 6, 7, in this order.
#[tactic(auto, using(crate::proofs::Promises::reading_kept))]
pub fn read_exercise(text: &[u8], out: &mut [u8]) -> Result<usize, Refusal>
    ensures out_after { outcome (answer_of result) out.new ≡ read_exercise text.now out.old }
    ensures reading_kept { ReadingKept (answer_of result) out.new }
{
    read_text(text, read_head(text), out)
}
