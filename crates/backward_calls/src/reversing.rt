// Reversible by form.
ghost use Rattle.std.specs.Prelude.{◌≡◌};
ghost use Rattle.refusals.specs.Refusals.{answer_of};
ghost use Rattle.backward_calls.specs.Reversing.{test_reversible, ReversibilityKept};

use blocks::exercise::Exercise;
use refusals::Refusal;

// Whether a rule is reversible by form. Refused with 3 to 7, 9.
#[tactic(auto, using(crate::proofs::Promises::forms), unfolding(crate::specs::Reversing::test_reversible))]
pub fn test_reversible(block: &[u8], rule: usize) -> Result<bool, Refusal>
    ensures result_value { answer_of result ≡ test_reversible block.now rule }
    ensures reversibility_kept { ReversibilityKept block.now rule (answer_of result) }
{
    let exercise = Exercise::of(block)?;
    if exercise.rules() <= rule {
        return Err(Refusal::Rule);
    }
    Ok(backward::reversible::reversible(exercise.bytes(), rule))
}
