// Applying a rule to a state.
ghost use Rattle.std.specs.Prelude.{◌≡◌};
ghost use Rattle.refusals.specs.Answers.{verdict, outcome, answered};
ghost use Rattle.refusals.specs.Refusals.{answer_of};
ghost use Rattle.psvn_calls.specs.Applying.{application_of, apply_conditions, apply_rule, ApplicationKept};

use super::checking::check_state;
use blocks::exercise::Exercise;
use refusals::Refusal;

// The exercise of a block that has a state and a rule, with room for a state; `room` is the length of the buffer.
#[tactic(auto, using(crate::proofs::Conditions::checks), unfolding(crate::specs::Applying::apply_conditions))]
pub fn check_application<'a>(
    block: &'a [u8],
    rule: usize,
    state: &[u8],
    room: usize,
) -> Result<Exercise<'a>, Refusal>
    ensures { answer_of result ≡ answered (verdict (apply_conditions block.now rule state.now room)) block.now }
{
    let exercise = check_state(block, state)?;
    if exercise.rules() <= rule {
        return Err(Refusal::Rule);
    }
    if room < exercise.positions() {
        return Err(Refusal::Buffer);
    }
    Ok(exercise)
}

// Applies a rule: writes the new state at the front of `out` and is done, or the rule does not apply and nothing is
// written. Refused with 3 to 7, 8, 9, 11.
#[tactic(auto, using(crate::proofs::Promises::steps), unfolding(crate::specs::Applying::apply_rule))]
pub fn apply_rule(block: &[u8], rule: usize, state: &[u8], out: &mut [u8]) -> Result<bool, Refusal>
    ensures out_after { outcome (application_of result) out.new ≡
        apply_rule block.now rule state.now out.old }
    ensures application_kept { ApplicationKept block.now rule state.now (application_of result) out.new }
{
    let exercise = check_application(block, rule, state, out.len())?;
    if psvn::rules::applies(exercise.bytes(), rule, state) {
        psvn::rules::step(exercise.bytes(), rule, state, out);
        return Ok(true);
    }
    Ok(false)
}
