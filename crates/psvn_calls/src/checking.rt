// Whether a block, and a state of it, are accepted.
ghost use Rattle.std.specs.Prelude.{◌≡◌};
ghost use Rattle.refusals.specs.Answers.{verdict, answered};
ghost use Rattle.refusals.specs.Refusals.{answer_of};
ghost use Rattle.psvn_calls.specs.Checking.{check_block, CheckKept, state_conditions};

use blocks::exercise::Exercise;
use refusals::Refusal;

// Checks a block: accepted, or refused with 3 to 7.
#[tactic(auto, using(crate::proofs::Promises::checked_blocks), unfolding(crate::specs::Checking::check_block))]
pub fn check_block(block: &[u8]) -> Result<(), Refusal>
    ensures result_value { answer_of result ≡ check_block block.now }
    ensures check_kept { CheckKept block.now (answer_of result) }
{
    blocks::validity::check(block)
}

// The exercise of a block that has a state: accepted, or refused with 3 to 8.
#[tactic(auto, using(crate::proofs::Conditions::checks), unfolding(crate::specs::Checking::state_conditions))]
pub fn check_state<'a>(block: &'a [u8], state: &[u8]) -> Result<Exercise<'a>, Refusal>
    ensures { answer_of result ≡ answered (verdict (state_conditions block.now state.now)) block.now }
{
    let exercise = Exercise::of(block)?;
    if exercise.state_ok(state) {
        return Ok(exercise);
    }
    Err(Refusal::State)
}
