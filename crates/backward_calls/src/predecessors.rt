// Stepping back.
ghost use Rattle.std.specs.Prelude.{◌≡◌};
ghost use Rattle.refusals.specs.Answers.{verdict, outcome, answered};
ghost use Rattle.refusals.specs.Refusals.{answer_of};
ghost use Rattle.backward.specs.Predecessors.{from_first, after};
ghost use Rattle.backward_calls.specs.Predecessors.{step_back_conditions, step_back_from, PredecessorKept};

use backward::predecessors;
use blocks::exercise::Exercise;
use psvn_calls::{check_application, check_state};
use refusals::Refusal;

// The exercise of what stepping back after an earlier state is handed; `room` is the length of the buffer.
#[tactic(auto, using(crate::proofs::Conditions::checks), unfolding(crate::specs::Predecessors::step_back_conditions))]
fn check_step_back<'a>(
    block: &'a [u8],
    rule: usize,
    state: &[u8],
    earlier: &[u8],
    room: usize,
) -> Result<Exercise<'a>, Refusal>
    ensures { answer_of result ≡ answered (verdict
        (step_back_conditions block.now rule state.now (after earlier.now) room)) block.now }
{
    let exercise = check_state(block, state)?;
    if !exercise.state_ok(earlier) {
        return Err(Refusal::State);
    }
    if exercise.rules() <= rule {
        return Err(Refusal::Rule);
    }
    if room < exercise.positions() {
        return Err(Refusal::Buffer);
    }
    Ok(exercise)
}

// Steps back from 'first': writes the first state in rank order that the rule takes to `state` at the front of `out`
// and tells that one was found, or there is none and nothing is written. Refused with 3 to 7, 8, 9, 11.
#[tactic(auto, using(crate::proofs::Promises::steps_back), unfolding(crate::specs::Predecessors::step_back_from))]
pub fn first_predecessor(
    block: &[u8],
    rule: usize,
    state: &[u8],
    out: &mut [u8],
) -> Result<bool, Refusal>
    ensures out_after { outcome (answer_of result) out.new ≡
        step_back_from block.now rule state.now from_first out.old }
    ensures predecessor_kept { PredecessorKept block.now rule state.now from_first
        (answer_of result) out.new }
{
    let exercise = check_application(block, rule, state, out.len())?;
    Ok(predecessors::first_predecessor(exercise.bytes(), rule, state, out))
}

// Steps back after an earlier state, which may be any state: writes the next one in rank order that the rule takes to
// `state` at the front of `out` and tells that one was found, or there is none further and nothing is written. Refused
// with 3 to 7, 8 (for both states), 9, 11.
#[tactic(auto, using(crate::proofs::Promises::steps_back), unfolding(crate::specs::Predecessors::step_back_from))]
pub fn next_predecessor(
    block: &[u8],
    rule: usize,
    state: &[u8],
    earlier: &[u8],
    out: &mut [u8],
) -> Result<bool, Refusal>
    ensures out_after { outcome (answer_of result) out.new ≡ step_back_from
        block.now rule state.now (after earlier.now) out.old }
    ensures predecessor_kept { PredecessorKept block.now rule state.now (after earlier.now)
        (answer_of result) out.new }
{
    let exercise = check_step_back(block, rule, state, earlier, out.len())?;
    Ok(predecessors::next_predecessor(exercise.bytes(), rule, state, earlier, out))
}
