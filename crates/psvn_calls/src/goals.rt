// The goal test.
ghost use Rattle.std.specs.Prelude.{◌≡◌};
ghost use Rattle.refusals.specs.Refusals.{answer_of};
ghost use Rattle.psvn_calls.specs.Goals.{test_goals, GoalTestKept};

use super::checking::check_state;
use psvn::rules::met_goal;
use refusals::Refusal;

// Which goal a state meets, the lowest number of a met one, if any. Refused with 3 to 7, 8.
#[tactic(auto, using(crate::proofs::Promises::goal_tests), unfolding(crate::specs::Goals::test_goals))]
pub fn test_goals(block: &[u8], state: &[u8]) -> Result<Option<u8>, Refusal>
    ensures result_value { answer_of result ≡ test_goals block.now state.now }
    ensures goal_test_kept { GoalTestKept block.now state.now (answer_of result) }
{
    let exercise = check_state(block, state)?;
    Ok(met_goal(exercise.bytes(), state))
}
