// Replaying a recorded run.
ghost use Rattle.std.specs.Prelude.{◌≡◌};
ghost use Rattle.refusals.specs.Answers.{verdict, outcome, answered};
ghost use Rattle.refusals.specs.Refusals.{answer_of};
ghost use Rattle.run_calls.specs.Replaying.{replay_conditions, replay_run, ReplayKept};

use blocks::exercise::Exercise;
use psvn_calls::check_state;
use refusals::Refusal;
use runs::replay::{LONGEST_LIST, Replayed};

// The exercise of what a replay is handed; `room` is the length of the buffer.
#[tactic(auto, using(crate::proofs::Conditions::checks), unfolding(crate::specs::Replaying::replay_conditions))]
fn check_replay<'a>(
    block: &'a [u8],
    start: &[u8],
    list: &[u8],
    room: usize,
) -> Result<Exercise<'a>, Refusal>
    ensures { answer_of result ≡
        answered (verdict (replay_conditions block.now start.now list.now room)) block.now }
{
    let exercise = check_state(block, start)?;
    if !runs::replay::numbers_ok(block, list) {
        return Err(Refusal::Rule);
    }
    if LONGEST_LIST < list.len() {
        return Err(Refusal::Limit);
    }
    if room < exercise.positions() {
        return Err(Refusal::Buffer);
    }
    Ok(exercise)
}

// Replays a list of rule numbers from a start: done, and the goal of the final state is told; or stuck at the first
// index whose rule does not apply. Either way the cost so far is told, and the state there written at the front of
// `out`. Refused with 3 to 7, 8, 9 (for every number of the list), 10, 11.
#[tactic(auto, using(crate::proofs::Promises::replays), unfolding(crate::specs::Replaying::replay_run))]
pub fn replay_run(
    block: &[u8],
    start: &[u8],
    list: &[u8],
    out: &mut [u8],
) -> Result<Replayed, Refusal>
    ensures out_after { outcome (answer_of result) out.new ≡
        replay_run block.now start.now list.now out.old }
    ensures replay_kept { ReplayKept block.now start.now list.now
        (answer_of result) out.new }
{
    let exercise = check_replay(block, start, list, out.len())?;
    Ok(runs::replay::replay(exercise.bytes(), start, list, out))
}
