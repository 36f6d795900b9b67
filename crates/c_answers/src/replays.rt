// The call that replays a run.
ghost use Rattle.std.specs.Prelude.{◌≡◌};
ghost use Rattle.refusals.specs.Refusals.{answer_of};
ghost use Rattle.c_answers.specs.Numbers.{replay_numbers_of};

use super::verdicts::wide_number;
use psvn::rules::NO_GOAL;
use refusals::Refusal;
use runs::replay::{Replayed, RunEnd};

// What a replay answers: done (0) or stuck (1), and where it ends, with the goal of the final state where done.
#[repr(C)]
#[derive(Drop)]
pub struct ReplayNumbers {
    pub refusal: u32,
    pub stuck: u32,
    pub end: RunEnd,
}

// What a replay answers.
impl From<Result<Replayed, Refusal>> for ReplayNumbers {
    ghost from_gives = { λ answer numbers. numbers ≡ replay_numbers_of (answer_of answer) };

    fn from(answer: Result<Replayed, Refusal>) -> ReplayNumbers {
        match answer {
            Ok(Replayed::Done(end)) => ReplayNumbers {
                refusal: 0,
                stuck: 0,
                end,
            },
            Ok(Replayed::Stuck(end)) => ReplayNumbers {
                refusal: 0,
                stuck: 1,
                end,
            },
            Err(refusal) => ReplayNumbers {
                refusal: wide_number(refusal),
                stuck: 0,
                end: RunEnd {
                    steps: 0,
                    cost: 0,
                    goal: NO_GOAL,
                },
            },
        }
    }
}
