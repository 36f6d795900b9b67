// The goal test.
ghost use Rattle.std.specs.Prelude.{◌≡◌};
ghost use Rattle.refusals.specs.Refusals.{answer_of};
ghost use Rattle.c_answers.specs.Numbers.{goal_numbers_of};

use super::verdicts::wide_number;
use psvn::rules::NO_GOAL;
use refusals::Refusal;

// The goal that a state meets; NO_GOAL where it meets none.
#[repr(C)]
#[derive(Drop)]
pub struct GoalNumbers {
    pub refusal: u32,
    pub goal: u8,
}

// What the goal test answers.
impl From<Result<Option<u8>, Refusal>> for GoalNumbers {
    ghost from_gives = { λ answer numbers. numbers ≡ goal_numbers_of (answer_of answer) };

    fn from(answer: Result<Option<u8>, Refusal>) -> GoalNumbers {
        match answer {
            Ok(met) => GoalNumbers {
                refusal: 0,
                goal: met.unwrap_or(NO_GOAL),
            },
            Err(refusal) => GoalNumbers {
                refusal: wide_number(refusal),
                goal: NO_GOAL,
            },
        }
    }
}
