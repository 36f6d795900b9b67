// Calls that answer yes or no.
ghost use Rattle.std.specs.Prelude.{◌≡◌};
ghost use Rattle.refusals.specs.Refusals.{answer_of};
ghost use Rattle.c_answers.specs.Numbers.{decision_of};

use super::verdicts::wide_number;
use refusals::Refusal;

// Yes (1) or no (0).
#[repr(C)]
#[derive(Drop)]
pub struct Decision {
    pub refusal: u32,
    pub yes: u32,
}

// Whether a rule was applied, a state was found, a rule is reversible by form, every table passes.
impl From<Result<bool, Refusal>> for Decision {
    ghost from_gives = { λ answer decision. decision ≡ decision_of (answer_of answer) };

    fn from(answer: Result<bool, Refusal>) -> Decision {
        match answer {
            Ok(yes) => Decision {
                refusal: 0,
                yes: u32::from(yes),
            },
            Err(refusal) => Decision {
                refusal: wide_number(refusal),
                yes: 0,
            },
        }
    }
}
