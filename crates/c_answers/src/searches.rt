// The call that searches for a plan.
ghost use Rattle.std.specs.Prelude.{◌≡◌};
ghost use Rattle.search_calls.specs.Searching.{search_of};
ghost use Rattle.c_answers.specs.Numbers.{search_numbers_of, without_plan};

use super::verdicts::wide_number;
use refusals::Refusal;
use search::{Ending, Plan};

// What a search answers: found (0), 'no plan' (1) or 'spent' (2), and the plan, whose steps and cost are 0 and whose
// goal is FF where there is none; its visits are told in each case.
#[repr(C)]
#[derive(Drop)]
pub struct SearchNumbers {
    pub refusal: u32,
    pub status: u32,
    pub plan: Plan,
}

// The numbers of a search that gives no plan.
fn without_plan(refusal: u32, status: u32, visits: u32) -> SearchNumbers
    ensures { result ≡ without_plan refusal status visits }
{
    let plan = search::planless(visits);
    SearchNumbers {
        refusal,
        status,
        plan,
    }
}

// The answer by its case.
impl From<Result<Ending, Refusal>> for SearchNumbers {
    ghost from_gives = { λ answer numbers. numbers ≡ search_numbers_of (search_of answer) };

    fn from(answer: Result<Ending, Refusal>) -> SearchNumbers {
        match answer {
            Ok(Ending::Found(plan)) => SearchNumbers {
                refusal: 0,
                status: 0,
                plan,
            },
            Ok(Ending::NoPlan { visits }) => without_plan(0, 1, visits),
            Ok(Ending::Spent { visits }) => without_plan(0, 2, visits),
            Err(refusal) => without_plan(wide_number(refusal), 0, 0),
        }
    }
}
