// What a search is asked, from which state and within which limits, and what turns it back.
#![tactic(auto)]

ghost use Rattle.std.specs.Prelude.{◌≡◌};
ghost use Rattle.refusals.specs.Answers.{verdict};
ghost use Rattle.refusals.specs.Refusals.{answer_of};
ghost use Rattle.blocks.specs.Validity.{Headed};
ghost use Rattle.queries.specs.Queries.{query_conditions};

use refusals::Refusal;

// The largest step limit.
pub const LONGEST_PLAN: usize = 64;

// The limits of a search: the most steps and the highest cost of a plan, and the most visits.
#[repr(C)]
#[derive(Clone, Copy)]
pub struct Limits {
    pub steps: usize,
    pub cost: u32,
    pub visits: u32,
}

// Whether a search may be asked for: refused with 8 for the start, with 10 for the step limit.
pub fn check_query(block: &[u8], start: &[u8], limits: Limits) -> Result<(), Refusal>
    requires { Headed block.now }
    ensures { answer_of result ≡ verdict (query_conditions block.now start.now limits) }
{
    if !blocks::states::state_ok(block, start) {
        return Err(Refusal::State);
    }
    if LONGEST_PLAN < limits.steps {
        return Err(Refusal::Limit);
    }
    Ok(())
}
