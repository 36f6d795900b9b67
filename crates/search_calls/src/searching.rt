// Searching for a plan.
ghost use Rattle.std.specs.Prelude.{◌≡◌};
ghost use Rattle.refusals.specs.Answers.{verdict, outcome};
ghost use Rattle.refusals.specs.Refusals.{answer_of};
ghost use Rattle.maps.specs.Maps.{Mapped};
ghost use Rattle.search_calls.specs.Searching.{tables_conditions, lent_conditions, search_conditions};
ghost use Rattle.search_calls.specs.Searching.{search_of, find_plan, PlanKept};

use blocks::validity::MOST_STATES;
use queries::Limits;
use refusals::Refusal;
use search::Ending;
use words::changes::CHANGES;
use words::code::CODE;

// The tables of all maps that a search is lent: 12, 13.
#[tactic(auto, unfolding(crate::specs::Searching::tables_conditions))]
pub fn check_tables(block: &[u8], maps: &[u8], table: &[u32]) -> Result<(), Refusal>
    requires { Mapped block.now maps.now }
    ensures { answer_of result ≡
        verdict (tables_conditions block.now maps.now table.now) }
{
    if table.len() < maps::all_entries(block, maps) {
        return Err(Refusal::TableShort);
    }
    if map_tables::all_pass(block, maps, table) {
        return Ok(());
    }
    Err(Refusal::TableFails)
}

// The room for a plan of so many steps, and the tables: 11, 12, 13.
#[tactic(auto, unfolding(crate::specs::Searching::lent_conditions))]
fn check_lent(
    block: &[u8],
    maps: &[u8],
    steps: usize,
    table: &[u32],
    room: usize,
) -> Result<(), Refusal>
    requires { Mapped block.now maps.now }
    ensures { answer_of result ≡
        verdict (lent_conditions block.now maps.now steps table.now room) }
{
    if room < steps {
        return Err(Refusal::Buffer);
    }
    check_tables(block, maps, table)
}

// Checks what a search is handed: the block with its further maps, then what is asked, then what is lent; `room` is the
// length of the plan buffer.
#[tactic(auto, using(crate::proofs::Conditions::checks), unfolding(crate::specs::Searching::search_conditions))]
fn check_search(
    block: &[u8],
    maps: &[u8],
    start: &[u8],
    limits: Limits,
    table: &[u32],
    room: usize,
) -> Result<(), Refusal>
    ensures { answer_of result ≡
        verdict (search_conditions block.now maps.now start.now limits
        table.now room) }
{
    maps::check(block, maps)?;
    queries::check_query(block, start, limits)?;
    check_lent(block, maps, limits.steps, table, room)
}

// Searches from a start within limits: a plan found is written at the front of `plan`, which otherwise keeps its
// contents. The estimate of a state is the largest of its entries in the tables of all maps. Told is the plan with the
// goal that it reaches; or that there is no plan, or that the allowance is spent, after so many visits. Refused with 3
// to 7, 14, 15, 8, 10, 11, 12, 13.
#[tactic(auto, unfolding(crate::specs::Searching::find_plan))]
pub fn find_plan(
    block: &[u8],
    maps: &[u8],
    start: &[u8],
    limits: Limits,
    table: &[u32],
    plan: &mut [u8],
) -> Result<Ending, Refusal>
    ensures plan_after { outcome (search_of result) plan.new ≡
        find_plan block.now maps.now start.now limits table.now
        plan.old }
    ensures plan_kept { PlanKept block.now maps.now start.now limits
        table.now (search_of result) plan.new }
{
    check_search(block, maps, start, limits, table, plan.len())?;
    let mut code = [0u64; CODE];
    let mut changes = [0u64; CHANGES];
    let mut entries = [0u32; MOST_STATES];
    search::make_ready(block, maps, table, &mut code, &mut changes, &mut entries);
    let ending = search::find_plan(block, &code, &changes, &entries, start, limits, plan);
    Ok(ending)
}
