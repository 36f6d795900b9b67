// The calls on lists of rules: replaying one that is given, and searching for plans.
ghost use Rattle.std.specs.Prelude.{◌≡◌};
ghost use Rattle.run_calls.specs.Replaying.{replay_run, ReplayKept};
ghost use Rattle.search_calls.specs.Searching.{find_plan, PlanKept};
ghost use Rattle.batch_calls.specs.Batches.{find_plans, BatchKept};
ghost use Rattle.c_answers.specs.Numbers.{length_of, replay_numbers_of, search_numbers_of};
ghost use Rattle.c_answers.specs.Numbers.{length_told, replay_told, search_told};

use c_answers::{Length, ReplayNumbers, SearchNumbers};
use queries::Limits;

// How the replay of a list ends; the state there then stands at the front of `out`.
#[unsafe(no_mangle)]
pub extern "C" fn mikjuqan_replay_run(
    block: &[u8],
    start: &[u8],
    list: &[u8],
    out: &mut [u8],
) -> ReplayNumbers
    ensures fact { let o = replay_run block.now start.now list.now out.old
        in (result ≡ replay_numbers_of o.answer) × (out.new ≡ o.out) }
    ensures replay_kept { ReplayKept block.now start.now list.now
        (replay_told result) out.new }
{
    ReplayNumbers::from(engine::replay_run(block, start, list, out))
}

// The answer of a search by the tables of all maps; a plan that is found then stands at the front of `plan`.
#[unsafe(no_mangle)]
pub extern "C" fn mikjuqan_find_plan(
    block: &[u8],
    maps: &[u8],
    start: &[u8],
    limits: Limits,
    table: &[u32],
    plan: &mut [u8],
) -> SearchNumbers
    ensures fact { let o = find_plan block.now maps.now start.now limits
        table.now plan.old
        in (result ≡ search_numbers_of o.answer) × (plan.new ≡ o.out) }
    ensures plan_kept { PlanKept block.now maps.now start.now limits
        table.now (search_told result) plan.new }
{
    SearchNumbers::from(engine::find_plan(block, maps, start, limits, table, plan))
}

// Searches from the start of each query record; the length is that of the answer records, which then stand at the front
// of `answers`.
#[unsafe(no_mangle)]
pub extern "C" fn mikjuqan_find_plans(
    block: &[u8],
    maps: &[u8],
    queries: &[u8],
    table: &[u32],
    answers: &mut [u8],
) -> Length
    ensures fact { let o = find_plans block.now maps.now queries.now
        table.now answers.old
        in (result ≡ length_of o.answer) × (answers.new ≡ o.out) }
    ensures batch_kept { BatchKept block.now maps.now queries.now
        table.now (length_told result) answers.new }
{
    Length::from(engine::find_plans(block, maps, queries, table, answers))
}
