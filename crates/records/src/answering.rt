// The bytes that answer a query.
ghost use Rattle.std.specs.Prelude.{◌≡◌, ℕ, ◌+◌, ◌≤◌, List, [], ◌∷◌, length, take};
ghost use Rattle.basics.specs.Lists.{at_front};
ghost use Rattle.refusals.specs.Refusals.{refusal_number};
ghost use Rattle.preparing.specs.Prepared.{Prepared};
ghost use Rattle.queries.specs.Queries.{longest_plan};
ghost use Rattle.rounds.specs.Systems.{Estimate};
ghost use Rattle.search.specs.OnWords.{Rates};
ghost use Rattle.search.specs.Parts.{FoundWithin, answer_of, ending_goal};
ghost use Rattle.records.specs.Records.{query_length, record_room, plan_front, plan_bytes, answer_bytes, refusal_bytes};
ghost use Rattle.records.specs.Records.{answer_record, Written};

use super::asking::limits_of;
use super::numbers::put_number;
use blocks::validity::Entries;
use queries::{LONGEST_PLAN, check_query};
use refusals::Refusal;
use search::{Ending, Plan, planless};
use words::changes::Changes;
use words::code::Code;

// How many bytes hold every answer: eleven in front, and a plan of at most 64 steps.
pub const RECORD_ROOM: usize = 75;

// Where the cost, the visits and the rules stand behind the steps of a plan.
const COST: usize = 1;

const VISITS: usize = 5;

const RULES: usize = 9;

// Room for the rules of every plan.
type Rules = [u8; LONGEST_PLAN];

// Writes FF and the number of a refusal, and gives their length.
pub fn put_refusal(refusal: Refusal, out: &mut [u8]) -> usize
    requires { 2 ≤ length out.old }
    ensures { Written (refusal_bytes (refusal_number refusal)) out.old result out.new }
{
    out[0] = 255;
    out[1] = u8::from(refusal);
    2
}

// Writes a plan's steps, cost and visits.
fn put_numbers(plan: Plan, out: &mut [u8])
    requires { (9 ≤ length out.old) × (plan.steps ≤ longest_plan) }
    ensures { out.new ≡
        at_front (plan_front plan.steps plan.cost plan.visits) out.old }
{
    out[0] = plan.steps as u8;
    put_number(out, COST, plan.cost);
    put_number(out, VISITS, plan.visits);
}

// Writes a plan, whose rules stand at the front of `rules`, and gives the length of what is written.
fn put_plan(plan: Plan, rules: &Rules, out: &mut [u8]) -> usize
    requires { (plan.steps ≤ longest_plan) × (9 + longest_plan ≤ length out.old) }
    ensures { Written (plan_bytes plan.cost plan.visits
        (take plan.steps rules.now)) out.old result out.new }
{
    put_numbers(plan, out);
    let end = RULES + plan.steps;
    out[RULES..end].copy_from_slice(&rules[..plan.steps]);
    end
}

// Writes a plan that was found behind its status and its goal, and gives the length.
fn put_found(plan: Plan, rules: &Rules, out: &mut [u8]) -> usize
    requires { (plan.steps ≤ longest_plan) × (record_room ≤ length out.old) }
    ensures { Written (0 ∷ plan.goal ∷ plan_bytes plan.cost plan.visits
        (take plan.steps rules.now)) out.old result out.new }
{
    out[0] = 0;
    out[1] = plan.goal;
    2 + put_plan(plan, rules, &mut out[2..])
}

// Writes a status and the visits where there is no plan, and gives the length.
fn put_planless(status: u8, visits: u32, out: &mut [u8]) -> usize
    requires { record_room ≤ length out.old }
    ensures { Written (status ∷ plan_bytes 0 visits []) out.old result out.new }
{
    out[0] = status;
    put_numbers(planless(visits), &mut out[1..]);
    1 + RULES
}

// Writes the bytes of an answer of the search, and gives their length.
fn write_answer(ending: Ending, rules: &Rules, out: &mut [u8]) -> usize
    requires { FoundWithin longest_plan ending × (record_room ≤ length out.old) }
    ensures { Written (answer_bytes (ending_goal ending) (answer_of rules.now ending))
        out.old result out.new }
{
    match ending {
        Ending::Found(plan) => put_found(plan, rules, out),
        Ending::NoPlan { visits } => put_planless(1, visits, out),
        Ending::Spent { visits } => put_planless(2, visits, out),
    }
}

// Answers a query at the front of `out`, and gives the answer's length, by arrays that are prepared from the block.
// They are handed on one by one: what is promised speaks of each by itself, and a struct would stand before each name.
pub fn answer_query(
    block: &[u8],
    code: &Code,
    changes: &Changes,
    entries: &Entries,
    query: &[u8],
    out: &mut [u8],
) -> usize
    requires { Prepared block.now code.now changes.now × (length query.now ≡ query_length block.now) ×
        (record_room ≤ length out.old) }
    ensures { (h : List ℕ → Estimate) →
        Rates block.now changes.now entries.now h →
        Written (answer_record block.now h query.now) out.old result out.new }
{
    let start = &query[..blocks::layout::positions(block)];
    let limits = limits_of(block, query);
    match check_query(block, start, limits) {
        Ok(()) => {
            let mut rules = [0u8; LONGEST_PLAN];
            let ending = search::find_plan(
                block, code, changes, entries, start, limits, &mut rules,
            );
            write_answer(ending, &rules, out)
        }
        Err(refusal) => put_refusal(refusal, out),
    }
}
