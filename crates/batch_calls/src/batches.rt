// Searching from many starts at once.
ghost use Rattle.std.specs.Prelude.{◌≡◌};
ghost use Rattle.refusals.specs.Answers.{verdict, outcome};
ghost use Rattle.refusals.specs.Refusals.{answer_of};
ghost use Rattle.blocks.specs.Validity.{Headed};
ghost use Rattle.batch_calls.specs.Batches.{record_count, records_ok, batch_conditions, find_plans, BatchKept};

use super::answering::answer_records;
use blocks::validity::MOST_STATES;
use records::{RECORD_ROOM, query_length};
use refusals::Refusal;
use search_calls::check_tables;
use words::changes::CHANGES;
use words::code::CODE;

// The most query records of a call.
const MOST_RECORDS: usize = 256;

// How many whole query records so many bytes hold.
fn record_count(block: &[u8], bytes: usize) -> usize
    requires { Headed block.now }
    ensures { result ≡ record_count block.now bytes }
{
    bytes / query_length(block)
}

// Whether so many bytes are whole query records, one to 256 of them, and `room` holds their answers: 16.
#[tactic(auto, unfolding(crate::specs::Batches::records_ok))]
fn records_ok(block: &[u8], bytes: usize, room: usize) -> bool
    requires { Headed block.now }
    ensures { result ≡ records_ok block.now bytes room }
{
    let count = record_count(block, bytes);
    1 <= count
        && count <= MOST_RECORDS
        && count * query_length(block) == bytes
        && count * RECORD_ROOM <= room
}

// Checks what the call is handed: the block with its further maps, then the records, of `bytes` bytes with `room` for
// their answers, then the tables.
#[tactic(auto, using(crate::proofs::Conditions::checks), unfolding(crate::specs::Batches::batch_conditions))]
fn check_batch(
    block: &[u8],
    maps: &[u8],
    bytes: usize,
    table: &[u32],
    room: usize,
) -> Result<(), Refusal>
    ensures { answer_of result ≡
        verdict (batch_conditions block.now maps.now bytes table.now room) }
{
    maps::check(block, maps)?;
    if !records_ok(block, bytes, room) {
        return Err(Refusal::Records);
    }
    check_tables(block, maps, table)
}

// Searches from the start of each query record, within its limits, and writes an answer record for each, one behind
// the other at the front of `answers`; how many bytes they have is told. The block is prepared and the tables are
// tested once. A query that is refused by itself, with 8 or 10, gets an answer record that says so. Refused with 3 to
// 7, 14, 15, 16, 12, 13.
#[tactic(auto, unfolding(crate::specs::Batches::find_plans))]
pub fn find_plans(
    block: &[u8],
    maps: &[u8],
    queries: &[u8],
    table: &[u32],
    answers: &mut [u8],
) -> Result<usize, Refusal>
    ensures answers_after { outcome (answer_of result) answers.new ≡
        find_plans block.now maps.now queries.now table.now
        answers.old }
    ensures batch_kept { BatchKept block.now maps.now queries.now
        table.now (answer_of result) answers.new }
{
    check_batch(block, maps, queries.len(), table, answers.len())?;
    let mut code = [0u64; CODE];
    let mut changes = [0u64; CHANGES];
    let mut entries = [0u32; MOST_STATES];
    search::make_ready(block, maps, table, &mut code, &mut changes, &mut entries);
    let count = record_count(block, queries.len());
    answer_records(block, &code, &changes, &entries, queries, count, answers);
    Ok(count * RECORD_ROOM)
}
