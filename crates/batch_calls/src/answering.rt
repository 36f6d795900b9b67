// Answer records, of one length each, one for each query record.
ghost use Rattle.std.specs.Prelude.{◌≡◌, List, ℕ, ◌*◌, ◌≤◌, length};
ghost use Rattle.basics.specs.Lists.{at_front, joined};
ghost use Rattle.preparing.specs.Prepared.{Prepared};
ghost use Rattle.rounds.specs.Systems.{Estimate};
ghost use Rattle.search.specs.OnWords.{Rates};
ghost use Rattle.records.specs.Records.{query_length, record_room, answer_record};
ghost use Rattle.batch_calls.specs.Batches.{whole_record, answer_at};

use blocks::validity::Entries;
use records::{RECORD_ROOM, query_length};
use words::changes::Changes;
use words::code::Code;

// Answers a query in a record at the front of `out`: zeros stand behind the answer.
fn answer_record(
    block: &[u8],
    code: &Code,
    changes: &Changes,
    entries: &Entries,
    query: &[u8],
    out: &mut [u8],
)
    requires { Prepared block.now code.now changes.now × (length query.now ≡ query_length block.now) ×
        (record_room ≤ length out.old) }
    ensures { (h : List ℕ → Estimate) →
        Rates block.now changes.now entries.now h →
        out.new ≡ at_front (whole_record (answer_record block.now h query.now))
        out.old }
{
    out[..RECORD_ROOM].fill(0);
    records::answer_query(block, code, changes, entries, query, out);
}

// Answers so many query records, each by itself: one answer record behind the other. The loop counts, since a proof
// knows nothing of what `chunks_exact_mut` left in a slice once its loan is over.
#[tactic(auto, using(crate::proofs::AnswerRecords::query_inside))]
pub fn answer_records(
    block: &[u8],
    code: &Code,
    changes: &Changes,
    entries: &Entries,
    queries: &[u8],
    count: usize,
    answers: &mut [u8],
)
    requires { Prepared block.now code.now changes.now ×
        (count * query_length block.now ≤ length queries.now) × (count * record_room ≤ length answers.old) }
    ensures { (h : List ℕ → Estimate) →
        Rates block.now changes.now entries.now h →
        answers.new ≡ at_front (joined count (answer_at block.now h queries.now))
        answers.old }
{
    let width = query_length(block);
    for i in 0..count {
        let at = i * width;
        let query = &queries[at..at + width];
        answer_record(
            block,
            code,
            changes,
            entries,
            query,
            &mut answers[i * RECORD_ROOM..],
        );
    }
}
