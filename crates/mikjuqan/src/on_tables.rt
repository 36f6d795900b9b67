// The calls on the tables of all maps: filling them, testing them, looking an estimate up.
ghost use Rattle.std.specs.Prelude.{◌≡◌};
ghost use Rattle.table_calls.specs.Estimating.{look_up_estimate, EstimateKept};
ghost use Rattle.table_calls.specs.WholeTables.{fill_table, FillingKept, test_table, TableTestKept};
ghost use Rattle.c_answers.specs.Numbers.{refusal_of, decision_of, entry_of, done_told, decision_told, entry_told};

use c_answers::{Decision, Entry, refusal_of};

// 0 where the tables were filled, or the number that the call is refused with.
#[unsafe(no_mangle)]
pub extern "C" fn mikjuqan_fill_table(block: &[u8], maps: &[u8], table: &mut [u32]) -> u32
    ensures fact { let o = fill_table block.now maps.now table.old
        in (result ≡ refusal_of o.answer) × (table.new ≡ o.out) }
    ensures filling_kept { FillingKept block.now maps.now (done_told result) table.new }
{
    refusal_of(engine::fill_table(block, maps, table))
}

// Yes where every table passes the lower-bound test under its own map.
#[unsafe(no_mangle)]
pub extern "C" fn mikjuqan_test_table(block: &[u8], maps: &[u8], table: &[u32]) -> Decision
    ensures value { result ≡ decision_of (test_table block.now maps.now table.now) }
    ensures table_test_kept { TableTestKept block.now maps.now table.now (decision_told result) }
{
    Decision::from(engine::test_table(block, maps, table))
}

// The largest of a state's entries in the tables of all maps; the tables are not tested.
#[unsafe(no_mangle)]
pub extern "C" fn mikjuqan_look_up_estimate(
    block: &[u8],
    maps: &[u8],
    state: &[u8],
    table: &[u32],
) -> Entry
    ensures value { result ≡ entry_of
        (look_up_estimate block.now maps.now state.now table.now) }
    ensures estimate_kept { EstimateKept block.now maps.now state.now table.now
        (entry_told result) }
{
    Entry::from(engine::look_up_estimate(block, maps, state, table))
}
