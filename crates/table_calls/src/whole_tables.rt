// Filling and testing the tables of all maps, behind one another in one slice, the block's own first. Further maps are
// lent behind the block, and an empty slice lends none.
ghost use Rattle.std.specs.Prelude.{◌≡◌};
ghost use Rattle.refusals.specs.Answers.{verdict, outcome};
ghost use Rattle.refusals.specs.Refusals.{answer_of};
ghost use Rattle.table_calls.specs.WholeTables.{table_conditions, fill_table, FillingKept, test_table, TableTestKept};

use refusals::Refusal;

// Checks a block with its further maps and the length of a table: accepted, or refused with 3 to 7, 14, 15, 12.
#[tactic(auto, using(crate::proofs::Conditions::checks), unfolding(crate::specs::WholeTables::table_conditions))]
fn check_table(block: &[u8], maps: &[u8], room: usize) -> Result<(), Refusal>
    ensures { answer_of result ≡ verdict (table_conditions block.now maps.now room) }
{
    maps::check(block, maps)?;
    if room < maps::all_entries(block, maps) {
        return Err(Refusal::TableShort);
    }
    Ok(())
}

// Fills the front of `table` with the least costs of the exercise relabelled under each map, one for each rank.
// Refused with 3 to 7, 14, 15, 12.
#[tactic(auto, using(crate::proofs::Conditions::table_accepted), unfolding(crate::specs::WholeTables::fill_table))]
pub fn fill_table(block: &[u8], maps: &[u8], table: &mut [u32]) -> Result<(), Refusal>
    ensures table_after { outcome (answer_of result) table.new ≡
        fill_table block.now maps.now table.old }
    ensures filling_kept { FillingKept block.now maps.now (answer_of result) table.new }
{
    check_table(block, maps, table.len())?;
    map_fills::fill_all(block, maps, table);
    Ok(())
}

// Whether every table passes the lower-bound test under its own map; further elements do not count.
// Refused with 3 to 7, 14, 15, 12.
#[tactic(auto, using(crate::proofs::Conditions::table_accepted), unfolding(crate::specs::WholeTables::test_table))]
pub fn test_table(block: &[u8], maps: &[u8], table: &[u32]) -> Result<bool, Refusal>
    ensures result_value { answer_of result ≡ test_table block.now maps.now table.now }
    ensures table_test_kept { TableTestKept block.now maps.now table.now (answer_of result) }
{
    check_table(block, maps, table.len())?;
    Ok(map_tables::all_pass(block, maps, table))
}
