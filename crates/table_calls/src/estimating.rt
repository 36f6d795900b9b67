// Looking up an estimate by the tables of all maps.
ghost use Rattle.std.specs.Prelude.{◌≡◌};
ghost use Rattle.refusals.specs.Refusals.{answer_of};
ghost use Rattle.table_calls.specs.Estimating.{look_up_estimate, EstimateKept};

use refusals::Refusal;

// The estimate of a state, by tables that need not pass the lower-bound test: the largest of its entries, the mark
// above all. Refused with 3 to 7, 14, 15, 8, 12.
#[tactic(auto, using(crate::proofs::Conditions::checks), unfolding(crate::specs::Estimating::look_up_estimate))]
pub fn look_up_estimate(
    block: &[u8],
    maps: &[u8],
    state: &[u8],
    table: &[u32],
) -> Result<u32, Refusal>
    ensures result_value { answer_of result ≡
        look_up_estimate block.now maps.now state.now table.now }
    ensures estimate_kept { EstimateKept block.now maps.now state.now table.now
        (answer_of result) }
{
    maps::check(block, maps)?;
    if !blocks::states::state_ok(block, state) {
        return Err(Refusal::State);
    }
    if table.len() < maps::all_entries(block, maps) {
        return Err(Refusal::TableShort);
    }
    Ok(map_tables::largest_entry(block, maps, state, table))
}
