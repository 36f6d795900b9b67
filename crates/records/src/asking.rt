// What a query's bytes ask: a start, and limits behind it.
ghost use Rattle.std.specs.Prelude.{◌≡◌, ◌≤◌, length};
ghost use Rattle.blocks.specs.Validity.{Headed};
ghost use Rattle.records.specs.Records.{query_length, limits_of};

use super::numbers::number_at;
use blocks::layout;
use queries::Limits;

// How many bytes hold every query: a start of at most 16 labels, and 9 bytes of limits.
pub const QUERY_ROOM: usize = 25;

// How many bytes a query has.
pub fn query_length(block: &[u8]) -> usize
    requires { Headed block.now }
    ensures { (result ≡ query_length block.now) × (result ≤ 25) }
{
    layout::positions(block) + 9
}

// The limits that stand behind the start: one byte for the steps, four for the cost, four for the visits.
pub fn limits_of(block: &[u8], query: &[u8]) -> Limits
    requires { Headed block.now × (length query.now ≡ query_length block.now) }
    ensures { result ≡ limits_of block.now query.now }
{
    let n = layout::positions(block);
    Limits {
        steps: usize::from(query[n]),
        cost: number_at(query, n + 1),
        visits: number_at(query, n + 5),
    }
}
