// What searches on an exercise go by, made ready once for all of them.
ghost use Rattle.std.specs.Prelude.{◌≡◌, ℕ, ◌≤◌, ◌<◌, length, get_or};
ghost use Rattle.words.specs.Code.{code_length};
ghost use Rattle.words.specs.Changes.{changes_length};
ghost use Rattle.maps.specs.Maps.{all_entries, Mapped};
ghost use Rattle.search.specs.OnWords.{Ready};

use blocks::validity::Entries;
use maps::all_entries;
use preparing::prepare;
use words::changes::Changes;
use words::code::Code;

// Copies the first entries of a table. As for basics::copy, that is a loop and no call of memmove.
fn read_entries(table: &[u32], count: usize, entries: &mut Entries)
    requires { (count ≤ length table.now) × (count ≤ 16384) }
    ensures { (k : ℕ) → k < count → get_or entries.new k 0 ≡ get_or table.now k 0 }
{
    for k in 0..count {
        entries[k] = table[k];
    }
}

// Makes ready the arrays of an accepted block with accepted maps: it is compiled, and the entries of all tables are
// copied into an array of fixed length.
pub fn make_ready(
    block: &[u8],
    maps: &[u8],
    table: &[u32],
    code: &mut Code,
    changes: &mut Changes,
    entries: &mut Entries,
)
    requires { Mapped block.now maps.now × (all_entries block.now maps.now ≤ length table.now) }
    ensures { Ready block.now maps.now table.now code.new
        changes.new entries.new }
{
    prepare(block, maps, code, changes);
    read_entries(table, all_entries(block, maps), entries);
}
