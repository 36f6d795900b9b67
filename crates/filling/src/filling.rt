// The fill: the table is cleared, lowered in about the right order, and swept until nothing falls.
ghost use Rattle.std.specs.Prelude.{◌≡◌, true, cond, ◌≤◌, length};
ghost use Rattle.basics.specs.Lists.{at_front};
ghost use Rattle.basics.specs.Marks.{mark};
ghost use Rattle.blocks.specs.Layout.{goals, abstract_states};
ghost use Rattle.blocks.specs.Validity.{Headed, Valid};
ghost use Rattle.words.specs.Sides.{meets_word};
ghost use Rattle.distances.specs.LeastCosts.{least_costs};
ghost use Rattle.distances.specs.Filling.{Good};
ghost use Rattle.tables.specs.Abstraction.{graph_of, Relabelled};
ghost use Rattle.filling.specs.FilledTables.{filled, Lowered};
ghost use Rattle.filling.specs.RankWords.{Ranked};

use super::queue::END;
use super::rank_words::{RankWords, RankedBlock, next_word};
use blocks::layout;
use blocks::validity::MOST_STATES;
use compiling::{compile, place_weights};
use edge_ranks::{Lists, ROOM};
use psvn::relabelling::relabel_block;
use tables::edges::{Compiled, MARK};
use words::code::{CODE, Code};
use words::ranking::{WEIGHTS, word_of};
use words::sides::meets_word;

// The entry of a state before any rule is used: 0 at a goal, the mark elsewhere.
fn cleared_entry(block: &[u8], code: &Code, word: u64) -> u32
    requires { Headed block.now }
    ensures { result ≡ cond (meets_word code.now (goals block.now) word) 0 mark }
{
    if meets_word(code, layout::goals(block), word) {
        0
    } else {
        MARK
    }
}

// Writes the word of each rank, and the entries before any rule is used.
fn clear(compiled: &Compiled, words: &mut RankWords, table: &mut [u32])
    requires { length table.old ≡ abstract_states compiled.now.block.now }
    ensures { Ranked compiled.now.block.now words.new ×
        Good (graph_of compiled.now.block.now) table.new }
{
    let mut word = word_of(compiled.block, 0);
    for u in 0..table.len() {
        words[u] = word;
        table[u] = cleared_entry(compiled.block, compiled.code, word);
        word = next_word(compiled.block, word, u);
    }
}

// Compiles a relabelled block and lowers entries backwards from the goals; then, where it is wanted, sweeps until
// nothing falls, which leaves the least costs. A flag is plainer than a closure: that would be lent the
// block, the table and the lists, which are made here.
fn fill_relabelled(block: &[u8], sweeps: bool, table: &mut [u32])
    requires { Relabelled block.now × (length table.old ≡ abstract_states block.now) }
    ensures { Good (graph_of block.now) table.new ×
        (sweeps ≡ true → table.new ≡ least_costs (graph_of block.now)) }
{
    let mut code = [0u64; CODE];
    let mut weights = [0u16; WEIGHTS];
    let mut words = [0u64; MOST_STATES];
    let mut lists = Lists {
        sources: [END; ROOM],
        targets: [END; ROOM],
    };
    compile(block, &mut code);
    place_weights(block, &mut weights);
    let compiled = Compiled {
        block,
        code: &code,
        weights: &weights,
    };
    clear(&compiled, &mut words, table);
    let ranked = RankedBlock {
        compiled,
        words: &words,
    };
    ranked.spread(table, &mut lists);
    if sweeps {
        ranked.settle(table, &mut lists);
    }
}

// Relabels a block, and fills the front of its table, with or without sweeps.
fn fill_front(block: &[u8], sweeps: bool, table: &mut [u32])
    requires { Valid block.now × (abstract_states block.now ≤ length table.old) }
    ensures { Lowered block.now table.old table.new × (sweeps ≡ true →
        table.new ≡ at_front (filled block.now) table.old) }
{
    let length = layout::relabelled_length(block);
    let states = layout::abstract_states(block);
    let mut relabelled = [0u8; layout::BLOCK_ROOM];
    relabel_block(block, &mut relabelled);
    fill_relabelled(&relabelled[..length], sweeps, &mut table[..states]);
}

// Fills the table of a block.
pub fn fill(block: &[u8], table: &mut [u32])
    requires { Valid block.now × (abstract_states block.now ≤ length table.old) }
    ensures { table.new ≡ at_front (filled block.now) table.old }
{
    fill_front(block, true, table);
}

// The fast pass of the fill by itself, for whoever asks whether it leaves nothing to the sweeps: a table that then
// passes the lower-bound test is the filled one.
pub fn fast_pass(block: &[u8], table: &mut [u32])
    requires { Valid block.now × (abstract_states block.now ≤ length table.old) }
    ensures { Lowered block.now table.old table.new }
{
    fill_front(block, false, table);
}
