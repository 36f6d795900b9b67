// The lower-bound test.
ghost use Rattle.std.specs.Prelude.{◌≡◌, ◌≤◌, ◌<◌, length};
ghost use Rattle.blocks.specs.Layout.{abstract_states};
ghost use Rattle.blocks.specs.Validity.{Valid};
ghost use Rattle.words.specs.Ranking.{word_of};
ghost use Rattle.distances.specs.LowerBounds as test;
ghost use Rattle.tables.specs.Abstraction.{graph_of, Relabelled};
ghost use Rattle.tables.specs.Tables.{passes_test};

use super::edges::{Compiled, MARK, NO_COST};
use blocks::layout;
use compiling::{compile, place_weights};
use edge_ranks::{Lists, ROOM};
use psvn::relabelling::relabel_block;
use words::code::CODE;
use words::ranking::{WEIGHTS, word_of};
use words::sides::meets_word;

impl<'a> Compiled<'a> {
    // Whether the table passes at the state of rank u, whose word is given.
    fn passes_at(&self, table: &[u32], u: usize, word: u64) -> bool
        requires table_long { abstract_states self.now.block.now ≤ length table.now }
        requires u_bound { (u < abstract_states self.now.block.now) × (word ≡ word_of self.now.block.now u) }
        ensures { result ≡ test.passes_at (graph_of self.now.block.now) table.now u }
    {
        let entry = table[u];
        if 0 < entry {
            if meets_word(self.code, layout::goals(self.block), word) {
                return false;
            }
        }
        let least = self.best(table, u, word);
        if NO_COST <= least {
            return true;
        }
        if entry < MARK {
            return u64::from(entry) <= least;
        }
        false
    }

    // Whether the table passes at every abstract state.
    fn passes_everywhere(&self, table: &[u32]) -> bool
        requires { abstract_states self.now.block.now ≤ length table.now }
        ensures { result ≡ test.passes (graph_of self.now.block.now) table.now }
    {
        for u in 0..layout::abstract_states(self.block) {
            if !self.passes_at(table, u, word_of(self.block, u)) {
                return false;
            }
        }
        true
    }
}

// Compiles a relabelled block and tests the table.
fn passes_relabelled(block: &[u8], table: &[u32]) -> bool
    requires { Relabelled block.now × (abstract_states block.now ≤ length table.now) }
    ensures { result ≡ test.passes (graph_of block.now) table.now }
{
    let mut code = [0u64; CODE];
    let mut weights = [0u16; WEIGHTS];
    let mut lists = Lists {
        sources: [0; ROOM],
        targets: [0; ROOM],
    };
    compile(block, &mut code);
    place_weights(block, &mut weights);
    let compiled = Compiled {
        block,
        code: &code,
        weights: &weights,
    };
    compiled.passes_by_sides(table, &mut lists) || compiled.passes_everywhere(table)
}

// Whether a table passes the lower-bound test.
pub fn passes(block: &[u8], table: &[u32]) -> bool
    requires { Valid block.now × (abstract_states block.now ≤ length table.now) }
    ensures { result ≡ passes_test block.now table.now }
{
    let length = layout::relabelled_length(block);
    let mut relabelled = [0u8; layout::BLOCK_ROOM];
    relabel_block(block, &mut relabelled);
    passes_relabelled(&relabelled[..length], table)
}
