// A compiled block, and costs by one rule, as a table has them. Costs are 64 bits wide here, so that none wraps and one
// number stands above them all.
ghost use Rattle.std.specs.Prelude.{◌≡◌, ◌≤◌, ◌<◌, length};
ghost use Rattle.blocks.specs.Layout.{rules, abstract_states};
ghost use Rattle.words.specs.Ranking.{word_of};
ghost use Rattle.distances.specs.Filling.{via, Best};
ghost use Rattle.tables.specs.Abstraction.{graph_of, Ready};

use blocks::layout;
use words::code::Code;
use words::ranking::{Weights, rank_word};
use words::sides::{applies_word, cost_word, step_word};

// The mark 'no path': a number, since C lends tables with it.
pub const MARK: u32 = u32::MAX;

// What stands for no cost: a number above every entry plus a cost. It is no Option, since there None comes before all
// costs, and the least cost would be none.
pub const NO_COST: u64 = 8589934592;

// A relabelled block, and what was compiled from it.
#[derive(Clone, Copy)]
pub struct Compiled<'a> {
    pub block: &'a [u8],
    pub code: &'a Code,
    pub weights: &'a Weights,
    ghost ready: { Ready block.now code.now weights.now },
}

impl<'a> Compiled<'a> {
    // The cost by rule r from the state of rank u, whose word is given; NO_COST where the rule does not apply or leads
    // to a marked state.
    fn via(&self, table: &[u32], u: usize, word: u64, r: usize) -> u64
        requires table_long { abstract_states self.now.block.now ≤ length table.now }
        requires u_bound { (u < abstract_states self.now.block.now) × (word ≡ word_of self.now.block.now u) ×
            (r < rules self.now.block.now) }
        ensures { result ≡ via (graph_of self.now.block.now) table.now u r }
    {
        if !applies_word(self.code, r, word) {
            return NO_COST;
        }
        let weights = self.weights;
        let v = rank_word(
            weights,
            layout::positions(self.block),
            step_word(self.code, r, word),
        );
        let entry = table[v];
        if entry < MARK {
            return u64::from(entry) + cost_word(self.code, r);
        }
        NO_COST
    }

    // The least cost by one rule from the state of rank u, whose word is given.
    pub fn best(&self, table: &[u32], u: usize, word: u64) -> u64
        requires table_long { abstract_states self.now.block.now ≤ length table.now }
        requires u_bound { (u < abstract_states self.now.block.now) × (word ≡ word_of self.now.block.now u) }
        ensures { Best (graph_of self.now.block.now) table.now u result }
    {
        let mut least = NO_COST;
        for r in 0..layout::rules(self.block) {
            least = least.min(self.via(table, u, word, r));
        }
        least
    }
}
