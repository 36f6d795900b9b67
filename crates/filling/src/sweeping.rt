// Sweeps over all states: each lowers every entry to the least cost by one rule. Where none falls, the table passes
// the lower-bound test.
ghost use Rattle.distances.specs.Graphs.{LeastTable};
ghost use Rattle.distances.specs.Filling.{Good, Swept};
ghost use Rattle.tables.specs.Abstraction.{graph_of};

use super::rank_words::RankedBlock;
use edge_ranks::Lists;

impl<'a> RankedBlock<'a> {
    // Lowers each entry to the least cost by one rule, where that is less; and whether an entry fell.
    fn sweep(&self, table: &mut [u32]) -> bool
        requires { Good (graph_of self.now.compiled.block.now) table.old }
        ensures { Swept (graph_of self.now.compiled.block.now) table.old table.new result }
    {
        let mut fell = false;
        for u in 0..table.len() {
            let least = self.compiled.best(table, u, self.words[u]);
            if least < u64::from(table[u]) {
                table[u] = least as u32;
                fell = true;
            }
        }
        fell
    }

    // Where the table does not pass yet, sweeps until nothing falls.
    pub fn settle(&self, table: &mut [u32], lists: &mut Lists)
        requires { Good (graph_of self.now.compiled.block.now) table.old }
        ensures { Good (graph_of self.now.compiled.block.now) table.new ×
            LeastTable (graph_of self.now.compiled.block.now) table.new }
    {
        // A copy is lent to the test: with the block itself lent, the fast pass takes up to 2 % more instructions.
        let compiled = self.compiled;
        if compiled.passes_by_sides(table, lists) {
            return;
        }
        // No count: how many sweeps it takes is known once one lowers nothing.
        loop {
            if !self.sweep(table) {
                return;
            }
        }
    }
}
