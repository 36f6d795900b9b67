// The fast pass of the fill: entries are lowered backwards from the goals, the least first. Each write is one that a
// rule justifies, tested by the rule itself, so that the table stays good whatever the queue and the candidates are;
// sweeps afterwards show that nothing was missed.
ghost use Rattle.std.specs.Prelude.{◌≡◌, true, ◌+◌, ◌≤◌, ◌<◌, get_or};
ghost use Rattle.blocks.specs.Layout.{positions, rules, cost_of, abstract_states};
ghost use Rattle.distances.specs.Filling.{Good, Lowering};
ghost use Rattle.words.specs.Sides.{left_place, constants_word};
ghost use Rattle.rule_sets.specs.Agreeing.{Indexed};
ghost use Rattle.candidates.specs.Reversed.{Fronted};
ghost use Rattle.tables.specs.Abstraction.{graph_of};

use super::queue::{END, LISTS, Queue};
use super::rank_words::RankedBlock;
use basics::sets::{lowest_of, without_lowest};
use blocks::layout;
use candidates::{next_candidate, reverse_rules};
use edge_ranks::Lists;
use rule_sets::{agreeing_with, place_sets};
use tables::edges::MARK;
use words::code::{CODE, Code};
use words::matching::variables_match_word;
use words::ranking::rank_word;
use words::sides::{applies_word, cost_word, step_word};

// The most states taken out of the queue. Where the order is right each is taken out once, and there are at most
// 16,384.
const MOST_TURNS: usize = 65_536;

// A rule, and the rank of the state that it leads to.
#[derive(Clone, Copy)]
struct Edge {
    rule: usize,
    to: usize,
}

// The edge's rule, of this cost, takes u to its end, and u's entry is above the cost by the rule: it falls to that, and
// u is queued anew.
fn lower(block: &[u8], table: &mut [u32], queue: &mut Queue, u: usize, edge: Edge, cost: u32)
    requires lowering { Lowering (graph_of block.now) table.old u edge.rule edge.to ×
        (cost ≡ cost_of block.now edge.rule) × (cost ≤ 255) }
    requires cost_bound { get_or table.old edge.to 0 + cost < get_or table.old u 0 }
    ensures { Good (graph_of block.now) table.new }
{
    let v = edge.to;
    let old = table[u];
    let new = table[v] + cost;
    if old < MARK {
        queue.take_out(old, u);
    }
    table[u] = new;
    queue.put_in(new, u);
}

// What the fast pass goes by: a compiled block with the word of each rank, and its rules compiled backwards, with their
// sets.
#[derive(Drop)]
struct Backwards<'a> {
    ranked: RankedBlock<'a>,
    back: &'a Code,
    ghost indexed: { Indexed back.now (rules ranked.compiled.block.now) (positions ranked.compiled.block.now) },
    ghost fronted: { Fronted back.now (rules ranked.compiled.block.now) (positions ranked.compiled.block.now) },
}

impl<'a> Backwards<'a> {
    // Lowers the candidate's entry, where it is above the cost by the edge's rule and the rule takes the candidate to
    // the edge's end; and whether further candidates are worth a try. The entry is looked at first: few fall.
    fn try_candidate(
        &self,
        table: &mut [u32],
        queue: &mut Queue,
        edge: Edge,
        candidate: u64,
    ) -> bool
        requires good { Good (graph_of self.now.ranked.compiled.block.now) table.old }
        requires in_block { (edge.rule < rules self.now.ranked.compiled.block.now) ×
            (edge.to < abstract_states self.now.ranked.compiled.block.now) }
        ensures { Good (graph_of self.now.ranked.compiled.block.now) table.new }
    {
        let Edge { rule: r, to: v } = edge;
        let code = self.ranked.compiled.code;
        let weights = self.ranked.compiled.weights;
        let u = rank_word(
            weights,
            layout::positions(self.ranked.compiled.block),
            candidate,
        );
        if table.len() <= u {
            return false;
        }
        let cost = cost_word(code, r);
        if u64::from(table[u]) <= u64::from(table[v]) + cost {
            return true;
        }
        if !applies_word(code, r, candidate) {
            return false;
        }
        if step_word(code, r, candidate) != self.ranked.words[v] {
            return false;
        }
        if self.ranked.words[u] != candidate {
            return false;
        }
        lower(
            self.ranked.compiled.block,
            table,
            queue,
            u,
            edge,
            cost as u32,
        );
        true
    }

    // The edge backwards, by its rule compiled backwards, whose constants agree: each candidate for the word of the state
    // before it in turn.
    fn pull(&self, table: &mut [u32], queue: &mut Queue, edge: Edge)
        requires good { Good (graph_of self.now.ranked.compiled.block.now) table.old }
        requires in_block { (edge.rule < rules self.now.ranked.compiled.block.now) ×
            (edge.to < abstract_states self.now.ranked.compiled.block.now) }
        requires agrees { constants_word self.now.back.now (left_place edge.rule)
            (get_or self.now.ranked.words.now edge.to 0) ≡ true }
        ensures { Good (graph_of self.now.ranked.compiled.block.now) table.new }
    {
        let after = self.ranked.words[edge.to];
        if !variables_match_word(self.back, 2 * edge.rule, after) {
            return;
        }
        let start = step_word(self.back, edge.rule, after);
        let labels = layout::abstracts(self.ranked.compiled.block) as u64;
        let mut candidate = start;
        for _ in 0..table.len() {
            if !self.try_candidate(table, queue, edge, candidate) {
                return;
            }
            candidate = next_candidate(self.back, labels, edge.rule, candidate);
            if candidate == start {
                return;
            }
        }
    }

    // All rules whose reversed left side's constants agree with v, backwards from v.
    fn expand(&self, table: &mut [u32], queue: &mut Queue, v: usize)
        requires good { Good (graph_of self.now.ranked.compiled.block.now) table.old }
        requires v_bound { v < abstract_states self.now.ranked.compiled.block.now }
        ensures { Good (graph_of self.now.ranked.compiled.block.now) table.new }
    {
        let mut rest = agreeing_with(
            self.back,
            layout::positions(self.ranked.compiled.block),
            self.ranked.words[v],
        );
        // No count: rules are taken from a set.
        while rest > 0 {
            let rule = lowest_of(rest);
            self.pull(table, queue, Edge { rule, to: v });
            rest = without_lowest(rest);
        }
    }

    // Takes states out of the queue, the least entry first, and expands each.
    fn run_queue(&self, table: &mut [u32], queue: &mut Queue)
        requires { Good (graph_of self.now.ranked.compiled.block.now) table.old }
        ensures { Good (graph_of self.now.ranked.compiled.block.now) table.new }
    {
        // Turns are counted down: it takes up to 0.4 % fewer instructions.
        for _ in (0..MOST_TURNS).rev() {
            match queue.take_least() {
                Some(v) if v < table.len() => self.expand(table, queue, v),
                _ => return,
            }
        }
    }
}

impl<'a> RankedBlock<'a> {
    // Lowers entries backwards from the goals.
    pub fn spread(&self, table: &mut [u32], lists: &mut Lists)
        requires { Good (graph_of self.now.compiled.block.now) table.old }
        ensures { Good (graph_of self.now.compiled.block.now) table.new }
    {
        let block = self.compiled.block;
        let mut back = [0u64; CODE];
        let mut first = [END; LISTS];
        let mut queue = Queue::new(lists, &mut first);
        reverse_rules(block, &mut back);
        place_sets(&mut back, layout::rules(block), layout::positions(block));
        queue.put_goals(table);
        let pass = Backwards {
            ranked: *self,
            back: &back,
        };
        pass.run_queue(table, &mut queue);
    }
}
