// The lower-bound test side by side: all edges of a rule at once, and all states of a goal, by their ranks. What
// passes here passes the test; what does not is left to the test state by state.
ghost use Rattle.std.specs.Prelude.{◌≡◌, true, ℕ, ◌+◌, ◌≤◌, ◌<◌, length};
ghost use Rattle.basics.specs.Marks.{mark};
ghost use Rattle.blocks.specs.Layout.{rules, goals, abstract_states};
ghost use Rattle.edge_ranks.specs.Lists.{rank_at};
ghost use Rattle.distances.specs.LowerBounds as test;
ghost use Rattle.tables.specs.Abstraction.{graph_of, Ready};
ghost use Rattle.tables.specs.BySides.{InTable, EdgesPass, Zeros, RulePasses, GoalPasses};

use super::edges::{Compiled, MARK};
use blocks::layout;
use blocks::validity::MOST_STATES;
use edge_ranks::{Lists, find_edges};
use words::code::{Code, FIRST_GOAL};
use words::ranking::Weights;
use words::sides::cost_word;

// Whether an entry passes before another by a rule of this cost.
fn entry_passes(before: u32, after: u32, cost: u64) -> bool
    requires { cost ≤ 255 }
    ensures { result ≡ true → (after ≡ mark → ⊥) →
        (before ≡ mark → ⊥) × (before ≤ cost + after) }
{
    after == MARK || (before != MARK && u64::from(before) <= u64::from(after) + cost)
}

// A bound for ranks that have an entry: no rank is above 16,384.
fn rank_bound(entries: usize) -> u16
    ensures { result ≤ entries }
{
    entries.min(MOST_STATES) as u16
}

// Whether ranks are all below a bound. It goes through all of them, so that the compiled code can compare several at a
// time.
fn in_range(ranks: &[u16], bound: u16) -> bool
    ensures { result ≡ true → InTable bound (rank_at ranks.now) (length ranks.now) }
{
    let mut below = true;
    for rank in ranks {
        below &= *rank < bound;
    }
    below
}

// Whether all edges pass, from the states of the first ranks to those of the second, which all have entries.
fn entries_pass(table: &[u32], sources: &[u16], targets: &[u16], cost: u64) -> bool
    requires cost_bound { cost ≤ 255 }
    requires paired { length sources.now ≡ length targets.now }
    requires in_table { InTable (length table.now) (rank_at sources.now) (length sources.now) ×
        InTable (length table.now) (rank_at targets.now) (length targets.now) }
    ensures { result ≡ true → EdgesPass table.now (rank_at sources.now)
        (rank_at targets.now) (length sources.now) cost }
{
    for j in 0..sources.len() {
        let before = table[usize::from(sources[j])];
        let after = table[usize::from(targets[j])];
        if !entry_passes(before, after, cost) {
            return false;
        }
    }
    true
}

// The same where the ranks may be any.
fn edges_pass(table: &[u32], sources: &[u16], targets: &[u16], cost: u64) -> bool
    requires { (cost ≤ 255) × (length sources.now ≡ length targets.now) }
    ensures { result ≡ true → EdgesPass table.now (rank_at sources.now)
        (rank_at targets.now) (length sources.now) cost }
{
    let bound = rank_bound(table.len());
    in_range(sources, bound)
        && in_range(targets, bound)
        && entries_pass(table, sources, targets, cost)
}

// Whether there are entries at all these ranks, and each is 0.
fn zeros(table: &[u32], ranks: &[u16]) -> bool
    ensures { result ≡ true → Zeros table.now (rank_at ranks.now) (length ranks.now) }
{
    for rank in ranks {
        let u = usize::from(*rank);
        if table.len() <= u || table[u] > 0 {
            return false;
        }
    }
    true
}

impl<'a> Compiled<'a> {
    // Whether the table passes by rule r at every state. It may say no where it does.
    fn rule_passes(&self, table: &[u32], lists: &mut Lists, r: usize) -> bool
        requires { (abstract_states self.now.block.now ≤ length table.now) × (r < rules self.now.block.now) }
        ensures { result ≡ true → RulePasses (graph_of self.now.block.now) table.now r }
    {
        let labels = layout::labels(self.block);
        match find_edges(self.code, self.weights, 2 * r, 2 * r + 1, labels, lists) {
            Some(count) => {
                let cost = cost_word(self.code, r);
                edges_pass(
                    table,
                    &lists.sources[..count],
                    &lists.targets[..count],
                    cost,
                )
            }
            None => false,
        }
    }

    // Whether the entries are 0 at every state that meets goal g. It may say no where they are.
    fn goal_passes(&self, table: &[u32], lists: &mut Lists, g: usize) -> bool
        requires { (abstract_states self.now.block.now ≤ length table.now) × (g < goals self.now.block.now) }
        ensures { result ≡ true → GoalPasses self.now.block.now table.now g }
    {
        let labels = layout::labels(self.block);
        let x = FIRST_GOAL + g;
        match find_edges(self.code, self.weights, x, x, labels, lists) {
            Some(count) => zeros(table, &lists.sources[..count]),
            None => false,
        }
    }

    // Whether the table passes by every rule. It may say no where it does.
    fn rules_pass(&self, table: &[u32], lists: &mut Lists) -> bool
        requires { abstract_states self.now.block.now ≤ length table.now }
        ensures { result ≡ true →
            (r : ℕ) → r < rules self.now.block.now → RulePasses (graph_of self.now.block.now) table.now r }
    {
        for r in 0..layout::rules(self.block) {
            if !self.rule_passes(table, lists, r) {
                return false;
            }
        }
        true
    }

    // Whether the table passes at every goal. It may say no where it does.
    fn goals_pass(&self, table: &[u32], lists: &mut Lists) -> bool
        requires { abstract_states self.now.block.now ≤ length table.now }
        ensures { result ≡ true →
            (g : ℕ) → g < goals self.now.block.now → GoalPasses self.now.block.now table.now g }
    {
        for g in 0..layout::goals(self.block) {
            if !self.goal_passes(table, lists, g) {
                return false;
            }
        }
        true
    }

    // Whether the table passes by every rule and at every goal. It may say no where it does.
    pub fn passes_by_sides(&self, table: &[u32], lists: &mut Lists) -> bool
        requires { abstract_states self.now.block.now ≤ length table.now }
        ensures { result ≡ true → test.passes (graph_of self.now.block.now) table.now ≡ true }
    {
        self.goals_pass(table, lists) && self.rules_pass(table, lists)
    }
}

// The same of a relabelled block and what was compiled from it.
pub fn passes_by_sides(
    block: &[u8],
    code: &Code,
    weights: &Weights,
    table: &[u32],
    lists: &mut Lists,
) -> bool
    requires { Ready block.now code.now weights.now × (abstract_states block.now ≤ length table.now) }
    ensures { result ≡ true → test.passes (graph_of block.now) table.now ≡ true }
{
    let compiled = Compiled {
        block,
        code,
        weights,
    };
    compiled.passes_by_sides(table, lists)
}
