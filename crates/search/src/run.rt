// The running state of a search, which is lent: the states of the path, their ranks and the costs up to them; the rules
// of the list; the limits of the round; what the round carries; and how many rules a plan has that was found. One lent
// state is one argument, and what is read of it again and again stays in the cache.
ghost use Rattle.std.specs.Prelude.{◌<◌};
ghost use Rattle.search.specs.Run.{Put};

use tallies::Tally;

// The running state. Of the path the states stand here with their ranks under all maps and the costs up to them, from
// the start on; the list has a rule less.
#[derive(Clone, Copy, PartialEq, Eq, PartialOrd, Ord, Hash, Debug, Default)]
pub struct Run {
    pub states: [u64; 65],
    pub ranks: [u64; 65],
    pub costs: [u64; 65],
    pub rules: [u8; 64],
    pub threshold: u64,
    pub allowance: u32,
    pub steps: usize,
    pub tally: Tally,
    pub plan_steps: usize,
}

impl Run {
    // Puts the list with one rule more behind the list at depth: its rule, its last state with the ranks of that, and
    // its cost.
    pub fn put(&mut self, depth: usize, rule: usize, word: u64, ranks: u64, cost: u64)
        requires { (depth < 64) × (rule < 64) }
        ensures { Put depth rule word ranks cost self.old self.new }
    {
        self.rules[depth] = rule as u8;
        self.states[depth + 1] = word;
        self.ranks[depth + 1] = ranks;
        self.costs[depth + 1] = cost;
    }
}
