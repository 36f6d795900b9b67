// What a round carries: the visits used and the least overshoot so far (document 01).
#![tactic(auto)]

ghost use Rattle.std.specs.Prelude.{◌≡◌, ◌<◌};
ghost use Rattle.basics.specs.Marks.{largest32};
ghost use Rattle.tallies.specs.Tallies.{overshot_by, with_visit};

// The visits used, and the least overshoot so far.
#[derive(Clone, Copy, PartialEq, Eq, PartialOrd, Ord, Hash, Debug, Default)]
pub struct Tally {
    pub visits: u32,
    pub least: u64,
}

impl Tally {
    // Notes an overshoot.
    pub fn overshoot(&mut self, figure: u64)
        ensures { self.new ≡ overshot_by self.old figure }
    {
        self.least = self.least.min(figure);
    }

    // Counts a visit.
    pub fn count_visit(&mut self)
        requires { self.old.visits < largest32 }
        ensures { self.new ≡ with_visit self.old }
    {
        self.visits += 1;
    }
}
