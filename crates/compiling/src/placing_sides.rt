// Compiles the sides of rules and goals to the places that functions on words read (see `words::sides`), with the
// rules' costs.
ghost use Rattle.std.specs.Prelude.{◌≡◌, ◌+◌, ◌*◌, ◌≤◌, ◌<◌, length};
ghost use Rattle.blocks.specs.Layout.{head_length, rules};
ghost use Rattle.blocks.specs.Sides.{left_terms, right_terms};
ghost use Rattle.blocks.specs.Validity.{Sized};
ghost use Rattle.words.specs.Code.{code_length};
ghost use Rattle.compiling.specs.PlacingSides.{Begun, WithConstant, WithSource, SidePlaced, SidesPlaced};
ghost use Rattle.compiling.specs.PlacingSides.{RulePlaced, RulesPlaced, GoalsPlaced, CountsPlaced};

use basics::first_of;
use blocks::labels::ConcreteLabel;
use blocks::layout;
use blocks::sides::Sides;
use blocks::terms::{Term, decode};
use words::code::{
    COSTS, Code, FIRST_GOAL, FROM, GOALS, KEEP, MOVES, POSITIONS, RULES, SIDE, TO, VALUE,
};

// A side on the way, its first positions compiled: the masks, the value, how many moves it has, and the positions
// that these read and write, as the digits of two words.
#[derive(Clone, Copy, Default)]
struct Side {
    mask: u64,
    value: u64,
    keep: u64,
    count: usize,
    from: u64,
    to: u64,
}

impl Side {
    // The side with a constant at position i.
    fn with_constant(self, i: usize, label: ConcreteLabel) -> Self
        requires { i < 16 }
        ensures { WithConstant i label self result }
    {
        Side {
            mask: self.mask | (15 << (4 * i)),
            value: self.value | (u64::from(label.0) << (4 * i)),
            ..self
        }
    }

    // The side with a term at position i that takes its label from position `from`: its own label is kept, another one
    // is a move.
    fn with_source(self, i: usize, from: usize) -> Self
        requires { (i < 16) × (from < 16) × (self.count ≤ i) }
        ensures { WithSource i from self result }
    {
        if from == i {
            Side {
                keep: self.keep | (15 << (4 * i)),
                ..self
            }
        } else {
            Side {
                count: self.count + 1,
                from: self.from | ((from as u64) << (4 * self.count)),
                to: self.to | ((i as u64) << (4 * self.count)),
                ..self
            }
        }
    }

    // The right one of two sides, its first i positions made, with its term at position i. A variable that stands
    // nowhere on the left gives 0.
    fn with_term(self, sides: &Sides, i: usize) -> Self
        requires i_in_bounds { i < sides.now.n }
        requires begun { Begun sides.now.n (left_terms sides.now) (right_terms sides.now) self i }
        ensures { Begun sides.now.n (left_terms sides.now) (right_terms sides.now)
            result (i + 1) }
    {
        match decode(sides.bytes[sides.right + i]) {
            Term::Label(label) => self.with_constant(i, label),
            Term::Variable(v) => match first_of(sides.bytes, sides.left, sides.n, v) {
                Some(from) => self.with_source(i, from),
                None => self,
            },
            Term::Dash | Term::Refused => self.with_source(i, i),
        }
    }
}

// The right one of two sides, under the left one.
fn make_side(sides: &Sides) -> Side
    ensures { Begun sides.now.n (left_terms sides.now) (right_terms sides.now) result sides.now.n }
{
    let mut made = Side::default();
    for i in 0..sides.n {
        made = made.with_term(sides, i);
    }
    made
}

// Compiles the right one of two sides, under the left one, to place x.
fn place_side(sides: &Sides, code: &mut Code, x: usize)
    requires { x < 136 }
    ensures { SidePlaced sides.now.n (left_terms sides.now) (right_terms sides.now) x
        code.old code.new }
{
    let made = make_side(sides);
    let at = SIDE * x;
    code[at] = made.mask;
    code[at + VALUE] = made.value;
    code[at + KEEP] = made.keep;
    code[at + MOVES] = made.count as u64;
    code[at + FROM] = made.from;
    code[at + TO] = made.to;
}

// Compiles the two sides of rule r.
pub fn place_sides(sides: &Sides, code: &mut Code, r: usize)
    requires { r < 64 }
    ensures { SidesPlaced sides.now.n (left_terms sides.now) (right_terms sides.now) r
        code.old code.new }
{
    place_side(&sides.left_twice(), code, 2 * r);
    place_side(sides, code, 2 * r + 1);
}

// Compiles rule r: its sides, and its cost.
fn place_rule(block: &[u8], r: usize, code: &mut Code)
    requires { Sized block.now × (r < rules block.now) }
    ensures { RulePlaced block.now r code.old code.new }
{
    place_sides(&Sides::of(block, r), code, r);
    code[COSTS + r] = u64::from(layout::cost(block, r));
}

// Compiles the rules.
pub fn place_rules(block: &[u8], code: &mut Code)
    requires { Sized block.now }
    ensures { RulesPlaced block.now code.old code.new }
{
    let count = layout::rules(block);
    for r in 0..count {
        place_rule(block, r, code);
    }
}

// Compiles the goals: each is a left side of its own.
pub fn place_goals(block: &[u8], code: &mut Code)
    requires { Sized block.now }
    ensures { GoalsPlaced block.now code.old code.new }
{
    let count = layout::goals(block);
    for g in 0..count {
        place_side(&Sides::goal(block, g), code, FIRST_GOAL + g);
    }
}

// Writes how many positions, rules and goals there are.
pub fn place_counts(block: &[u8], code: &mut Code)
    requires { head_length ≤ length block.now }
    ensures { CountsPlaced block.now code.old code.new }
{
    code[POSITIONS] = layout::positions(block) as u64;
    code[RULES] = layout::rules(block) as u64;
    code[GOALS] = layout::goals(block) as u64;
}
