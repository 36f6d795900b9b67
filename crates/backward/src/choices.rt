// What a state that a rule takes to a given one may hold at a position: the only label that may stand there, or none
// where any may.
ghost use Rattle.std.specs.Prelude.{◌≡◌, ◌<◌, length};
ghost use Rattle.blocks.specs.Layout.{positions, rules, left_of, right_of};
ghost use Rattle.blocks.specs.Sides.{left_terms, right_terms};
ghost use Rattle.blocks.specs.Validity.{Sized};
ghost use Rattle.backward.specs.Choices.{variable_choice, choices_of, least_of, raised_of, rises_of, keeps_of};

use super::showing::first_shown;
use basics::first_of;
use blocks::labels::ConcreteLabel;
use blocks::sides::Sides;
use blocks::terms::{Term, decode, is_dash};

// A rule stepped back: its sides, and the state that it takes others to.
#[derive(Clone, Copy)]
pub struct Reversal<'a> {
    pub sides: Sides<'a>,
    pub state: &'a [u8],
    ghost whole: { length state.now ≡ sides.n },
}

impl<'a> Reversal<'a> {
    // Rule r, stepped back from `state`.
    pub fn of(block: &'a [u8], r: usize, state: &'a [u8]) -> Self
        requires { Sized block.now × (r < rules block.now) × (length state.now ≡ positions block.now) }
        ensures { (result.sides.n ≡ positions block.now) × (left_terms result.sides ≡ left_of block.now r) ×
            (right_terms result.sides ≡ right_of block.now r) × (result.state.now ≡ state.now) }
    {
        let sides = Sides::of(block, r);
        Reversal { sides, state }
    }

    // What position i may hold, where the variable v stands on the left.
    fn variable_choice(&self, begun: &[u8], i: usize, v: u8) -> Option<ConcreteLabel>
        requires { (length begun.now ≡ self.now.sides.n) × (i < self.now.sides.n) }
        ensures { result ≡ variable_choice (length self.now.state.now)
            (left_terms self.now.sides) (right_terms self.now.sides) self.now.state.now begun.now i v }
    {
        let sides = &self.sides;
        if let Some(shown) = first_shown(sides, v) {
            return Some(ConcreteLabel(self.state[shown]));
        }
        match first_of(sides.bytes, sides.left, sides.n, v) {
            Some(first) if first < i => Some(ConcreteLabel(begun[first])),
            _ => None,
        }
    }

    // What position i may hold in a state that begins as `begun` does and that the rule takes to `state`.
    pub fn choice_at(&self, begun: &[u8], i: usize) -> Option<ConcreteLabel>
        requires { (length begun.now ≡ self.now.sides.n) × (i < self.now.sides.n) }
        ensures { result ≡ choices_of (left_terms self.now.sides) (right_terms self.now.sides)
            self.now.state.now begun.now i }
    {
        let sides = &self.sides;
        if is_dash(sides.bytes[sides.right + i]) {
            return Some(ConcreteLabel(self.state[i]));
        }
        match decode(sides.bytes[sides.left + i]) {
            Term::Label(label) => Some(label),
            Term::Variable(v) => self.variable_choice(begun, i, v),
            Term::Dash | Term::Refused => None,
        }
    }
}

// The least label that may stand there.
pub fn least(choice: Option<ConcreteLabel>) -> u8
    ensures { result ≡ least_of choice }
{
    choice.map_or(0, |label| label.0)
}

// The least label above x that may stand there.
pub fn raised(choice: Option<ConcreteLabel>, x: u8) -> u8
    requires { x < 255 }
    ensures { result ≡ raised_of choice x }
{
    choice.map_or(x + 1, |label| label.0)
}

// Whether a label above x, below the count, may stand there.
pub fn rises(count: usize, choice: Option<ConcreteLabel>, x: u8) -> bool
    ensures { result ≡ rises_of count choice x }
{
    choice.map_or(usize::from(x) + 1 < count, |label| x < label.0)
}

// Whether the label x may stand there.
pub fn keeps(choice: Option<ConcreteLabel>, x: u8) -> bool
    ensures { result ≡ keeps_of choice x }
{
    choice.is_none_or(|label| x == label.0)
}
