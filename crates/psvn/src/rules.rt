// Applying, and the goal that a state meets.
ghost use Rattle.std.specs.Prelude.{◌≡◌, ◌+◌, ◌≤◌, ◌<◌, length};
ghost use Rattle.basics.specs.Lists.{at_front};
ghost use Rattle.blocks.specs.Terms.{term_of};
ghost use Rattle.blocks.specs.Layout.{positions, rules, goals, side_at};
ghost use Rattle.blocks.specs.Validity.{Sized};
ghost use Rattle.psvn.specs.Rules.{given, rewritten, applies, step, same, leads};
ghost use Rattle.psvn.specs.Rules.{goal_met, met_goal};

use super::matching::{label_bound, side_matches};
use blocks::exercise::Block;
use blocks::labels::ConcreteLabel;
use blocks::terms::{Term, decode};

// What stands for a goal in bytes and in answers for C where none is met: hexadecimal FF.
pub const NO_GOAL: u8 = 255;

// The label that a term's byte gives at position i of a state, under the side at `at`.
fn label_given(block: &[u8], at: usize, state: &[u8], i: usize, byte: u8) -> ConcreteLabel
    requires { (at + length state.now ≤ length block.now) × (i < length state.now) }
    ensures { result.0 ≡ given (length state.now) (side_at block.now at) state.now i
        (term_of byte) }
{
    match decode(byte) {
        Term::Label(label) => label,
        Term::Variable(v) => label_bound(block, at, state, v),
        Term::Dash | Term::Refused => ConcreteLabel(state[i]),
    }
}

// Writes the state that the right side at `right` makes of a state under the left side at `left`, at the front of
// `out`.
fn rewrite(block: &[u8], left: usize, right: usize, state: &[u8], out: &mut [u8])
    requires { (left + length state.now ≤ length block.now) × (right + length state.now ≤ length block.now) ×
        (length state.now ≤ length out.old) }
    ensures { out.new ≡
        at_front (rewritten (length state.now) (side_at block.now left)
        (side_at block.now right) state.now) out.old }
{
    for i in 0..state.len() {
        let byte = block[right + i];
        let given = label_given(block, left, state, i, byte);
        out[i] = given.0;
    }
}

// Whether the right side at `right` makes `new` of `old` under the left side at `left`.
fn makes(block: &[u8], left: usize, right: usize, old: &[u8], new: &[u8]) -> bool
    requires { (left + length old.now ≤ length block.now) × (right + length old.now ≤ length block.now) ×
        (length new.now ≡ length old.now) }
    ensures { result ≡ same (length old.now)
        (rewritten (length old.now) (side_at block.now left) (side_at block.now right)
        old.now) new.now }
{
    (0..old.len()).all(|i| label_given(block, left, old, i, block[right + i]).0 == new[i])
}

// Whether rule r applies to a state.
pub fn applies(block: &[u8], r: usize, state: &[u8]) -> bool
    requires { Sized block.now × (r < rules block.now) × (length state.now ≡ positions block.now) }
    ensures { result ≡ applies block.now r state.now }
{
    let block = Block::new(block);
    side_matches(block.bytes(), block.left_at(r), state)
}

// Writes the state that rule r makes of a state at the front of `out`.
pub fn step(block: &[u8], r: usize, state: &[u8], out: &mut [u8])
    requires { Sized block.now × (r < rules block.now) × (length state.now ≡ positions block.now) ×
        (positions block.now ≤ length out.old) }
    ensures { out.new ≡ at_front (step block.now r state.now) out.old }
{
    let block = Block::new(block);
    rewrite(
        block.bytes(),
        block.left_at(r),
        block.right_at(r),
        state,
        out,
    );
}

// Whether rule r takes the state `old` to `new`.
pub fn leads(block: &[u8], r: usize, old: &[u8], new: &[u8]) -> bool
    requires { Sized block.now × (r < rules block.now) × (length old.now ≡ positions block.now) ×
        (length new.now ≡ positions block.now) }
    ensures { result ≡ leads block.now r old.now new.now }
{
    let block = Block::new(block);
    let left = block.left_at(r);
    if side_matches(block.bytes(), left, old) {
        return makes(block.bytes(), left, block.right_at(r), old, new);
    }
    false
}

// Whether a state matches goal g.
fn goal_met(block: &Block<'_>, g: usize, state: &[u8]) -> bool
    requires { (g < goals block.now) × (length state.now ≡ positions block.now) }
    ensures { result ≡ goal_met block.now g state.now }
{
    side_matches(block.bytes(), block.goal_at(g), state)
}

// The goal that a state meets, the lowest number of a met one, if one is met.
pub fn met_goal(block: &[u8], state: &[u8]) -> Option<u8>
    requires { Sized block.now × (length state.now ≡ positions block.now) }
    ensures { result ≡ met_goal block.now state.now }
{
    let block = Block::new(block);
    let goals = block.goals();
    for g in 0..goals {
        if goal_met(&block, g, state) {
            return Some(g as u8);
        }
    }
    None
}
