// Matching in two parts: first all constants of a side, and its variables only where no constant differs.
ghost use Rattle.std.specs.Prelude.{◌≡◌, true, ◌+◌, ◌≤◌, ◌<◌, length};
ghost use Rattle.blocks.specs.Terms.{term_of};
ghost use Rattle.blocks.specs.Layout.{side_at};
ghost use Rattle.psvn.specs.Rules.{bound, matches};
ghost use Rattle.psvn.specs.TwoParts.{constant_allows, constant_agrees, constants_agree, constant_mismatch};
ghost use Rattle.psvn.specs.TwoParts.{MismatchMeans, variable_agrees};

use basics::first_of;
use blocks::labels::ConcreteLabel;
use blocks::terms::{Term, decode};

// Whether a label may stand where the term of a byte does, as far as constants go.
fn constant_allows(byte: u8, label: u8) -> bool
    ensures { result ≡ constant_allows (term_of byte) label }
{
    match decode(byte) {
        Term::Label(constant) => label == constant.0,
        Term::Variable(_) | Term::Dash | Term::Refused => true,
    }
}

// The first part: the lowest position where the side at `at` has another constant than a state has a label, if there is
// one.
pub fn constant_mismatch(block: &[u8], at: usize, state: &[u8]) -> Option<usize>
    requires { at + length state.now ≤ length block.now }
    ensures result_value { result ≡
        constant_mismatch (length state.now) (side_at block.now at) state.now }
    ensures mismatch_means { MismatchMeans (length state.now)
        (constant_agrees (side_at block.now at) state.now) result }
{
    (0..state.len()).find(|i| !constant_allows(block[at + *i], state[*i]))
}

// The label that the side at `at` binds a variable to: that of the first position where it stands; 0 if it stands
// nowhere.
pub fn label_bound(block: &[u8], at: usize, state: &[u8], v: u8) -> ConcreteLabel
    requires { at + length state.now ≤ length block.now }
    ensures { result.0 ≡ bound (length state.now) (side_at block.now at) state.now
        v }
{
    match first_of(block, at, state.len(), v) {
        Some(j) => ConcreteLabel(state[j]),
        None => ConcreteLabel(0),
    }
}

// Whether a state has at position i the label that a variable of the side at `at` is bound to, where one stands there.
fn variable_agrees(block: &[u8], at: usize, state: &[u8], i: usize) -> bool
    requires { (at + length state.now ≤ length block.now) × (i < length state.now) }
    ensures { result ≡ variable_agrees (length state.now) (side_at block.now at)
        state.now i }
{
    match decode(block[at + i]) {
        Term::Variable(v) => state[i] == label_bound(block, at, state, v).0,
        Term::Label(_) | Term::Dash | Term::Refused => true,
    }
}

// The second part: whether a state that has the constants of the side at `at` matches it, by its variables alone.
fn variables_match(block: &[u8], at: usize, state: &[u8]) -> bool
    requires { (at + length state.now ≤ length block.now) ×
        (constants_agree (length state.now) (side_at block.now at) state.now ≡ true) }
    ensures { result ≡ matches (length state.now) (side_at block.now at) state.now }
{
    (0..state.len()).all(|i| variable_agrees(block, at, state, i))
}

// Whether a state matches the side at `at`: the first part, and only where it finds nothing the second.
pub fn side_matches(block: &[u8], at: usize, state: &[u8]) -> bool
    requires { at + length state.now ≤ length block.now }
    ensures { result ≡ matches (length state.now) (side_at block.now at) state.now }
{
    match constant_mismatch(block, at, state) {
        None => variables_match(block, at, state),
        Some(_) => false,
    }
}
