// Terms: what the bytes of rules and goals stand for.
ghost use Rattle.std.specs.Prelude.{◌≡◌};
ghost use Rattle.blocks.specs.Terms.{term_of, term_ok, is_dash};

use super::labels::ConcreteLabel;

// What a byte of a rule or a goal stands for.
#[derive(Clone, Copy, PartialEq, Eq)]
pub enum Term {
    Label(ConcreteLabel),
    Variable(u8),
    Dash,
    Refused,
}

// The term that a byte stands for, by its range. A function of this name and no `From`: some bytes are no term, and
// `Term::from(byte)` would not say that the range decides.
pub fn decode(byte: u8) -> Term
    ensures { result ≡ term_of byte }
{
    match byte {
        0..=15 => Term::Label(ConcreteLabel(byte)),
        16..=31 => Term::Variable(byte),
        255 => Term::Dash,
        _ => Term::Refused,
    }
}

// Whether a byte is a term, and a label below the count.
pub fn term_ok(byte: u8, count: usize) -> bool
    ensures { result ≡ term_ok count (term_of byte) }
{
    match decode(byte) {
        Term::Label(label) => usize::from(label.0) < count,
        Term::Variable(_) | Term::Dash => true,
        Term::Refused => false,
    }
}

// Whether a byte is a dash.
pub fn is_dash(byte: u8) -> bool
    ensures { result ≡ is_dash (term_of byte) }
{
    matches!(decode(byte), Term::Dash)
}
