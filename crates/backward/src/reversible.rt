// Reversible by form.
ghost use Rattle.std.specs.Prelude.{◌≡◌, ◌<◌};
ghost use Rattle.blocks.specs.Layout.{rules};
ghost use Rattle.blocks.specs.Sides.{left_terms, right_terms};
ghost use Rattle.blocks.specs.Validity.{Sized};
ghost use Rattle.backward.specs.Reversible.{form_at, reversible};

use super::showing::first_shown;
use blocks::sides::Sides;
use blocks::terms::{Term, decode, is_dash};

// Whether the right term at position i is a dash, or the left term's label is not lost.
fn form_at(sides: &Sides, i: usize) -> bool
    requires { i < sides.now.n }
    ensures { result ≡ form_at sides.now.n (left_terms sides.now) (right_terms sides.now) i }
{
    if is_dash(sides.bytes[sides.right + i]) {
        return true;
    }
    match decode(sides.bytes[sides.left + i]) {
        Term::Label(_) => true,
        Term::Variable(v) => first_shown(sides, v).is_some(),
        Term::Dash | Term::Refused => false,
    }
}

// Whether rule r is reversible by form.
pub fn reversible(block: &[u8], r: usize) -> bool
    requires { Sized block.now × (r < rules block.now) }
    ensures { result ≡ reversible block.now r }
{
    let sides = Sides::of(block, r);
    (0..sides.n).all(|i| form_at(&sides, i))
}
