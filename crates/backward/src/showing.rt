// Where the state that a rule makes shows a variable of the rule.
ghost use Rattle.std.specs.Prelude.{◌≡◌, ◌<◌};
ghost use Rattle.basics.specs.Bounded.{find};
ghost use Rattle.blocks.specs.Sides.{left_terms, right_terms};
ghost use Rattle.backward.specs.Reversible.{shows};

use blocks::sides::Sides;
use blocks::terms::is_dash;

// Whether the new state shows the variable v at position j.
fn shows(sides: &Sides, v: u8, j: usize) -> bool
    requires { j < sides.now.n }
    ensures { result ≡ shows (left_terms sides.now) (right_terms sides.now) v j }
{
    let byte = sides.bytes[sides.right + j];
    byte == v || sides.bytes[sides.left + j] == v && is_dash(byte)
}

// The first position where the new state shows the variable v, if one does.
pub fn first_shown(sides: &Sides, v: u8) -> Option<usize>
    ensures { result ≡ find sides.now.n (shows (left_terms sides.now) (right_terms sides.now) v) }
{
    (0..sides.n).find(|j| shows(sides, v, *j))
}
