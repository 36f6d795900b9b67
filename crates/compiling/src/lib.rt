// Compiles a block: its rules and goals, and the weights of its labels, once, into arrays that the functions on words
// read.
#![tactic(auto)]

ghost use Rattle.std.specs.Prelude.{◌≡◌, length};
ghost use Rattle.blocks.specs.Validity.{Valid};
ghost use Rattle.words.specs.Code.{code_length};
ghost use Rattle.words.specs.Compiled.{Compiled};

mod placing_sides;
mod placing_weights;

pub use placing_sides::place_sides;
use placing_sides::{place_counts, place_goals, place_rules};
pub use placing_weights::{place_singles, place_weights};
use words::code::Code;

// Compiles the rules and goals of an accepted block.
pub fn compile(block: &[u8], code: &mut Code)
    requires { Valid block.now }
    ensures { Compiled block.now code.new }
{
    place_rules(block, code);
    place_goals(block, code);
    place_counts(block, code);
}
