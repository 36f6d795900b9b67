// The two kinds of labels, and the one way from the first to the second.
ghost use Rattle.std.specs.Prelude.{◌≡◌, ◌+◌, ◌<◌, length, get_or};

// A label of an exercise's own states (document 01: a yard label).
#[derive(Clone, Copy, PartialEq, Eq)]
pub struct ConcreteLabel(pub u8);

// A label of the abstraction. Its byte is private: only `mapped` makes one.
#[derive(Drop)]
pub struct AbstractLabel(u8);

// The abstract label of a label, by the map whose bytes stand in `bytes` from `at` on.
pub fn mapped(bytes: &[u8], at: usize, label: ConcreteLabel) -> AbstractLabel
    requires { at + label.0 < length bytes.now }
    ensures { result.0 ≡ get_or bytes.now (at + label.0) 0 }
{
    AbstractLabel(bytes[at + usize::from(label.0)])
}

// The byte that stands for an abstract label.
impl From<AbstractLabel> for u8 {
    ghost from_gives = { λ label byte. byte ≡ label.0 };

    fn from(label: AbstractLabel) -> u8 {
        label.0
    }
}
