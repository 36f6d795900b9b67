// The two sides of a rule, in the bytes that hold them. A goal is a left side, which stands on both sides.
ghost use Rattle.std.specs.Prelude.{◌≡◌, ◌+◌, ◌≤◌, ◌<◌, length};
ghost use Rattle.blocks.specs.Layout.{positions, rules, goals, left_of, right_of, goal_of};
ghost use Rattle.blocks.specs.Validity.{Sized};

use super::layout;

// The n terms of each side stand from `left` and from `right` on.
#[derive(Clone, Copy)]
pub struct Sides<'a> {
    pub bytes: &'a [u8],
    pub left: usize,
    pub right: usize,
    pub n: usize,
    ghost inside: { (left + n ≤ length bytes.now) × (right + n ≤ length bytes.now) × (n ≤ 16) },
}

impl<'a> Sides<'a> {
    ghost use Rattle.blocks.specs.Sides.{left_terms, right_terms};

    // The sides of rule r.
    pub fn of(block: &'a [u8], r: usize) -> Self
        requires { Sized block.now × (r < rules block.now) }
        ensures { (result.n ≡ positions block.now) × (left_terms result ≡ left_of block.now r) ×
            (right_terms result ≡ right_of block.now r) }
    {
        Sides {
            bytes: block,
            left: layout::left_at(block, r),
            right: layout::right_at(block, r),
            n: layout::positions(block),
        }
    }

    // Goal g, on both sides.
    pub fn goal(block: &'a [u8], g: usize) -> Self
        requires { Sized block.now × (g < goals block.now) }
        ensures { (result.n ≡ positions block.now) × (left_terms result ≡ goal_of block.now g) ×
            (right_terms result ≡ goal_of block.now g) }
    {
        let at = layout::goal_at(block, g);
        Sides {
            bytes: block,
            left: at,
            right: at,
            n: layout::positions(block),
        }
    }

    // The left side, on both sides.
    pub fn left_twice(&self) -> Sides<'a>
        ensures { (result.n ≡ self.now.n) × (left_terms result ≡ left_terms self.now) ×
            (right_terms result ≡ left_terms self.now) }
    {
        Sides {
            bytes: self.bytes,
            left: self.left,
            right: self.left,
            n: self.n,
        }
    }
}
