// Candidates for the predecessors of a state. Each rule is compiled backwards: the reversed left side asks of a state
// what the rule's result must show, and the reversed right side makes the predecessor, with 0 where the rule loses a
// label; such labels then run through all values, a group of positions with one variable together. Nothing is proved
// of a candidate: whoever takes one tests it by the rule itself.
ghost use Rattle.std.specs.Prelude.{◌≡◌, ◌+◌, ◌≤◌, ◌<◌, length};
ghost use Rattle.blocks.specs.Layout.{positions, rules};
ghost use Rattle.blocks.specs.Validity.{Sized};
ghost use Rattle.candidates.specs.Reversed.{Fronted};

use basics::sets::lowest_of;
use blocks::layout;
use blocks::sides::Sides;
use blocks::terms::{Term, decode, is_dash};
use compiling::place_sides;
use words::code::{COSTS, Code};

// The reversed sides of a rule one behind the other, as `place_sides` takes those of a block, and where the right one
// begins.
const SIDES: usize = 32;

const RIGHT: usize = 16;

// 1 at each of the sixteen positions.
const ONES: u64 = 0x1111_1111_1111_1111;

// The term of the reversed left side at a position with these terms on the left and on the right: the right side's, or
// the left side's where the label is kept.
fn term_asked(left: u8, right: u8) -> u8 {
    if is_dash(right) { left } else { right }
}

// The terms of a rule's two sides.
#[derive(Drop)]
struct Rule<'a> {
    left: &'a [u8],
    right: &'a [u8],
    ghost few: { length left.now ≤ 16 },
    ghost paired: { length right.now ≡ length left.now },
}

impl<'a> Rule<'a> {
    // Whether the rule, where it writes, loses a label with this term on the left: nothing in its result tells it.
    fn loses(&self, left: u8) -> bool {
        match decode(left) {
            Term::Label(_) => false,
            Term::Variable(v) => self
                .left
                .iter()
                .zip(self.right)
                .all(|(l, r)| term_asked(*l, *r) != v),
            Term::Dash | Term::Refused => true,
        }
    }

    // The term of the reversed right side at a position with these terms on the left and on the right.
    fn term_made(&self, left: u8, right: u8) -> u8 {
        if is_dash(right) {
            right
        } else if self.loses(left) {
            0
        } else {
            left
        }
    }

    // The reversed sides.
    fn reversed(&self) -> [u8; SIDES] {
        let mut sides = [0u8; SIDES];
        for i in 0..self.left.len() {
            let (left, right) = (self.left[i], self.right[i]);
            sides[i] = term_asked(left, right);
            sides[RIGHT + i] = self.term_made(left, right);
        }
        sides
    }

    // The mask of the positions that hold the variable v on the left.
    fn mask_of(&self, v: u8) -> u64 {
        let mut mask: u64 = 0;
        for (i, left) in self.left.iter().enumerate() {
            if *left == v {
                mask |= 15 << (4 * i);
            }
        }
        mask
    }

    // The mask of position i and of those that share its variable on the left.
    fn group_of(&self, i: usize) -> u64
        requires { i < length self.now.left.now }
    {
        match decode(self.left[i]) {
            Term::Variable(v) => self.mask_of(v),
            _ => 15 << (4 * i),
        }
    }

    // Whether position i is the first that holds its variable on the left.
    fn stands_first(&self, i: usize) -> bool
        requires { i < length self.now.left.now }
    {
        match decode(self.left[i]) {
            Term::Variable(v) => !self.left[..i].contains(&v),
            _ => true,
        }
    }

    // Whether a group whose labels the rule loses begins at position i.
    fn begins_group(&self, i: usize) -> bool
        requires { i < length self.now.left.now }
    {
        !is_dash(self.right[i]) && self.loses(self.left[i]) && self.stands_first(i)
    }

    // The groups whose labels the rule loses: the digit of each position in a group is the number of the group, from 1
    // on, and 0 elsewhere. At most 15 groups have a number: only with one abstract label could there be more, and then
    // no label has another value.
    fn groups(&self) -> u64 {
        let mut groups: u64 = 0;
        let mut count: u64 = 0;
        for i in 0..self.left.len() {
            if count < 15 && self.begins_group(i) {
                count += 1;
                groups |= self.group_of(i) & (count * ONES);
            }
        }
        groups
    }
}

// Compiles rule r backwards. A rule read backwards costs nothing: where its cost would stand its groups do.
fn reverse_rule(block: &[u8], r: usize, code: &mut Code)
    requires { Sized block.now × (r < rules block.now) }
    ensures { Fronted code.old r (positions block.now) → Fronted code.new (r + 1) (positions block.now) }
{
    let n = layout::positions(block);
    let left = layout::left_at(block, r);
    let right = layout::right_at(block, r);
    let rule = Rule {
        left: &block[left..left + n],
        right: &block[right..right + n],
    };
    let reversed = rule.reversed();
    let sides = Sides {
        bytes: &reversed,
        left: 0,
        right: RIGHT,
        n,
    };
    place_sides(&sides, code, r);
    code[COSTS + r] = rule.groups();
}

// Compiles all rules backwards.
pub fn reverse_rules(block: &[u8], code: &mut Code)
    requires { Sized block.now }
    ensures { Fronted code.new (rules block.now) (positions block.now) }
{
    for r in 0..layout::rules(block) {
        reverse_rule(block, r, code);
    }
}

// 1 at each position of group g.
fn members(groups: u64, g: u64) -> u64
    requires { g ≤ 15 }
    ensures { result ≤ 1229782938247303441 }
{
    let other = groups ^ (g * ONES);
    let pairs = other | (other >> 1);
    ONES - ((pairs | (pairs >> 2)) & ONES)
}

// A label at each position where `ones` has a 1.
fn repeated(label: u64, ones: u64) -> u64
    requires { (label ≤ 15) × (ones ≤ 1229782938247303441) }
{
    label * ones
}

// The next candidate after a candidate, by rule r with k labels; the first one again after the last.
pub fn next_candidate(code: &Code, k: u64, r: usize, word: u64) -> u64
    requires { (k ≤ 16) × (r < 64) }
{
    let groups = code[COSTS + r];
    let mut next = word;
    for g in 1..16 {
        let ones = members(groups, g);
        if ones == 0 {
            return next;
        }
        let group = repeated(15, ones);
        let label = (next >> lowest_of(ones)) % 16 + 1;
        next = (next | group) ^ group;
        if label < k {
            return next | repeated(label, ones);
        }
    }
    next
}
