// Whether a block is accepted: conditions 3 to 7, in this order, each over the whole block.
ghost use Rattle.std.specs.Prelude.{◌≡◌, ◌&&◌, ◌+◌, ◌≤◌, ◌<◌, length};
ghost use Rattle.refusals.specs.Answers.{verdict};
ghost use Rattle.refusals.specs.Refusals.{answer_of};
ghost use Rattle.blocks.specs.Terms.{term_of};
ghost use Rattle.blocks.specs.Layout.{positions, rules, goals, head_length, left_of, right_of, goal_of, side_at};
ghost use Rattle.blocks.specs.Validity.{within, sizes_ok, head_ok, map_ok, side_ok, rule_terms_ok, goal_terms_ok};
ghost use Rattle.blocks.specs.Validity.{terms_ok, bound_in, rule_bound, bound_ok};
ghost use Rattle.blocks.specs.Validity.{shape_conditions, content_conditions, block_conditions, Sized};

use super::layout;
use super::terms::{Term, decode, term_ok};
use basics::{first_of, power_within};
use refusals::Refusal;

// The most abstract states that an exercise may have.
pub const MOST_STATES: usize = 16384;

// The entries of a table, as many as there can be. An array is lent by its address alone, a slice by an address and a
// length, which each call would copy.
pub type Entries = [u32; MOST_STATES];

// Whether x lies from low to high.
pub fn lies_within(low: usize, x: usize, high: usize) -> bool
    ensures { result ≡ within low x high }
{
    low <= x && x <= high
}

// Whether the head's numbers are in their limits, the number of abstract states aside.
fn sizes_ok(block: &[u8]) -> bool
    requires { head_length ≤ length block.now }
    ensures { result ≡ sizes_ok block.now }
{
    lies_within(1, layout::positions(block), layout::MOST_POSITIONS)
        && lies_within(1, layout::labels(block), 16)
        && lies_within(1, layout::abstracts(block), layout::labels(block))
        && layout::rules(block) <= 64
        && lies_within(1, layout::goals(block), 8)
}

// Condition 3.
pub fn head_ok(block: &[u8]) -> bool
    ensures { result ≡ head_ok block.now }
{
    if block.len() < layout::HEAD_LENGTH || !sizes_ok(block) {
        return false;
    }
    let states = power_within(
        layout::abstracts(block),
        layout::positions(block),
        MOST_STATES,
    );
    states <= MOST_STATES
}

// Condition 5.
fn map_ok(block: &[u8]) -> bool
    requires { Sized block.now }
    ensures { result ≡ map_ok block.now }
{
    let abstracts = layout::abstracts(block);
    (0..layout::labels(block)).all(|x| usize::from(layout::map_byte(block, x)) < abstracts)
}

// Whether the bytes of the side at `at` are terms, and their constants labels.
fn side_ok(block: &[u8], at: usize) -> bool
    requires { Sized block.now × (at + positions block.now ≤ length block.now) }
    ensures { result ≡ side_ok block.now (side_at block.now at) }
{
    let n = layout::positions(block);
    (0..n).all(|i| term_ok(block[at + i], layout::label_count(block, i)))
}

// Whether both sides of rule r are right.
fn rule_sides_ok(block: &[u8], r: usize) -> bool
    requires { Sized block.now × (r < rules block.now) }
    ensures { result ≡ (side_ok block.now (left_of block.now r) && side_ok block.now (right_of block.now r)) }
{
    side_ok(block, layout::left_at(block, r)) && side_ok(block, layout::right_at(block, r))
}

// Whether the side of goal g is right.
fn goal_side_ok(block: &[u8], g: usize) -> bool
    requires { Sized block.now × (g < goals block.now) }
    ensures { result ≡ side_ok block.now (goal_of block.now g) }
{
    side_ok(block, layout::goal_at(block, g))
}

// Whether both sides of each rule are right.
fn rule_terms_ok(block: &[u8]) -> bool
    requires { Sized block.now }
    ensures { result ≡ rule_terms_ok block.now }
{
    (0..layout::rules(block)).all(|r| rule_sides_ok(block, r))
}

// Whether each goal's side is right.
fn goal_terms_ok(block: &[u8]) -> bool
    requires { Sized block.now }
    ensures { result ≡ goal_terms_ok block.now }
{
    (0..layout::goals(block)).all(|g| goal_side_ok(block, g))
}

// Condition 6.
fn terms_ok(block: &[u8]) -> bool
    requires { Sized block.now }
    ensures { result ≡ terms_ok block.now }
{
    rule_terms_ok(block) && goal_terms_ok(block)
}

// Whether a right term's variable stands among the n left terms from `left` on.
fn term_bound(block: &[u8], left: usize, n: usize, byte: u8) -> bool
    requires { left + n ≤ length block.now }
    ensures { result ≡ bound_in n (side_at block.now left) (term_of byte) }
{
    match decode(byte) {
        Term::Variable(v) => first_of(block, left, n, v).is_some(),
        Term::Label(_) | Term::Dash | Term::Refused => true,
    }
}

// Whether each right variable of rule r stands on its left.
fn rule_bound(block: &[u8], r: usize) -> bool
    requires { Sized block.now × (r < rules block.now) }
    ensures { result ≡ rule_bound block.now r }
{
    let n = layout::positions(block);
    let left = layout::left_at(block, r);
    let right = layout::right_at(block, r);
    (0..n).all(|i| term_bound(block, left, n, block[right + i]))
}

// Condition 7.
fn bound_ok(block: &[u8]) -> bool
    requires { Sized block.now }
    ensures { result ≡ bound_ok block.now }
{
    (0..layout::rules(block)).all(|r| rule_bound(block, r))
}

// The head and the length: 3 and 4.
pub fn check_shape(block: &[u8]) -> Result<(), Refusal>
    ensures { answer_of result ≡ verdict (shape_conditions block.now) }
{
    if !head_ok(block) {
        return Err(Refusal::Head);
    }
    if block.len() != layout::block_length(block) {
        return Err(Refusal::Length);
    }
    Ok(())
}

// What stands in the block: 5, 6 and 7.
pub fn check_content(block: &[u8]) -> Result<(), Refusal>
    requires { Sized block.now }
    ensures { answer_of result ≡ verdict (content_conditions block.now) }
{
    if !map_ok(block) {
        return Err(Refusal::Map);
    }
    if !terms_ok(block) {
        return Err(Refusal::Term);
    }
    if !bound_ok(block) {
        return Err(Refusal::Unbound);
    }
    Ok(())
}

// Whether a block is accepted, or what turns it back: its parts in turn.
pub fn check(block: &[u8]) -> Result<(), Refusal>
    ensures { answer_of result ≡ verdict (block_conditions block.now) }
{
    check_shape(block)?;
    check_content(block)
}
