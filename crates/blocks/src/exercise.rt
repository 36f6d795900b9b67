// Blocks by what is known of them: a right head (`Head`), the right length too (`Block`), and all of it (`Exercise`).
// Whoever is handed one need not ask again. Contracts see each of them as the list of its bytes.
ghost use Rattle.std.specs.Prelude.{◌≡◌, List, ℕ, ◌+◌, ◌≤◌, ◌<◌, length};
ghost use Rattle.refusals.specs.Answers.{verdict, answered};
ghost use Rattle.refusals.specs.Refusals.{answer_of};
ghost use Rattle.blocks.specs.Layout.{positions, rules, goals, left_at, right_at, goal_at, relabelled_length, cost_of};
ghost use Rattle.blocks.specs.Validity.{block_conditions, Headed, Sized, Valid};
ghost use Rattle.blocks.specs.States.{state_ok};

use super::{layout, states, validity};
use refusals::Refusal;
use std::marker::Model;
use std::ops::Deref;

// A block whose head is in its limits. Its length may be wrong.
#[derive(Drop)]
pub struct Head<'a> {
    bytes: &'a [u8],
}

impl<'a> Model for Head<'a> {
    ghost Value = { List ℕ };

    ghost view = { λ head. head.bytes.now };

    ghost invariant = { λ head. Headed head.bytes.now };
}

// A block whose head is in its limits and whose length is the one that its head demands.
#[derive(Drop)]
pub struct Block<'a> {
    head: Head<'a>,
}

impl<'a> Model for Block<'a> {
    ghost Value = { List ℕ };

    ghost view = { λ block. block.head };

    ghost invariant = { λ block. Sized block.head };
}

// An accepted block.
#[derive(Drop)]
pub struct Exercise<'a> {
    block: Block<'a>,
}

impl<'a> Model for Exercise<'a> {
    ghost Value = { List ℕ };

    ghost view = { λ exercise. exercise.block };

    ghost invariant = { λ exercise. Valid exercise.block };
}

impl<'a> Deref for Block<'a> {
    type Target = Head<'a>;

    ghost deref_gives = { λ block head. head ≡ block };

    fn deref(&self) -> &Head<'a> {
        &self.head
    }
}

impl<'a> Deref for Exercise<'a> {
    type Target = Block<'a>;

    ghost deref_gives = { λ exercise block. block ≡ exercise };

    fn deref(&self) -> &Block<'a> {
        &self.block
    }
}

impl<'a> Head<'a> {
    // n: how many positions a state has.
    pub fn positions(&self) -> usize
        ensures { (result ≡ positions self.now) × (1 ≤ result) × (result ≤ 16) }
    {
        layout::positions(self.bytes)
    }

    // R: how many rules there are.
    pub fn rules(&self) -> usize
        ensures { (result ≡ rules self.now) × (result ≤ 64) }
    {
        layout::rules(self.bytes)
    }

    // G: how many goals there are.
    pub fn goals(&self) -> usize
        ensures { (result ≡ goals self.now) × (1 ≤ result) × (result ≤ 8) }
    {
        layout::goals(self.bytes)
    }

    // How long the relabelled block is.
    pub fn relabelled_length(&self) -> usize
        ensures { (result ≡ relabelled_length self.now) × (result ≤ 2261) }
    {
        layout::relabelled_length(self.bytes)
    }

    // Condition 8: whether the bytes are a state of the block.
    pub fn state_ok(&self, state: &[u8]) -> bool
        ensures { result ≡ state_ok self.now state.now }
    {
        states::state_ok(self.bytes, state)
    }
}

impl<'a> Block<'a> {
    // A block of bytes that are known to have the right head and length.
    pub fn new(bytes: &'a [u8]) -> Self
        requires { Sized bytes.now }
        ensures { result ≡ bytes.now }
    {
        Block {
            head: Head { bytes },
        }
    }

    // Its bytes.
    pub fn bytes(&self) -> &'a [u8]
        ensures same { result.now ≡ self.now }
        ensures sized { Sized self.now }
    {
        self.head.bytes
    }

    // Where the left side of rule r begins.
    pub fn left_at(&self, r: usize) -> usize
        requires { r < rules self.now }
        ensures place { result ≡ left_at self.now r }
        ensures inside { result + positions self.now ≤ length self.now }
    {
        layout::left_at(self.bytes(), r)
    }

    // Where the right side of rule r begins.
    pub fn right_at(&self, r: usize) -> usize
        requires { r < rules self.now }
        ensures place { result ≡ right_at self.now r }
        ensures inside { result + positions self.now ≤ length self.now }
    {
        layout::right_at(self.bytes(), r)
    }

    // Where goal g begins.
    pub fn goal_at(&self, g: usize) -> usize
        requires { g < goals self.now }
        ensures place { result ≡ goal_at self.now g }
        ensures inside { result + positions self.now ≤ length self.now }
    {
        layout::goal_at(self.bytes(), g)
    }

    // The cost of rule r.
    pub fn cost(&self, r: usize) -> u8
        requires { r < rules self.now }
        ensures { result ≡ cost_of self.now r }
    {
        layout::cost(self.bytes(), r)
    }
}

impl<'a> Exercise<'a> {
    // An exercise of bytes that are known to be accepted.
    pub fn new(bytes: &'a [u8]) -> Self
        requires { Valid bytes.now }
        ensures { result ≡ bytes.now }
    {
        Exercise {
            block: Block::new(bytes),
        }
    }

    // The exercise of bytes, or what turns them back (3 to 7).
    pub fn of(bytes: &'a [u8]) -> Result<Self, Refusal>
        ensures { answer_of result ≡ answered (verdict (block_conditions bytes.now)) bytes.now }
    {
        validity::check(bytes)?;
        Ok(Exercise::new(bytes))
    }

    // Its bytes.
    pub fn bytes(&self) -> &'a [u8]
        ensures same { result.now ≡ self.now }
        ensures valid { Valid self.now }
    {
        self.block.head.bytes
    }
}
