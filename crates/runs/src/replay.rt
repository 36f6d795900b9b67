// Replaying a recorded run.
ghost use Rattle.std.specs.Prelude.{◌≡◌, ◌≤◌, ◌<◌, length};
ghost use Rattle.basics.specs.Lists.{at_front};
ghost use Rattle.blocks.specs.Layout.{head_length, positions, rules};
ghost use Rattle.blocks.specs.Validity.{Sized};
ghost use Rattle.psvn.specs.Rules.{step};
ghost use Rattle.psvn.specs.Runs.{RuleNumbers};
ghost use Rattle.runs.specs.Replay.{numbers_ok, longest_list, replay_ending, replay_state};

use basics::copy;
use blocks::exercise::Block;
use blocks::layout;
use blocks::layout::MOST_POSITIONS;
use psvn::rules;
use psvn::rules::NO_GOAL;

// How many rule numbers a list may have.
pub const LONGEST_LIST: usize = 4096;

// Where a replay ends: how many rules were applied, which is the index of a rule that is stuck, what they cost, and
// the goal that the final state meets; NO_GOAL where it meets none, or a rule is stuck: a byte, and no option, since C
// reads it.
#[repr(C)]
#[derive(Clone, Copy, PartialEq, Eq)]
pub struct RunEnd {
    pub steps: usize,
    pub cost: u32,
    pub goal: u8,
}

// How a replay ends: all rules applied, or one is stuck.
#[derive(Clone, Copy, PartialEq, Eq)]
pub enum Replayed {
    Done(RunEnd),
    Stuck(RunEnd),
}

// Whether every number of the list is that of a rule.
pub fn numbers_ok(block: &[u8], list: &[u8]) -> bool
    requires { head_length ≤ length block.now }
    ensures { result ≡ numbers_ok block.now list.now }
{
    let rules = layout::rules(block);
    list.iter().all(|rule| usize::from(*rule) < rules)
}

// Replaces a state by the one that rule r makes of it.
fn advance(block: &Block<'_>, r: usize, state: &mut [u8])
    requires { (r < rules block.now) × (length state.old ≡ positions block.now) }
    ensures { state.new ≡ step block.now r state.old }
{
    let mut room = [0u8; MOST_POSITIONS];
    let old = &mut room[..block.positions()];
    old.copy_from_slice(state);
    rules::step(block.bytes(), r, old, state);
}

// Replays the list from a state, which becomes the one where it ends.
fn replay_in(block: &Block<'_>, list: &[u8], state: &mut [u8]) -> Replayed
    requires { RuleNumbers block.now list.now × (length list.now ≤ longest_list) ×
        (length state.old ≡ positions block.now) }
    ensures value { result ≡ replay_ending block.now state.old list.now }
    ensures state_after { state.new ≡
        replay_state block.now state.old list.now }
{
    let mut cost: u32 = 0;
    for (i, number) in list.iter().enumerate() {
        let rule = usize::from(*number);
        if !rules::applies(block.bytes(), rule, state) {
            return Replayed::Stuck(RunEnd {
                steps: i,
                cost,
                goal: NO_GOAL,
            });
        }
        advance(block, rule, state);
        cost += u32::from(block.cost(rule));
    }
    let goal = rules::met_goal(block.bytes(), state).unwrap_or(NO_GOAL);
    Replayed::Done(RunEnd {
        steps: list.len(),
        cost,
        goal,
    })
}

// Replays the list from the start, and writes the state where it ends at the front of `out`.
pub fn replay(block: &[u8], start: &[u8], list: &[u8], out: &mut [u8]) -> Replayed
    requires { Sized block.now × RuleNumbers block.now list.now × (length list.now ≤ longest_list) ×
        (length start.now ≡ positions block.now) × (positions block.now ≤ length out.old) }
    ensures value { result ≡ replay_ending block.now start.now list.now }
    ensures out_after { out.new ≡
        at_front (replay_state block.now start.now list.now) out.old }
{
    copy(start, start.len(), out);
    replay_in(&Block::new(block), list, &mut out[..start.len()])
}
