// The states that a rule takes to a given one, in rank order. The next one after an earlier state is built position by
// position, never by counting through ranks.
ghost use Rattle.std.specs.Prelude.{◌≡◌, true, ◌≤◌, ◌<◌, length, get_or};
ghost use Rattle.basics.specs.Bounded.{last};
ghost use Rattle.blocks.specs.Layout.{positions, rules, label_count};
ghost use Rattle.blocks.specs.Sides.{left_terms, right_terms};
ghost use Rattle.blocks.specs.States.{state_ok};
ghost use Rattle.blocks.specs.Validity.{Headed, Sized, Valid};
ghost use Rattle.backward.specs.Choices.{choices_of, raisable_at, Completed, Raised};
ghost use Rattle.backward.specs.Predecessors.{from_first, after, step_back, settled, Answered};

use super::choices::{Reversal, keeps, least, raised, rises};
use basics::copy;
use blocks::layout;
use blocks::layout::MOST_POSITIONS;

// Goes on from position `from` with the least labels.
fn complete(reversal: &Reversal, candidate: &mut [u8], from: usize)
    requires { (length candidate.old ≡ reversal.now.sides.n) × (from ≤ reversal.now.sides.n) }
    ensures { Completed (choices_of (left_terms reversal.now.sides) (right_terms reversal.now.sides)
        reversal.now.state.now) (length reversal.now.state.now) from candidate.old candidate.new }
{
    for i in from..reversal.sides.n {
        candidate[i] = least(reversal.choice_at(candidate, i));
    }
}

// The last position that can be raised, with the labels of `earlier` before it kept, if there is one.
fn pivot(block: &[u8], reversal: &Reversal, earlier: &[u8]) -> Option<usize>
    requires { Headed block.now × (reversal.now.sides.n ≡ positions block.now) ×
        (length earlier.now ≡ reversal.now.sides.n) }
    ensures { result ≡ last (length reversal.now.state.now)
        (raisable_at (label_count block.now) (choices_of (left_terms reversal.now.sides)
        (right_terms reversal.now.sides) reversal.now.state.now) earlier.now) }
{
    let mut best = None;
    for i in 0..reversal.sides.n {
        let choice = reversal.choice_at(earlier, i);
        let label = earlier[i];
        if rises(layout::label_count(block, i), choice, label) {
            best = Some(i);
        }
        if !keeps(choice, label) {
            return best;
        }
    }
    best
}

// The labels of `earlier` up to position i, the one there raised, and on with the least labels.
fn raise(reversal: &Reversal, earlier: &[u8], candidate: &mut [u8], i: usize)
    requires { (length earlier.now ≡ reversal.now.sides.n) × (length candidate.old ≡ reversal.now.sides.n) ×
        (i < reversal.now.sides.n) × (get_or earlier.now i 0 < 255) }
    ensures { Raised (choices_of (left_terms reversal.now.sides) (right_terms reversal.now.sides)
        reversal.now.state.now) (length reversal.now.state.now) i earlier.now candidate.new }
{
    candidate.copy_from_slice(earlier);
    candidate[i] = raised(reversal.choice_at(earlier, i), earlier[i]);
    complete(reversal, candidate, i + 1);
}

// Writes the candidate out if rule r takes it to `state`. A flag beside the caller's buffer, as the C interface has it:
// a state is as long as the caller's block says, and there is no heap to make one on.
fn settle(block: &[u8], r: usize, candidate: &[u8], state: &[u8], out: &mut [u8]) -> bool
    requires { Sized block.now × (r < rules block.now) × (length candidate.now ≡ positions block.now) ×
        (length state.now ≡ positions block.now) × (positions block.now ≤ length out.old) }
    ensures { Answered (settled block.now r state.now candidate.now) result
        out.old out.new }
{
    if psvn::rules::leads(block, r, candidate, state) {
        copy(candidate, candidate.len(), out);
        return true;
    }
    false
}

// Writes the first state that rule r takes to `state` at the front of `out`; or there is none, and nothing is written.
pub fn first_predecessor(block: &[u8], r: usize, state: &[u8], out: &mut [u8]) -> bool
    requires { Valid block.now × (r < rules block.now) × (state_ok block.now state.now ≡ true) ×
        (positions block.now ≤ length out.old) }
    ensures { Answered (step_back block.now r state.now from_first) result
        out.old out.new }
{
    let reversal = Reversal::of(block, r, state);
    let mut room = [0u8; MOST_POSITIONS];
    let candidate = &mut room[..state.len()];
    complete(&reversal, candidate, 0);
    settle(block, r, candidate, state, out)
}

// Writes the next state after `earlier` that rule r takes to `state` at the front of `out`; or there is none further,
// and nothing is written.
pub fn next_predecessor(
    block: &[u8],
    r: usize,
    state: &[u8],
    earlier: &[u8],
    out: &mut [u8],
) -> bool
    requires { Valid block.now × (r < rules block.now) × (state_ok block.now state.now ≡ true) ×
        (state_ok block.now earlier.now ≡ true) × (positions block.now ≤ length out.old) }
    ensures { Answered (step_back block.now r state.now (after earlier.now))
        result out.old out.new }
{
    let reversal = Reversal::of(block, r, state);
    let Some(place) = pivot(block, &reversal, earlier) else {
        return false;
    };
    let mut room = [0u8; MOST_POSITIONS];
    let candidate = &mut room[..state.len()];
    raise(&reversal, earlier, candidate, place);
    settle(block, r, candidate, state, out)
}
