// The calls on a state: applying a rule, the goal test, stepping back; and whether a rule is reversible by form.
ghost use Rattle.std.specs.Prelude.{◌≡◌};
ghost use Rattle.backward.specs.Predecessors.{from_first, after};
ghost use Rattle.psvn_calls.specs.Applying.{apply_rule, ApplicationKept};
ghost use Rattle.psvn_calls.specs.Goals.{test_goals, GoalTestKept};
ghost use Rattle.backward_calls.specs.Predecessors.{step_back_from, PredecessorKept};
ghost use Rattle.backward_calls.specs.Reversing.{test_reversible, ReversibilityKept};
ghost use Rattle.c_answers.specs.Numbers.{decision_of, applied_of, goal_numbers_of, decision_told, applied_told};
ghost use Rattle.c_answers.specs.Numbers.{goal_told};

use c_answers::{Decision, GoalNumbers};

// Yes where the rule applies; the new state then stands at the front of `out`.
#[unsafe(no_mangle)]
pub extern "C" fn mikjuqan_apply_rule(
    block: &[u8],
    rule: usize,
    state: &[u8],
    out: &mut [u8],
) -> Decision
    ensures fact { let o = apply_rule block.now rule state.now out.old
        in (result ≡ applied_of o.answer) × (out.new ≡ o.out) }
    ensures application_kept { ApplicationKept block.now rule state.now (applied_told result) out.new }
{
    Decision::from(engine::apply_rule(block, rule, state, out))
}

// The goal that the state meets, the lowest number of a met one; FF where it meets none.
#[unsafe(no_mangle)]
pub extern "C" fn mikjuqan_test_goals(block: &[u8], state: &[u8]) -> GoalNumbers
    ensures value { result ≡ goal_numbers_of (test_goals block.now state.now) }
    ensures goal_test_kept { GoalTestKept block.now state.now (goal_told result) }
{
    GoalNumbers::from(engine::test_goals(block, state))
}

// Yes where the rule takes some state to `state`; the first one in rank order then stands at the front of `out`.
#[unsafe(no_mangle)]
pub extern "C" fn mikjuqan_first_predecessor(
    block: &[u8],
    rule: usize,
    state: &[u8],
    out: &mut [u8],
) -> Decision
    ensures fact { let o = step_back_from block.now rule state.now from_first out.old
        in (result ≡ decision_of o.answer) × (out.new ≡ o.out) }
    ensures predecessor_kept { PredecessorKept block.now rule state.now from_first
        (decision_told result) out.new }
{
    Decision::from(engine::first_predecessor(block, rule, state, out))
}

// The same for the next one in rank order after `earlier`, which may be any state.
#[unsafe(no_mangle)]
pub extern "C" fn mikjuqan_next_predecessor(
    block: &[u8],
    rule: usize,
    state: &[u8],
    earlier: &[u8],
    out: &mut [u8],
) -> Decision
    ensures fact { let o = step_back_from block.now rule state.now (after earlier.now)
        out.old
        in (result ≡ decision_of o.answer) × (out.new ≡ o.out) }
    ensures predecessor_kept { PredecessorKept block.now rule state.now (after earlier.now)
        (decision_told result) out.new }
{
    Decision::from(engine::next_predecessor(block, rule, state, earlier, out))
}

// Yes where the rule is reversible by form.
#[unsafe(no_mangle)]
pub extern "C" fn mikjuqan_test_reversible(block: &[u8], rule: usize) -> Decision
    ensures value { result ≡ decision_of (test_reversible block.now rule) }
    ensures reversibility_kept { ReversibilityKept block.now rule (decision_told result) }
{
    Decision::from(engine::test_reversible(block, rule))
}
