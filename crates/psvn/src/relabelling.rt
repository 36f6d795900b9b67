// Relabelling: a block under the map.
ghost use Rattle.std.specs.Prelude.{◌≡◌, true, ◌+◌, ◌≤◌, ◌<◌, length};
ghost use Rattle.std.proofs.lemmas.List.Edits.{sets};
ghost use Rattle.basics.specs.Lists.{at_front};
ghost use Rattle.blocks.specs.Terms.{term_of, term_ok};
ghost use Rattle.blocks.specs.Layout.{positions, rules, label_count, map_at, side_at};
ghost use Rattle.blocks.specs.Validity.{Sized, Valid, side_ok};
ghost use Rattle.psvn.specs.Relabelling.{relabel_term, relabel_side, relabel_rule, relabel_rules, relabel_goals};
ghost use Rattle.psvn.specs.Relabelling.{relabel_block};

use blocks::layout;
use blocks::terms::{Term, decode};

// A term's byte at position i, its constant sent through the map.
fn relabel_term(block: &[u8], i: usize, byte: u8) -> u8
    requires { Sized block.now × (i < positions block.now) ×
        (term_ok (label_count block.now i) (term_of byte) ≡ true) }
    ensures { result ≡ relabel_term (map_at block.now i) byte }
{
    match decode(byte) {
        Term::Label(label) => u8::from(layout::abstract_label(block, i, label)),
        Term::Variable(_) | Term::Dash | Term::Refused => byte,
    }
}

// Writes the relabelled side that begins at `from`, from `to` on, and gives the place behind it.
fn relabel_side(block: &[u8], from: usize, out: &mut [u8], to: usize) -> usize
    requires { Sized block.now × (from + positions block.now ≤ length block.now) ×
        (side_ok block.now (side_at block.now from) ≡ true) × (to + positions block.now ≤ length out.old) }
    ensures { (result ≡ to + positions block.now) ×
        (out.new ≡ sets out.old to
        (relabel_side block.now (side_at block.now from))) }
{
    let n = layout::positions(block);
    for i in 0..n {
        out[to + i] = relabel_term(block, i, block[from + i]);
    }
    to + n
}

// Writes the relabelled rule r from `to` on, and gives the place behind it.
fn relabel_rule(block: &[u8], r: usize, out: &mut [u8], to: usize) -> usize
    requires { Valid block.now × (r < rules block.now) ×
        (to + length (relabel_rule block.now r) ≤ length out.old) }
    ensures { (result ≡ to + length (relabel_rule block.now r)) ×
        (out.new ≡ sets out.old to (relabel_rule block.now r)) }
{
    out[to] = layout::cost(block, r);
    let middle = relabel_side(block, layout::left_at(block, r), out, to + 1);
    relabel_side(block, layout::right_at(block, r), out, middle)
}

// Writes the relabelled rules from `to` on, and gives the place behind them.
fn relabel_rules(block: &[u8], out: &mut [u8], to: usize) -> usize
    requires { Valid block.now × (to + length (relabel_rules block.now) ≤ length out.old) }
    ensures { (result ≡ to + length (relabel_rules block.now)) ×
        (out.new ≡ sets out.old to (relabel_rules block.now)) }
{
    let rules = layout::rules(block);
    let mut at = to;
    for r in 0..rules {
        at = relabel_rule(block, r, out, at);
    }
    at
}

// Writes the relabelled goals from `to` on.
fn relabel_goals(block: &[u8], out: &mut [u8], to: usize)
    requires { Valid block.now × (to + length (relabel_goals block.now) ≤ length out.old) }
    ensures { out.new ≡ sets out.old to (relabel_goals block.now) }
{
    let goals = layout::goals(block);
    let mut at = to;
    for g in 0..goals {
        at = relabel_side(block, layout::goal_at(block, g), out, at);
    }
}

// Writes the relabelled block at the front of `out`.
pub fn relabel_block(block: &[u8], out: &mut [u8])
    requires { Valid block.now × (length (relabel_block block.now) ≤ length out.old) }
    ensures { out.new ≡ at_front (relabel_block block.now) out.old }
{
    let rules_at = layout::relabel_head(block, out);
    let goals_at = relabel_rules(block, out, rules_at);
    relabel_goals(block, out, goals_at);
}
