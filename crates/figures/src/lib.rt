// The figure of a list by the tables of all maps, which stand behind one another in one array. The ranks of its last
// state stand in one number, 16 bits for each map, each an index into that array.
#![tactic(auto)]

ghost use Rattle.std.specs.Prelude.{◌≡◌, ◌&&◌, ◌+◌, ◌%◌, ◌≤◌, ◌<◌, ltb, leb, get_or};
ghost use Rattle.basics.specs.Marks.{mark};
ghost use Rattle.words.specs.Changes.{map_count, RanksLow};
ghost use Rattle.figures.specs.Figures.{entry_figure, largest_at, StandsFor};

use blocks::validity::Entries;
use tables::edges::MARK;
use words::changes::{Changes, map_count};

// What stands for no figure: it is above every threshold. No Option: the order of options has None below all numbers,
// so that the largest, the threshold's test and the least overshoot would each need a case of their own.
pub const NO_FIGURE: u64 = 18446744073709551615;

// The figure by the table of the lowest rank; NO_FIGURE with the mark.
fn entry_figure(table: &Entries, cost: u64, ranks: u64) -> u64
    requires { (ranks % 65536 < 16384) × (cost ≤ 8589934592) }
    ensures { result ≡ entry_figure cost (get_or table.now (ranks % 65536) 0) }
{
    let entry = table[(ranks % 65536) as usize];
    if entry < MARK {
        return cost + u64::from(entry);
    }
    NO_FIGURE
}

// A cost and the entry at the lowest rank together, the mark taken as a number: no figure by more tables is lower.
pub fn entry_sum(table: &Entries, cost: u64, ranks: u64) -> u64
    requires { (ranks % 65536 < 16384) × (cost ≤ 8589934592) }
    ensures { (result ≡ cost + get_or table.now (ranks % 65536) 0) × (result ≤ cost + mark) }
{
    cost + u64::from(table[(ranks % 65536) as usize])
}

// Whether a figure is above the threshold and lowers nothing: then no higher one matters either.
fn is_settled(threshold: u64, least: u64, figure: u64) -> bool
    ensures { result ≡ (ltb threshold figure && leb least figure) }
{
    threshold < figure && least <= figure
}

// The figure by so many tables, from that by the first one: the largest of all. Entries only raise it, so that the
// others are not looked at once it is settled.
fn further_figure(
    table: &Entries,
    maps: u64,
    threshold: u64,
    least: u64,
    cost: u64,
    ranks: u64,
    first: u64,
) -> u64
    requires { (0 < maps) × RanksLow ranks maps × (cost ≤ 8589934592) ×
        (first ≡ entry_figure cost (get_or table.now (ranks % 65536) 0)) }
    ensures { StandsFor threshold least result (entry_figure cost (largest_at table.now ranks maps)) }
{
    let mut figure = first;
    let mut rest = ranks;
    for _ in 1..maps {
        rest /= 65536;
        figure = figure.max(entry_figure(table, cost, rest));
        if is_settled(threshold, least, figure) {
            return figure;
        }
    }
    figure
}

// The figure of a list of this cost whose last state has these ranks, in a round at a threshold with a least overshoot
// so far. One that the first table settles needs no other; with one map there is none.
pub fn figure(
    changes: &Changes,
    table: &Entries,
    threshold: u64,
    least: u64,
    cost: u64,
    ranks: u64,
) -> u64
    requires { (0 < map_count changes.now) × RanksLow ranks (map_count changes.now) × (cost ≤ 8589934592) }
    ensures { StandsFor threshold least result
        (entry_figure cost (largest_at table.now ranks (map_count changes.now))) }
{
    let first = entry_figure(table, cost, ranks);
    if is_settled(threshold, least, first) {
        return first;
    }
    further_figure(
        table,
        map_count(changes),
        threshold,
        least,
        cost,
        ranks,
        first,
    )
}
