// The loop test of the first n triggers of any table: the first − edge on a cycle, or none; and the level of each event, how many reach it.
#![tactic(auto)]

ghost use Rattle.std.specs.Prelude.{◌≡◌, ◌&&◌, ℕ, ◌+◌, ◌<◌, length, get_or};
ghost use Rattle.theory.specs.Numbers.{EVENTS};
ghost use Rattle.theory.specs.Below.{one, count_below, first_below};
ghost use Rattle.theory.specs.LoopTest.{PAIRS};
ghost use Rattle.tables.specs.Layout.{triggers_of};
ghost use Rattle.reach_row.specs.Row.{reaches};
ghost use Rattle.reach_rows.specs.Rows.{edges_of};
ghost use Rattle.loops.specs.Tested.{found_at, cycle_at, tabulate, tested};

use reach_row::Row;
use reach_rows::{Rows, leads};
use theory::EVENTS;

// One level for each event.
pub const LEVELS: usize = EVENTS as usize;

// The answer of the loop test: what the search finds, which is the first − edge on a cycle, as the pair from and to; and the level of each event, which is how many events reach it.
#[derive(Clone, Copy)]
pub struct Tested {
    pub found: Option<(u8, u8)>,
    pub levels: [u8; LEVELS],
}

// ---- the search

// The − edge from a to b lies on a cycle: b reaches a.
fn on_cycle(minus: &Rows, reach: &Rows, a: u8, b: u8) -> bool
    ensures { result ≡ (edges_of minus.now a b && edges_of reach.now b a) }
{
    leads(minus, a, b) && leads(reach, b, a)
}

// The first − edge on a cycle, in order of from and then to.
fn first_cycle(minus: &Rows, reach: &Rows) -> Option<(u8, u8)>
    ensures { result ≡ found_at (first_below PAIRS (cycle_at (edges_of minus.now) (edges_of reach.now))) }
{
    'search: {
        for from in 0..EVENTS {
            if reach_row::some(&minus[widths::index(from)]) {
                for to in 0..EVENTS {
                    if on_cycle(minus, reach, from, to) {
                        break 'search Some((from, to));
                    }
                }
            }
        }
        None
    }
}

// ---- the levels

// One more for each event that the row reaches.
fn count_row(counts: &mut [u8; LEVELS], row: &Row)
    requires { (length counts.old ≡ EVENTS) × ((e : ℕ) → get_or counts.old e 0 < EVENTS) }
    ensures { counts.new ≡ tabulate EVENTS (λ e. get_or counts.old e 0 + one (reaches row.now e)) }
{
    for e in 0..EVENTS {
        let i = widths::index(e);
        counts[i] += widths::one(reach_row::reaches(row, e));
    }
}

// The level of each event: row after row, how many reach it.
fn levels(reach: &Rows) -> [u8; LEVELS]
    ensures { result ≡ tabulate EVENTS (λ e. count_below EVENTS (λ x. edges_of reach.now x e)) }
{
    let mut r = [0; LEVELS];
    for row in reach {
        count_row(&mut r, row);
    }
    r
}

// ---- the test

// The loop test over the first n triggers of a table, which may have any length and hold anything: past its end stands 0, and what is no event has no row.
pub fn loop_test(triggers: &[u8], n: u16) -> Tested
    ensures { result ≡ tested (triggers_of n triggers.now) }
{
    let heads = edges::nodes(triggers, n);
    let mut minus = reach_rows::none();
    edges::draw(&mut minus, triggers, n, &heads, true);
    let mut drawn = minus;
    edges::draw(&mut drawn, triggers, n, &heads, false);
    let reach = reach::closed(drawn);
    let found = first_cycle(&minus, &reach);
    let levels = levels(&reach);
    Tested { found, levels }
}
