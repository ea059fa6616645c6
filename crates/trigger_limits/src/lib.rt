// What a trigger may hold: document 01's limits on each of its fields, which of them is the first to fail, and whether none is, in any row of a table of any length.
#![tactic(auto)]

ghost use Rattle.std.specs.Prelude.{◌≡◌, ◌+◌, ◌≤◌, ◌<◌, not};
ghost use Rattle.theory.specs.Below.{first_below, first_failing};
ghost use Rattle.theory.specs.Sheet.{of_roles, event_tests, trigger_tests, trigger_fits};
ghost use Rattle.tables.specs.Layout.{byte_at, trigger_at};

use periodic_limits::of_roles;
use tables::{
    CONDITION_COUNT, DELAY, EVENT_COUNT, FIRST_CONDITION, FIRST_EVENT, HEAD, PRIORITY,
    TRIGGER_BYTES, byte, trigger_byte,
};
use theory::{BODY_CONDITIONS, BODY_EVENTS, LONGEST_DELAY, PRIORITIES};
use widths::{index, row_index};

// Of the n bytes from `at` on, the first that is no event or condition of the roles; n where there is none.
// Kept: a number where an Option could be, for the definition `first_below` has n where there is none, and the callers count on from it.
#[tactic(auto, unfolding(theory::specs::Below::first_below))]
fn first_foreign(table: &[u8], at: usize, n: u8, roles: u8) -> u8
    requires { at < 1048600 }
    ensures { result ≡ first_below n (λ j. not (of_roles roles (byte_at table.now (at + j)))) }
{
    for j in 0..n {
        if !of_roles(roles, byte(table, at + index(j))) {
            return j;
        }
    }
    n
}

// Of the head of row i, its priority and its delay, the first that is outside its limit, from 0; 3 where none is.
#[tactic(auto, unfolding(tables::specs::Layout::trigger_from))]
fn first_bad_head(table: &[u8], i: u16, roles: u8) -> u8
    ensures { (result ≡ first_failing
        (event_tests roles
        (trigger_at table.now i).head
        (trigger_at table.now i).priority
        (trigger_at table.now i).delay))
        × (result ≤ 3) }
{
    if !of_roles(roles, trigger_byte(table, i, HEAD)) {
        return 0;
    }
    if trigger_byte(table, i, PRIORITY) >= PRIORITIES {
        return 1;
    }
    if trigger_byte(table, i, DELAY) > LONGEST_DELAY {
        return 2;
    }
    3
}

// The number of the first field of row i that is outside its limit, in frame order, from 0; where none is, how many fields it has.
// Kept: a number where an Option could be, for the public contract says the definition `first_failing`, which has their count where none fails.
#[tactic(auto, unfolding(tables::specs::Layout::trigger_from))]
pub fn first_bad_trigger(table: &[u8], i: u16, roles: u8) -> u8
    ensures { result ≡ first_failing (trigger_tests roles (trigger_at table.now i)) }
{
    let n = trigger_byte(table, i, EVENT_COUNT);
    let m = trigger_byte(table, i, CONDITION_COUNT);
    let at = TRIGGER_BYTES * row_index(i);
    if n < 1 {
        return 0;
    }
    if n > BODY_EVENTS {
        return 0;
    }
    if m > BODY_CONDITIONS {
        return 1;
    }
    let e = first_foreign(table, at + FIRST_EVENT, n, roles);
    if e < n {
        return 2 + e;
    }
    let c = first_foreign(table, at + FIRST_CONDITION, m, roles);
    if c < m {
        return 2 + n + c;
    }
    2 + n + m + first_bad_head(table, i, roles)
}

// Row i of a trigger table holds what it may.
pub fn trigger_fits(table: &[u8], i: u16, roles: u8) -> bool
    ensures { result ≡ trigger_fits roles (trigger_at table.now i) }
{
    let n = index(trigger_byte(table, i, EVENT_COUNT));
    let m = index(trigger_byte(table, i, CONDITION_COUNT));
    index(first_bad_trigger(table, i, roles)) == 5 + n + m
}
