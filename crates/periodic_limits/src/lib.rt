// What a periodic row may hold: document 01's limits on each of its fields, which of them is the first to fail, and whether none is; and which events are of the roles.
#![tactic(auto)]

ghost use Rattle.std.specs.Prelude.{◌≡◌, ◌&&◌, leb};
ghost use Rattle.theory.specs.Below.{first_failing};
ghost use Rattle.theory.specs.Sheet.{of_roles, end_fits, periodic_tests, periodic_fits};
ghost use Rattle.periodics.specs.Rows.{periodic_of};

use periodics::PeriodicRow;
use theory::{LAST_INSTANT, LONGEST_PERIOD, NO_END, PRIORITIES};
use widths::wide;

// low ≤ x ≤ high
fn between(low: u32, x: u32, high: u32) -> bool
    ensures { result ≡ (leb low x && leb x high) }
{
    (low <= x) & (x <= high)
}

// An event or a condition is below twice the role count.
pub fn of_roles(roles: u8, e: u8) -> bool
    ensures { result ≡ of_roles roles e }
{
    wide(e) < 2 * wide(roles)
}

// End is at least begin and at most the last instant, or it is the mark for no end.
fn end_fits(begin: u32, end: u32) -> bool
    ensures { result ≡ end_fits begin end }
{
    between(begin, end, LAST_INSTANT) | (end == NO_END)
}

// The number of the first field that is outside its limit, in frame order; 7 where none is.
// Kept: a number where an Option could be, for the public contract says the definition `first_failing`, which has their count where none fails.
pub fn first_bad_periodic(w: PeriodicRow, roles: u8) -> u8
    ensures { result ≡ first_failing (periodic_tests roles (periodic_of w)) }
{
    if w.begin > LAST_INSTANT {
        return 0;
    }
    if !end_fits(w.begin, w.end) {
        return 1;
    }
    if !between(1, w.period, LONGEST_PERIOD) {
        return 2;
    }
    if w.first >= w.period {
        return 3;
    }
    if !between(1, w.run, w.period) {
        return 4;
    }
    if !of_roles(roles, w.event) {
        return 5;
    }
    if w.priority >= PRIORITIES {
        return 6;
    }
    7
}

// A periodic row holds what it may.
pub fn periodic_fits(w: PeriodicRow, roles: u8) -> bool
    ensures { result ≡ periodic_fits roles (periodic_of w) }
{
    first_bad_periodic(w, roles) == 7
}
