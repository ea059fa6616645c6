// The solver of one instant: givens become the one solution, where the rows are in good order and the levels meet the rule.
#![tactic(auto)]

ghost use Rattle.std.specs.Prelude.{◌≡◌, ◌≤◌};
ghost use Rattle.theory.specs.Numbers.{TRIGGER_ROWS};
ghost use Rattle.solver.specs.Solved.{Solved};

use keys::{KEYS, chains, next};
use tables::EVENTS_NUMBERS;
use theory::TRIGGER_ROWS;
use turns::settle;

// The solver, key by key in rising order, on a buffer of 128 numbers and at most 256 triggers.
// Kept: `next` leaps over the keys of no trigger; over the range of all keys each would be settled or tested.
fn by_keys(events: &mut [u16; EVENTS_NUMBERS], levels: &[u8], triggers: &[u8], n: u16, roles: u64)
    requires { n ≤ TRIGGER_ROWS }
    ensures { Solved levels.now triggers.now n roles events.old events.new }
{
    let chains = chains(triggers, levels, roles, n);
    let mut k = next(&chains, n, 0);
    while k < KEYS {
        settle(events, triggers, &chains, n, k);
        k = next(&chains, n, k);
    }
}

// The events, which are the givens, become the solution of the instant. What is no events buffer, or has more triggers than a table, is left as it is.
pub fn solve(events: &mut [u16], levels: &[u8], triggers: &[u8], n: u16, roles: u64)
    ensures { Solved levels.now triggers.now n roles events.old events.new }
{
    if n > TRIGGER_ROWS {
        return;
    }
    if let Some(whole) = events.as_mut_array() {
        by_keys(whole, levels, triggers, n, roles);
    }
}
