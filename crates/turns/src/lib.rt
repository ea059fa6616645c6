// The turns of the triggers of one key: where a body is met the head joins the events, sweep after sweep, until nothing is added.
#![tactic(auto)]

ghost use Rattle.std.specs.Prelude.{◌≡◌, true, ℕ, length};
ghost use Rattle.theory.specs.Numbers.{EVENTS};
ghost use Rattle.theory.specs.Solving.{Turn};
ghost use Rattle.tables.specs.Buffers.{events_of};
ghost use Rattle.keys.specs.Keys.{Chained, Linked};
ghost use Rattle.turns.specs.Turns.{Keyed, TurnAt, SweptAt, SettledAt};

use bodies::met;
use keys::FRONTS;
use masks::{join_where, number};
use tables::{EVENTS_NUMBERS, HEAD, PRIORITY, trigger_byte};
use theory::{EVENTS, PRIORITIES};
use widths::{index, row_index};

// p:e joins the events; whether it was not there. What is no prioritized event joins nothing.
fn put(events: &mut [u16; EVENTS_NUMBERS], e: u8, p: u8) -> bool
    ensures { Turn true (events_of events.old) e p result (events_of events.new) }
{
    if e >= EVENTS {
        return false;
    }
    if p >= PRIORITIES {
        return false;
    }
    let at = index(e);
    let mask = number(events, at);
    if (mask >> p) % 2 == 1 {
        return false;
    }
    join_where(events, true, at, p);
    true
}

// The turn of trigger i: where its body is met, its head joins the events. Whether something was added.
fn turn(events: &mut [u16; EVENTS_NUMBERS], triggers: &[u8], i: u16) -> bool
    ensures { TurnAt triggers.now i events.old result events.new }
{
    if !met(events, triggers, i) {
        return false;
    }
    let e = trigger_byte(triggers, i, HEAD);
    let p = trigger_byte(triggers, i, PRIORITY);
    put(events, e, p)
}

// A sweep over the triggers of key k, along their chain: whether something was added.
// Kept: each trigger's place is read from the chain, so no range gives it, and an iterator over the chain would be this loop and a struct.
fn sweep(
    events: &mut [u16; EVENTS_NUMBERS],
    triggers: &[u8],
    chains: &[u16],
    n: u16,
    k: u16,
) -> bool
    requires { Keyed k × Linked n chains.now }
    ensures { (key : ℕ → ℕ)
        → Chained key n 0 chains.now
        → SweptAt triggers.now n key k events.old result events.new }
{
    let mut changed = false;
    let mut i = number(chains, FRONTS + row_index(k));
    while i < n {
        let new = turn(events, triggers, i);
        changed = changed | new;
        i = number(chains, row_index(i));
    }
    changed
}

// Sweeps over the triggers of key k until one adds nothing.
fn sweeps(events: &mut [u16; EVENTS_NUMBERS], triggers: &[u8], chains: &[u16], n: u16, k: u16)
    requires { Keyed k × Linked n chains.now }
    ensures { (key : ℕ → ℕ)
        → Chained key n 0 chains.now
        → SettledAt triggers.now n key k events.old events.new }
{
    while sweep(events, triggers, chains, n, k) {}
}

// The same on a lent buffer. (For the solver alone, which has shown that the events are a buffer of 128 numbers, that k is a key and not 0, and that the triggers are chained.)
pub fn settle(events: &mut [u16], triggers: &[u8], chains: &[u16], n: u16, k: u16)
    requires { (length events.old ≡ EVENTS) × Keyed k × Linked n chains.now }
    ensures { (key : ℕ → ℕ)
        → Chained key n 0 chains.now
        → SettledAt triggers.now n key k events.old events.new }
{
    let whole = events.as_mut_array().unwrap();
    sweeps(whole, triggers, chains, n, k);
}
