// The tests of a step before its tables: LENGTH, LAST, and TOO MANY of requests, in this order.
#![tactic(auto)]

ghost use Rattle.std.specs.Prelude.{◌≡◌};
ghost use Rattle.step_tests.specs.Order.{exact_lengths, judge_first};

use answers::{Name, Verdict, refuse};
use tables::{EVENTS_NUMBERS, PERIODIC_TABLE, TRIGGER_TABLE, WAITING_NUMBERS};
use theory::{LAST_INSTANT, REQUESTS};

// The tables and the buffers have their exact lengths.
fn lengths_fit(periodics: usize, triggers: usize, waiting: usize, events: usize) -> bool
    ensures { result ≡ exact_lengths periodics triggers waiting events }
{
    ((periodics == PERIODIC_TABLE) & (triggers == TRIGGER_TABLE))
        & ((waiting == WAITING_NUMBERS) & (events == EVENTS_NUMBERS))
}

// LENGTH, LAST, TOO MANY of requests: by the lengths of what is lent, the instant and the number of requests.
pub fn judge_first(
    periodics: usize,
    triggers: usize,
    waiting: usize,
    events: usize,
    t: u32,
    n: usize,
) -> Verdict
    ensures { result ≡ judge_first (exact_lengths periodics triggers waiting events) t n }
{
    if !lengths_fit(periodics, triggers, waiting, events) {
        return refuse(Name::Length, 0);
    }
    if LAST_INSTANT < t {
        return refuse(Name::Last, 0);
    }
    if REQUESTS < n {
        return refuse(Name::TooMany, 0);
    }
    Ok(())
}
