// Whether an event has a nonblocked member in an events buffer of any length; what is no event has none.
#![tactic(auto)]

ghost use Rattle.std.specs.Prelude.{◌≡◌};
ghost use Rattle.theory.specs.Events.{nonblocked};
ghost use Rattle.tables.specs.Buffers.{events_of};
ghost use Rattle.masks.specs.Masks.{alive_in};

use conflicts::conflict;
use masks::number;
use theory::{EVENTS, PRIORITIES};
use widths::index;

// The leading zeros of a mask without a priority.
const EMPTY: u32 = PRIORITIES as u32;

// Some priority of event e in the mask `own` is not blocked by the mask `against` of the conflicting event: one comparison of their highest priorities.
fn alive(own: u16, against: u16, e: u8) -> bool
    ensures { result ≡ alive_in own against e }
{
    let a = own.leading_zeros();
    let b = against.leading_zeros();
    if e % 2 == 1 {
        return a < b;
    }
    if a < EMPTY {
        return a <= b;
    }
    false
}

// Event e has a nonblocked member in the events buffer.
pub fn live(events: &[u16], e: u8) -> bool
    ensures { result ≡ nonblocked (events_of events.now) (events_of events.now) e }
{
    if e < EVENTS {
        let own = number(events, index(e));
        let against = number(events, index(conflict(e)));
        return alive(own, against, e);
    }
    false
}
