// After an instant: the roles, a nonblocked enable adding and a nonblocked disable removing one; and how many events have a nonblocked member.
#![tactic(auto)]

ghost use Rattle.std.specs.Prelude.{◌≡◌, ◌<◌};
ghost use Rattle.theory.specs.Numbers.{ROLES, EVENTS};
ghost use Rattle.theory.specs.Below.{count_below};
ghost use Rattle.theory.specs.Events.{nonblocked};
ghost use Rattle.theory.specs.Instant.{roles_after};
ghost use Rattle.tables.specs.Buffers.{roles_of, events_of};
ghost use Rattle.roles_after.specs.After.{with_role, roles_below};

use nonblocked::live;
use roles::role_on;
use theory::{EVENTS, ROLES};

// Role r is enabled after the instant: a nonblocked enable adds it, a nonblocked disable removes it, else it is kept.
fn on_after(roles: u64, events: &[u16], r: u8) -> bool
    requires { r < ROLES }
    ensures { result ≡ roles_after (roles_of roles) (events_of events.now) r }
{
    let added = live(events, 2 * r + 1);
    let removed = live(events, 2 * r);
    (role_on(roles, r) | added) & !removed
}

// The roles with role r, where `on`.
// Kept: `masks::with_priority` sets a bit of 16; one function for both would end there in a cast, to be shown that it loses none.
fn with_role(roles: u64, r: u8, on: bool) -> u64
    ensures { result ≡ with_role roles r on }
{
    if on {
        if r < ROLES {
            let weight: u64 = 1 << r;
            return roles | weight;
        }
    }
    roles
}

// The roles after the instant, whose events the buffer holds.
pub fn roles_after(roles: u64, events: &[u16]) -> u64
    ensures { result ≡ roles_below (roles_of roles) (events_of events.now) ROLES }
{
    let mut after: u64 = 0;
    for r in 0..ROLES {
        let on = on_after(roles, events, r);
        after = with_role(after, r, on);
    }
    after
}

// How many events have a nonblocked member in the events buffer.
pub fn count(events: &[u16]) -> u8
    ensures { result ≡ count_below EVENTS (nonblocked (events_of events.now) (events_of events.now)) }
{
    let n = (0..EVENTS).filter(|e| live(events, *e)).count();
    n as u8
}
