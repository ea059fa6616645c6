// Whether the conditions of a trigger all hold in the roles, and whether each event of its body has a nonblocked member; of any row of any table.
#![tactic(auto)]

ghost use Rattle.std.specs.Prelude.{◌≡◌};
ghost use Rattle.theory.specs.Events.{holds};
ghost use Rattle.theory.specs.Instant.{allows, met};
ghost use Rattle.tables.specs.Layout.{trigger_at};
ghost use Rattle.tables.specs.Buffers.{roles_of, events_of};

use nonblocked::live;
use roles::role_on;
use tables::{CONDITION_COUNT, EVENT_COUNT, trigger_byte};
use triggers::{condition, event};

// The condition c holds in the roles.
fn holds(roles: u64, c: u8) -> bool
    ensures { result ≡ holds (roles_of roles) c }
{
    let on = role_on(roles, c / 2);
    if c % 2 == 1 {
        return on;
    }
    !on
}

// The conditions of trigger i all hold in the roles.
pub fn allows(triggers: &[u8], i: u16, roles: u64) -> bool
    ensures { result ≡ allows (roles_of roles) (trigger_at triggers.now i) }
{
    let n = trigger_byte(triggers, i, CONDITION_COUNT);
    (0..n).all(|j| holds(roles, condition(triggers, i, j)))
}

// The body of trigger i is met in the events buffer, which is also what blocks: each body event has a nonblocked member.
pub fn met(events: &[u16], triggers: &[u8], i: u16) -> bool
    ensures { result ≡ met (events_of events.now) (events_of events.now) (trigger_at triggers.now i) }
{
    let n = trigger_byte(triggers, i, EVENT_COUNT);
    (0..n).all(|j| live(events, event(triggers, i, j)))
}
