// What triggers with a delay let wait: the head of each whose conditions hold and whose body is met joins the row of its instant, nothing else does.
#![tactic(auto)]

ghost use Rattle.std.specs.Prelude.{◌≡◌, ◌&&◌, ltb};
ghost use Rattle.theory.specs.Instant.{allows, met};
ghost use Rattle.tables.specs.Layout.{trigger_at};
ghost use Rattle.tables.specs.Buffers.{roles_of, events_of};
ghost use Rattle.masks.specs.Joins.{joins};
ghost use Rattle.delays.specs.Delays.{trigger_entry};

use masks::join_where;
use tables::{DELAY, HEAD, PRIORITY, trigger_byte};
use waiting::place;

// The head of trigger i comes to wait: it has a delay, its conditions hold and its body is met.
fn comes_to_wait(events: &[u16], triggers: &[u8], i: u16, roles: u64) -> bool
    ensures { result
        ≡ (ltb 0 (trigger_at triggers.now i).delay
        && (allows (roles_of roles) (trigger_at triggers.now i)
        && met (events_of events.now) (events_of events.now) (trigger_at triggers.now i))) }
{
    if trigger_byte(triggers, i, DELAY) == 0 {
        return false;
    }
    if !bodies::allows(triggers, i, roles) {
        return false;
    }
    bodies::met(events, triggers, i)
}

// The heads of the first n triggers that come to wait join the waiting buffer.
pub fn wait_triggers(
    waiting: &mut [u16],
    events: &[u16],
    triggers: &[u8],
    n: u16,
    roles: u64,
    t: u32,
)
    ensures { waiting.new
        ≡ joins waiting.old n
        (λ i. trigger_entry (roles_of roles) (events_of events.now) t (trigger_at triggers.now i)) }
{
    for i in 0..n {
        let on = comes_to_wait(events, triggers, i, roles);
        let delay = trigger_byte(triggers, i, DELAY);
        let head = trigger_byte(triggers, i, HEAD);
        let at = place(t, delay, head);
        join_where(waiting, on, at, trigger_byte(triggers, i, PRIORITY));
    }
}
