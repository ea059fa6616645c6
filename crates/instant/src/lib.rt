// The instant's own work, once nothing is refused: the givens, the solution, what waits, the roles after it, and the next instant.
#![tactic(auto)]

ghost use Rattle.std.specs.Prelude.{◌≡◌, ◌≤◌};
ghost use Rattle.theory.specs.Numbers.{LAST_INSTANT};
ghost use Rattle.tables.specs.Asked.{flat};
ghost use Rattle.tables.specs.Buffers.{roles_of, events_of};
ghost use Rattle.tables.specs.Lent.{rules_of, lent};
ghost use Rattle.instant.specs.Acted.{filled, refilled, Acted};

use tables::Rules;

// The givens of the instant t in the events buffer: what waits for it, what is due, the requests of delay 0.
fn fill(events: &mut [u16], waiting: &[u16], periodics: &[u8], n: u16, asked: &[u8], m: u16, t: u32)
    ensures { events.new
        ≡ filled events.old waiting.now periodics.now n (flat asked.now m) t }
{
    waiting::copy_row(events, waiting, t);
    due::add_due(events, periodics, n, t);
    asked::add_asked(events, asked, m);
}

// The waiting buffer after the instant t: its row cleared, and what comes to wait added.
fn refill(
    waiting: &mut [u16],
    events: &[u16],
    triggers: &[u8],
    n: u16,
    asked: &[u8],
    m: u16,
    roles: u64,
    t: u32,
)
    ensures { waiting.new
        ≡ refilled waiting.old (events_of events.now) triggers.now n
        (flat asked.now m) (roles_of roles) t }
{
    waiting::clear_row(waiting, t);
    asked::wait_asked(waiting, asked, m, t);
    delays::wait_triggers(waiting, events, triggers, n, roles, t);
}

// The instant's own work, once nothing is refused: the givens, the solution, what waits, the roles after, the next instant. (For the step alone, which has shown that an
// instant follows.)
// Kept: what is lent to be changed goes part by part. Of a struct of `&mut` parts `instant_act` (claims/Functions) could not say that two outcomes are equal, for it holds where they lie; one of arrays has no length that LENGTH refuses.
pub fn act(
    given: &Rules,
    asked: &[u8],
    m: u16,
    levels: &[u8],
    instant: &mut u32,
    enabled: &mut u64,
    waiting: &mut [u16],
    events: &mut [u16],
)
    requires { instant.old ≤ LAST_INSTANT }
    ensures { Acted
        (rules_of given.now)
        (flat asked.now m) levels.now
        (lent instant.old enabled.old waiting.old events.old)
        (lent instant.new enabled.new waiting.new events.new) }
{
    let counts = given.counts;
    let t = *instant;
    let before = *enabled;
    fill(
        events,
        waiting,
        given.periodics,
        counts.periodics,
        asked,
        m,
        t,
    );
    solver::solve(events, levels, given.triggers, counts.triggers, before);
    refill(
        waiting,
        events,
        given.triggers,
        counts.triggers,
        asked,
        m,
        before,
        t,
    );
    *enabled = roles_after::roles_after(before, events);
    *instant = t + 1;
}
