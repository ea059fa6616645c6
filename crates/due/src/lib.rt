// The due periodic events: those of the first n rows of any table that are due at the instant t join the events buffer, and nothing else does.
#![tactic(auto)]

ghost use Rattle.std.specs.Prelude.{◌≡◌, ◌+◌, ◌-◌, ◌%◌};
ghost use Rattle.theory.specs.Sheet.{row_due};
ghost use Rattle.periodics.specs.Rows.{periodic_of};
ghost use Rattle.masks.specs.Joins.{joins};
ghost use Rattle.due.specs.Due.{due_at};

use masks::join_where;
use periodics::{PeriodicRow, periodic_row};
use theory::NO_END;
use widths::{index, long};

// (t + period − first) mod period: how far t is into the row's period.
fn residue(t: u32, period: u32, first: u32) -> u64
    ensures { result ≡ (t + period - first) % period }
{
    let sum = long(t) + long(period);
    let from = sum.saturating_sub(long(first));
    from.checked_rem(long(period)).unwrap_or(from)
}

// A periodic row is due at the instant t.
fn row_due(w: PeriodicRow, t: u32) -> bool
    ensures { result ≡ row_due (periodic_of w) t }
{
    let begun = w.begin <= t;
    let lasts = (t <= w.end) | (w.end == NO_END);
    let open = residue(t, w.period, w.first) < long(w.run);
    begun & lasts & open
}

// The due events of the first n rows join the events buffer.
pub fn add_due(events: &mut [u16], periodics: &[u8], n: u16, t: u32)
    ensures { events.new ≡ joins events.old n (due_at periodics.now t) }
{
    for i in 0..n {
        let w = periodic_row(periodics, i);
        let event = index(w.event);
        let priority = w.priority;
        let on = row_due(w, t);
        join_where(events, on, event, priority);
    }
}
