// What requests add: those without a delay join the events, those with one join the row of their instant in the waiting buffer.
#![tactic(auto)]

ghost use Rattle.std.specs.Prelude.{◌≡◌};
ghost use Rattle.tables.specs.Asked.{request_at};
ghost use Rattle.masks.specs.Joins.{joins};
ghost use Rattle.asked.specs.Adds.{given_entry, wait_entry};

use masks::join_where;
use requests::request_at;
use waiting::place;
use widths::index;

// Of the first n requests those with delay 0 join the events buffer.
pub fn add_asked(events: &mut [u16], asked: &[u8], n: u16)
    ensures { events.new ≡ joins events.old n (λ k. given_entry (request_at asked.now k)) }
{
    for k in 0..n {
        let r = request_at(asked, k);
        join_where(events, r.delay == 0, index(r.event), r.priority);
    }
}

// Of the first n requests those with a delay join the waiting buffer.
// Kept: one loop for this and `add_asked` would take test and place from closures, and be longer than the two.
pub fn wait_asked(waiting: &mut [u16], asked: &[u8], n: u16, t: u32)
    ensures { waiting.new ≡ joins waiting.old n (λ k. wait_entry t (request_at asked.now k)) }
{
    for k in 0..n {
        let r = request_at(asked, k);
        join_where(waiting, 0 < r.delay, place(t, r.delay, r.event), r.priority);
    }
}
