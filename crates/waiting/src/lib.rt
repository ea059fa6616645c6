// The waiting buffer: where an event stands that waits for an instant; an instant's row copied over the events, and cleared.
#![tactic(auto)]

ghost use Rattle.std.specs.Prelude.{◌≡◌, ◌+◌, set};
ghost use Rattle.waiting.specs.Waiting.{place_of, copied, cleared};

use masks::number;
use tables::EVENTS_NUMBERS;
use theory::{EVENTS, WAITING_ROWS};
use widths::{index, long, wide};

// The buffer's number `at` becomes v; past the end nothing is written.
// Kept: the library's `get_mut` says nothing of what the slice ends as.
fn store(buffer: &mut [u16], at: usize, v: u16)
    ensures { buffer.new ≡ set buffer.old at v }
{
    if at < buffer.len() {
        buffer[at] = v;
    }
}

// Where event e stands in the row of d instants after t.
pub fn place(t: u32, d: u8, e: u8) -> usize
    ensures { result ≡ place_of (t + d) e }
{
    let row = (long(t) + long(wide(d))) % WAITING_ROWS;
    EVENTS_NUMBERS * (row as usize) + index(e)
}

// The row of the instant t is copied over the events buffer.
// Kept: `copy_from_slice` asks for a row that is there; what `copied` says holds of buffers of any length.
pub fn copy_row(events: &mut [u16], waiting: &[u16], t: u32)
    ensures { events.new ≡ copied events.old waiting.now t }
{
    for e in 0..EVENTS {
        let mask = number(waiting, place(t, 0, e));
        store(events, index(e), mask);
    }
}

// The row of the instant t is cleared.
// Kept: `fill` asks for a row that is there; what `cleared` says holds of a buffer of any length.
pub fn clear_row(waiting: &mut [u16], t: u32)
    ensures { waiting.new ≡ cleared waiting.old t }
{
    for e in 0..EVENTS {
        store(waiting, place(t, 0, e), 0);
    }
}
