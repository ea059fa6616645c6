// Buffers of masks of priorities: the number at a place, 0 past the end, and a priority joined to it. What is no place or no priority joins nothing.
#![tactic(auto)]

ghost use Rattle.std.specs.Prelude.{◌≡◌, get_or};
ghost use Rattle.masks.specs.Masks.{with_priority, joined_at};
ghost use Rattle.masks.specs.Joins.{joined_where};

use tables::at_or;
use theory::PRIORITIES;

// The number at i; 0 past the end.
pub fn number(buffer: &[u16], i: usize) -> u16
    ensures { result ≡ get_or buffer.now i 0 }
{
    at_or(buffer, i, 0)
}

// The mask with the priority p.
fn with_priority(mask: u16, p: u8) -> u16
    ensures { result ≡ with_priority mask p }
{
    if p < PRIORITIES {
        mask | (1 << p)
    } else {
        mask
    }
}

// The priority p joins the buffer's number `at`; past the end nothing is written.
fn join(buffer: &mut [u16], at: usize, p: u8)
    ensures { buffer.new ≡ joined_at buffer.old at p }
{
    if at < buffer.len() {
        buffer[at] = with_priority(buffer[at], p);
    }
}

// The same where `on`; else nothing is written.
pub fn join_where(buffer: &mut [u16], on: bool, at: usize, p: u8)
    ensures { buffer.new ≡ joined_where buffer.old (record { on = on; at = at; priority = p }) }
{
    if on {
        join(buffer, at, p);
    }
}
