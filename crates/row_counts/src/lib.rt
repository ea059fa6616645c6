// TOO MANY and COUNT of a frame: whether there is room for its row, and whether an end's counts are those of the rows that were read.
#![tactic(auto)]

ghost use Rattle.std.specs.Prelude.{◌≡◌};
ghost use Rattle.frames.specs.Frame.{bytes_of};
ghost use Rattle.tables.specs.Layout.{byte_at, two};
ghost use Rattle.row_counts.specs.Counts.{room_for, counts_agree};

use frames::{byte_at, two_at};
use kinds::{END, PERIODIC, TRIGGER};
use theory::{PERIODIC_ROWS, TRIGGER_ROWS};

// A frame of kind k passes TOO MANY, after so many rows.
pub fn has_room(k: u8, periodics: u16, triggers: u16) -> bool
    ensures { result ≡ room_for k periodics triggers }
{
    if k == PERIODIC {
        return periodics < PERIODIC_ROWS;
    }
    if k == TRIGGER {
        return triggers < TRIGGER_ROWS;
    }
    true
}

// A frame of kind k whose counts are a and b passes COUNT.
fn counts_agree(k: u8, a: u32, b: u32, periodics: u32, triggers: u32) -> bool
    ensures { result ≡ counts_agree k a b periodics triggers }
{
    if k == END {
        return (a == periodics) & (b == triggers);
    }
    true
}

// A line's frame of kind k passes COUNT.
pub fn end_agrees(line: &[u8], k: u8, periodics: u16, triggers: u16) -> bool
    ensures { result
        ≡ counts_agree k (byte_at (bytes_of line.now) 1)
        (two (bytes_of line.now) 2) periodics triggers }
{
    let a = u32::from(byte_at(line, 1));
    let b = two_at(line, 2);
    counts_agree(k, a, b, u32::from(periodics), u32::from(triggers))
}
