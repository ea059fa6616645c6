// The row of a trigger frame, 13 bytes as its table holds them, with 0 in the places past its counts; of any line, for past its end stands 0.
#![tactic(auto)]

ghost use Rattle.std.specs.Prelude.{◌≡◌, ◌<◌};
ghost use Rattle.frames.specs.Frame.{bytes_of};
ghost use Rattle.trigger_frames.specs.Row.{placed, event_place, condition_place, last_place, trigger_row};

use frames::byte_at;
use tables::TRIGGER_BYTES;

// The byte b at place j of n, and zero past n.
fn placed_at(j: usize, n: usize, b: u8) -> u8
    ensures { result ≡ placed j n b }
{
    if j < n {
        return b;
    }
    0
}

// Place j for events.
fn event_place(line: &[u8], j: usize) -> u8
    requires { j < 4 }
    ensures { result ≡ event_place (bytes_of line.now) j }
{
    placed_at(j, usize::from(byte_at(line, 1)), byte_at(line, 3 + j))
}

// Place j for conditions.
fn condition_place(line: &[u8], j: usize) -> u8
    requires { j < 4 }
    ensures { result ≡ condition_place (bytes_of line.now) j }
{
    placed_at(
        j,
        usize::from(byte_at(line, 2)),
        byte_at(line, 3 + usize::from(byte_at(line, 1)) + j),
    )
}

// Head, priority and delay, which stand last: place j of them.
fn last_place(line: &[u8], j: usize) -> u8
    requires { j < 4 }
    ensures { result ≡ last_place (bytes_of line.now) j }
{
    byte_at(
        line,
        3 + usize::from(byte_at(line, 1)) + usize::from(byte_at(line, 2)) + j,
    )
}

// The row of a trigger frame.
pub fn trigger_row(line: &[u8]) -> [u8; TRIGGER_BYTES]
    ensures { result ≡ trigger_row (bytes_of line.now) }
{
    [
        byte_at(line, 1),
        byte_at(line, 2),
        event_place(line, 0),
        event_place(line, 1),
        event_place(line, 2),
        event_place(line, 3),
        condition_place(line, 0),
        condition_place(line, 1),
        condition_place(line, 2),
        condition_place(line, 3),
        last_place(line, 0),
        last_place(line, 1),
        last_place(line, 2),
    ]
}
