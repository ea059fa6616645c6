// The row of a periodic frame, 16 bytes as its table holds them; of any line, for past its end stands 0.
#![tactic(auto)]

ghost use Rattle.std.specs.Prelude.{◌≡◌};
ghost use Rattle.frames.specs.Frame.{bytes_of};
ghost use Rattle.periodic_frames.specs.Row.{periodic_row};

use frames::byte_at;
use tables::PERIODIC_BYTES;

// The row of a periodic frame.
pub fn periodic_row(line: &[u8]) -> [u8; PERIODIC_BYTES]
    ensures { result ≡ periodic_row (bytes_of line.now) }
{
    let mut row = [0u8; PERIODIC_BYTES];
    for (i, b) in row.iter_mut().enumerate() {
        *b = byte_at(line, 1 + i);
    }
    row
}
