// A frame as its line, two digits a byte, then the check and 0A, laid over a buffer where it fits. What is printed so reads back.
#![tactic(auto)]

ghost use Rattle.std.specs.Prelude.{◌≡◌, [], ◌∷◌, ◌+◌, ◌*◌, ◌%◌, ◌≤◌, ◌<◌, length};
ghost use Rattle.std.proofs.Math.Seq.{paste};
ghost use Rattle.frames.specs.Frame.{sum};
ghost use Rattle.prints.specs.Print.{digit_of, hex_of, check_of, line_of};

use frames::TEN_BELOW_A;
use text::LINE_END;

// The character of a digit.
fn glyph(d: u8) -> u8
    requires { d < 16 }
    ensures { result ≡ digit_of d }
{
    if d < 10 {
        return b'0' + d;
    }
    TEN_BELOW_A + d
}

// The sum of the frame's bytes, less the multiples of 256.
// Kept beside the `total` of `frames`: that sums what pairs of characters stand for as it goes, and makes no bytes of them.
fn total(frame: &[u8]) -> u8
    ensures { result ≡ sum frame.now % 256 }
{
    let mut sum: u8 = 0;
    for b in frame {
        sum = sum.wrapping_add(*b);
    }
    sum
}

// The frame's last byte.
fn check_of(frame: &[u8]) -> u8
    ensures { result ≡ check_of frame.now }
{
    total(frame).wrapping_neg()
}

// A byte's two digits over the buffer's bytes from `at` on.
fn put_byte(out: &mut [u8], at: usize, b: u8)
    requires { at + 2 ≤ length out.old }
    ensures { out.new ≡ paste out.old at (hex_of (b ∷ [])) 2 }
{
    let first = glyph(b / 16);
    let second = glyph(b % 16);
    out[at] = first;
    out[at + 1] = second;
}

// The digits of a frame over the buffer's bytes from `at` on.
fn put_hex(out: &mut [u8], at: usize, frame: &[u8])
    requires { at + 2 * length frame.now ≤ length out.old }
    ensures { out.new ≡ paste out.old at (hex_of frame.now) (2 * length frame.now) }
{
    for (j, b) in frame.iter().enumerate() {
        put_byte(out, at + 2 * j, *b);
    }
}

// A frame's line over the buffer's bytes from `at` on. (For the day and the writer, which have shown that it fits.)
pub fn put_line(out: &mut [u8], at: usize, frame: &[u8])
    requires { at + (2 * length frame.now + 3) ≤ length out.old }
    ensures { out.new
        ≡ paste out.old at (line_of frame.now) (length (line_of frame.now)) }
{
    let end = at + 2 * frame.len();
    put_hex(out, at, frame);
    put_byte(out, end, check_of(frame));
    out[end + 2] = LINE_END;
}
