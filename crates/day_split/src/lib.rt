// The input of a day in two parts: its sheet goes to the end of the first line that begins with F0, or is all of it; the rest is tape.
#![tactic(auto)]

ghost use Rattle.std.specs.Prelude.{◌≡◌, ◌≤◌, length};
ghost use Rattle.text.specs.Lines.{lines};
ghost use Rattle.day_split.specs.Split.{begins_end};
ghost use Rattle.day_split.specs.Parted.{parted};

use tables::byte;

// How many bytes of an input are its sheet, and how many lines.
#[derive(Clone, Copy)]
pub struct Parts {
    pub bytes: usize,
    pub lines: usize,
}

// A line begins with F0.
fn begins_end(line: &[u8]) -> bool
    ensures { result ≡ begins_end line.now }
{
    (byte(line, 0) == b'F') & (byte(line, 1) == b'0')
}

// Where the sheet ends: after the first line that begins with F0, or with the input.
pub fn split(input: &[u8]) -> Parts
    ensures { (result ≡ parted 0 0 (lines input.now))
        × ((result.bytes ≤ length input.now) × (result.lines ≤ length input.now)) }
{
    let mut n: usize = 0;
    let mut at: usize = 0;
    while let Some(line) = text::line_at(input, at) {
        n += 1;
        at += line.len() + 1;
        if begins_end(line) {
            return Parts {
                bytes: at,
                lines: n,
            };
        }
    }
    if at < input.len() {
        return Parts {
            bytes: input.len(),
            lines: n + 1,
        };
    }
    Parts {
        bytes: at,
        lines: n,
    }
}
