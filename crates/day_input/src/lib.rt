// A day's input, tested before its first instant: LENGTH, sheet, tape. A refusal; or the tables, the counts, the tape's first byte, the last instant.
#![tactic(auto)]

ghost use Rattle.std.specs.Prelude.{◌≡◌, ◌≤◌, length};
ghost use Rattle.day_input.specs.Opening.{INPUT_BYTES};
ghost use Rattle.day_input.specs.Planned.{planned, by_reading, by_tape, Zeros, opened};

use answers::{Name, Refusal};
use tables::Counts;

// An input has at most so many bytes.
pub const INPUT_BYTES: usize = 65536;

// What an input opens: the counts of its sheet, the byte at which its tape begins, and the last instant.
#[derive(Clone, Copy)]
pub struct Plan {
    pub counts: Counts,
    pub from: usize,
    pub last: u32,
}

// The tape, after the sheet passed: it begins at the byte `from`, after so many lines. (A tape that was read has its end, so that the 0 is never taken.)
fn open_tape(tape: &[u8], counts: Counts, from: usize, before: usize) -> Result<Plan, Refusal>
    requires { (length tape.now ≤ INPUT_BYTES) × (before ≤ INPUT_BYTES) }
    ensures { result ≡ by_tape tape.now counts from before }
{
    let s = tape::read_tape(tape, counts.roles, before as u32)?;
    Ok(Plan {
        counts,
        from,
        last: s.end.unwrap_or(0),
    })
}

// The sheet, and then the tape, of an input that is within its limit.
fn open_within(input: &[u8], periodics: &mut [u8], triggers: &mut [u8]) -> Result<Plan, Refusal>
    requires { (length input.now ≤ INPUT_BYTES) × Zeros periodics.old triggers.old }
    ensures { opened result periodics.new triggers.new ≡ by_reading input.now }
{
    let p = day_split::split(input);
    let from = p.bytes;
    let before = p.lines;
    let counts = reader::read_sheet(&input[0..from], periodics, triggers)?;
    open_tape(&input[from..input.len()], counts, from, before)
}

// Opens an input: LENGTH, then the whole sheet, then the tape. (For `day_print` alone, which lends its own tables, all zero.)
pub fn open(input: &[u8], periodics: &mut [u8], triggers: &mut [u8]) -> Result<Plan, Refusal>
    requires { Zeros periodics.old triggers.old }
    ensures { opened result periodics.new triggers.new ≡ planned input.now }
{
    if input.len() <= INPUT_BYTES {
        return open_within(input, periodics, triggers);
    }
    Err(answers::refusal_of(Name::Length, 0))
}
