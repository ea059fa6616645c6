// A sheet, alone or before a tape, read and written again, of any bytes: the sheet at the front of the lent buffer, and where the rest begins; or a refusal.
#![tactic(auto)]

ghost use Rattle.std.specs.Prelude.{◌≡◌, ◌≤◌, length};
ghost use Rattle.theory.specs.Numbers.{SHEET_BYTES};
ghost use Rattle.day_input.specs.Opening.{INPUT_BYTES, sheet_reading};
ghost use Rattle.resend.specs.Resend.{AfterReading, ResendOutcome};

use answers::{Name, Refusal, refusal_of};
use day_input::INPUT_BYTES;
use reader::SHEET_BYTES;
use tables::{PERIODIC_TABLE, Rules, TRIGGER_TABLE};

// What was written of an input: how many bytes, and at which byte of the input what follows its sheet begins.
#[derive(Clone, Copy)]
pub struct Resent {
    pub length: usize,
    pub from: usize,
}

// An input and a buffer that have their lengths: what was read is written.
fn resend_within(input: &[u8], out: &mut [u8]) -> Result<Resent, Refusal>
    requires { (length input.now ≤ INPUT_BYTES) × (length out.old ≡ SHEET_BYTES) }
    ensures { AfterReading
        input.now (sheet_reading input.now)
        out.old result out.new }
{
    let mut periodics = [0u8; PERIODIC_TABLE];
    let mut triggers = [0u8; TRIGGER_TABLE];
    let parts = day_split::split(input);
    let from = parts.bytes;
    let counts = reader::read_sheet(&input[0..from], &mut periodics, &mut triggers)?;
    let given = Rules {
        counts,
        periodics: &periodics,
        triggers: &triggers,
    };
    let length = writer::write_sheet(&given, out)?;
    Ok(Resent { length, from })
}

// Reads the sheet of an input and writes it again: LENGTH of the input and of the buffer, then the reader's refusals. After any of them the buffer is what it was.
pub fn resend(input: &[u8], out: &mut [u8]) -> Result<Resent, Refusal>
    ensures { ResendOutcome input.now out.old result out.new }
{
    if INPUT_BYTES < input.len() {
        return Err(refusal_of(Name::Length, 0));
    }
    if out.len() != SHEET_BYTES {
        return Err(refusal_of(Name::Length, 0));
    }
    resend_within(input, out)
}
