// Reads a tape to its end: the first refusal, at its line in the whole input, or what was heard, with the last instant.
#![tactic(auto)]

ghost use Rattle.std.specs.Prelude.{◌≡◌, true, ◌≤◌, ◌<◌, length};
ghost use Rattle.std.proofs.Common.{rules};
ghost use Rattle.frames.specs.Frame.{bytes_of};
ghost use Rattle.tape_tests.specs.Tests.{room_for_request};
ghost use Rattle.tape_tests.specs.declared.Heard.{Heard};
ghost use Rattle.tape.specs.Tape.{many_with, heard_after, tape_reader, tape_read};
ghost use Rattle.tape.specs.Laws.Line.{line_next};
ghost use Rattle.tape.specs.Took.{took};

use answers::{Name, Refusal, Verdict};
use line_readers::LineReader;
use tape_frames::{Kind, instant_of, kind_of};
use tape_tests::Heard;

// How many requests in a row are of instant t, with one more of it.
fn one_more(s: Heard, t: u32) -> u8
    requires { t ≡ s.instant → s.many < 32 }
    ensures { result ≡ many_with s t }
{
    if t == s.instant {
        return s.many + 1;
    }
    1
}

// What was read after a frame that passed.
fn heard_after(line: &[u8], s: Heard) -> Heard
    requires { (s.line < 131072) × (room_for_request s (bytes_of line.now) ≡ true) }
    ensures { result ≡ heard_after s (bytes_of line.now) }
{
    let t = instant_of(line);
    let line_after = s.line + 1;
    match kind_of(line) {
        Some(Kind::Ask) => Heard {
            line: line_after,
            instant: t,
            many: one_more(s, t),
            end: None,
        },
        _ => Heard {
            line: line_after,
            end: Some(t),
            ..s
        },
    }
}

// A reader of tapes for so many roles, and what it heard so far.
#[derive(Clone, Copy)]
struct TapeReader {
    roles: u8,
    heard: Heard,
}

impl LineReader for TapeReader {
    ghost Read = { Heard };

    ghost reader = { λ r. tape_reader r.roles };

    ghost so_far = { λ r. r.heard };

    ghost most = { 131072 };

    ghost one_more = { λ r. line_next r.roles };

    ghost few = { Prim.search rules };

    fn lines_read(&self) -> u32 {
        self.heard.line
    }

    fn take(&mut self, line: &[u8]) -> Verdict {
        let s = self.heard;
        tape_tests::tape_judged(line, self.roles, s, s.line + 1)?;
        self.heard = heard_after(line, s);
        Ok(())
    }

    fn at_end(&self) -> Verdict {
        let s = self.heard;
        if s.end.is_some() {
            return Ok(());
        }
        answers::refuse(Name::Kind, s.line + 1)
    }
}

// Reads a tape that stands after so many lines of a sheet, for so many roles. (For `day_input` alone, which has tested LENGTH.)
pub fn read_tape(tape: &[u8], roles: u8, before: u32) -> Result<Heard, Refusal>
    requires { (length tape.now ≤ 65536) × (before ≤ 65536) }
    ensures { took result ≡ tape_read roles before tape.now }
{
    let heard = Heard {
        line: before,
        instant: 0,
        many: 0,
        end: None,
    };
    let mut reader = TapeReader { roles, heard };
    line_readers::walk(tape, &mut reader)?;
    Ok(reader.heard)
}
