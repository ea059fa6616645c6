// Reads any bytes into tables of any lengths: the first refusal in document 01's order, the tables as they came; or the counts, and the rows in them.
#![tactic(auto)]

ghost use Rattle.std.specs.Prelude.{◌≡◌, ◌≤◌, length};
ghost use Rattle.std.proofs.Common.{rules};
ghost use Rattle.theory.specs.Numbers.{SHEET_BYTES};
ghost use Rattle.text.specs.Lines.{lines};
ghost use Rattle.line_readers.specs.Walks.{goes};
ghost use Rattle.sheet_acts.specs.Acts.{Progress, progress};
ghost use Rattle.reader.specs.Answer.{verdict_of};
ghost use Rattle.reader.specs.Lines.{sheet_reader, reads};
ghost use Rattle.reader.specs.Laws.OneMore.{line_next};
ghost use Rattle.reader.specs.Out.{read_outcome, after_lines};
ghost use Rattle.reader.specs.Reading.{start, by_lines, sheet_lengths_fit, reading};

use answers::{Name, Refusal, Verdict, refusal_of};
use kinds::Stage;
use line_readers::LineReader;
use sheet_tests::Seen;
use tables::{Counts, PERIODIC_TABLE, TRIGGER_TABLE};

// A sheet has at most so many bytes.
pub const SHEET_BYTES: usize = 16384;

// The reader's answer as a verdict, which `answers` turns into document 01's numbers.
// Kept: `map` to `()` by a name, of which claims/Functions has a theorem and two edits speak.
pub fn verdict_of(reading: Result<Counts, Refusal>) -> Verdict
    ensures { result ≡ verdict_of reading }
{
    reading?;
    Ok(())
}

// ---- the lines in order

// A reader of sheets: what it read so far, into tables of its own. (What they hold after a refusal nobody asks.)
#[derive(Drop)]
struct SheetReader {
    seen: Seen,
    periodics: [u8; PERIODIC_TABLE],
    triggers: [u8; TRIGGER_TABLE],
}

impl LineReader for SheetReader {
    ghost Read = { Progress };

    ghost reader = { λ r. sheet_reader };

    ghost so_far = { λ r. progress r.seen r.periodics r.triggers };

    ghost most = { SHEET_BYTES };

    ghost one_more = { λ r. line_next };

    ghost few = { Prim.search rules };

    fn lines_read(&self) -> u32 {
        self.seen.line
    }

    fn take(&mut self, line: &[u8]) -> Verdict {
        let s = self.seen;
        sheet_tests::line_judged(line, s, s.line + 1)?;
        self.seen = sheet_acts::act(line, s, &mut self.periodics, &mut self.triggers);
        Ok(())
    }

    fn at_end(&self) -> Verdict {
        let place = self.seen.line + 1;
        let stage = self.seen.stage;
        match stage {
            Stage::Start => answers::refuse(Name::Kind, place),
            Stage::Rows => answers::refuse(Name::Kind, place),
            Stage::Ended => Ok(()),
        }
    }
}

// ---- after the last line

// After the last line: LOOP is tested, and what passed is handed out.
fn hand_out(
    read: &SheetReader,
    periodics: &mut [u8; PERIODIC_TABLE],
    triggers: &mut [u8; TRIGGER_TABLE],
) -> Result<Counts, Refusal>
    ensures { read_outcome result periodics.new triggers.new
        ≡ after_lines (progress read.now.seen read.now.periodics read.now.triggers) periodics.old triggers.old }
{
    let counts = read.seen.counts;
    let judged = table_judge::loop_judged(&read.triggers, counts.triggers);
    judged.verdict?;
    *periodics = read.periodics;
    *triggers = read.triggers;
    Ok(counts)
}

// ---- the whole reading

// Before the first line: nothing was read, and the tables are all zero.
fn start() -> SheetReader
    ensures { progress result.seen result.periodics result.triggers ≡ start }
{
    let counts = Counts {
        roles: 0,
        periodics: 0,
        triggers: 0,
    };
    let seen = Seen {
        line: 0,
        stage: Stage::Start,
        counts,
    };
    SheetReader {
        seen,
        periodics: [0; PERIODIC_TABLE],
        triggers: [0; TRIGGER_TABLE],
    }
}

// Reads a sheet that is within its limit.
fn read_within(
    sheet: &[u8],
    periodics: &mut [u8; PERIODIC_TABLE],
    triggers: &mut [u8; TRIGGER_TABLE],
) -> Result<Counts, Refusal>
    requires { length sheet.now ≤ SHEET_BYTES }
    ensures { read_outcome result periodics.new triggers.new
        ≡ by_lines (reads (goes start) (lines sheet.now)) periodics.old triggers.old }
{
    let mut reader = start();
    line_readers::walk(sheet, &mut reader)?;
    hand_out(&reader, periodics, triggers)
}

// A sheet and the lent tables, of these lengths, pass LENGTH.
fn sheet_lengths_fit(sheet: usize, periodics: usize, triggers: usize) -> bool
    ensures { result ≡ sheet_lengths_fit sheet periodics triggers }
{
    (sheet <= SHEET_BYTES) & ((periodics == PERIODIC_TABLE) & (triggers == TRIGGER_TABLE))
}

// Reads a sheet: the answer, and on OK the tables. After any refusal they are what they were.
pub fn read_sheet(
    sheet: &[u8],
    periodics: &mut [u8],
    triggers: &mut [u8],
) -> Result<Counts, Refusal>
    ensures { read_outcome result periodics.new triggers.new
        ≡ reading sheet.now periodics.old triggers.old }
{
    if sheet_lengths_fit(sheet.len(), periodics.len(), triggers.len()) {
        let per = periodics.as_mut_array().unwrap();
        let trg = triggers.as_mut_array().unwrap();
        return read_within(sheet, per, trg);
    }
    Err(refusal_of(Name::Length, 0))
}
