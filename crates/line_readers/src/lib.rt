// What the readers of sheets and tapes share: the lines in order, a line's tests in order, of which the first that fails refuses, and the column of a refusal.
#![tactic(auto)]

ghost use Rattle.std.specs.Prelude.{◌≡◌, List, ℕ, ◌+◌, ◌-◌, ◌≤◌, ◌<◌, length};
ghost use Rattle.text.specs.Lines.{lines};
ghost use Rattle.line_readers.specs.Column.{column_of, in_line};
ghost use Rattle.line_readers.specs.Order.{in_order};
ghost use Rattle.line_readers.specs.Walks.{goes, by_verdict, Reader, walks};

use answers::{Name, Refusal, Verdict, refuse};
use widths::row_index;

// The tests of a line, in order: whether it passes FRAME, CHECK, KIND, TOO MANY and FIELD, and a last one, which is COUNT in a sheet and REQUEST in a tape.
#[derive(Clone, Copy)]
pub struct Tests {
    pub framed: bool,
    pub checked: bool,
    pub kind: bool,
    pub room: bool,
    pub field: bool,
    pub last: bool,
}

// The first test of a line that fails gives its refusal. `name` is that of the last.
pub fn in_order(tests: Tests, name: Name, place: u32) -> Verdict
    ensures { result ≡ in_order tests name place }
{
    if !tests.framed {
        return refuse(Name::Frame, place);
    }
    if !tests.checked {
        return refuse(Name::Check, place);
    }
    if !tests.kind {
        return refuse(Name::Kind, place);
    }
    if !tests.room {
        return refuse(Name::TooMany, place);
    }
    if !tests.field {
        return refuse(Name::Field, place);
    }
    if !tests.last {
        return refuse(name, place);
    }
    Ok(())
}

// The column of the last digit but one. (A line that came to CHECK has two.)
fn check_column(line: &[u8]) -> usize
    ensures { result ≡ length line.now - 1 }
{
    if line.len() == 0 {
        return 0;
    }
    line.len() - 1
}

// The column of a refusal by its name, in a line whose first bad field begins at this byte of its frame.
fn column_of(name: Name, line: &[u8], field: u16) -> usize
    ensures { result ≡ column_of name line.now field }
{
    match name {
        Name::Frame => text::frame_column(line),
        Name::Check => check_column(line),
        Name::Field => 2 * row_index(field) + 1,
        Name::Length => 0,
        Name::Kind => 0,
        Name::TooMany => 0,
        Name::Count => 0,
        Name::Loop => 0,
        Name::Request => 0,
        Name::Last => 0,
    }
}

// A refusal of a line, with its column; the line's first bad field begins at this byte of its frame.
pub fn in_line(r: Refusal, line: &[u8], field: u16) -> Refusal
    ensures { result ≡ in_line line.now field r }
{
    let name = r.name;
    answers::in_column(r, column_of(name, line, field))
}

// ---- the lines in order

// A reader of lines: what it read so far, and what a line more makes of that, as a definition says it. It reads so many lines at most.
pub trait LineReader {
    ghost Read: { Type 0 };

    ghost reader: { Self → Reader Read };

    ghost so_far: { Self → Read };

    ghost most: { ℕ };

    // How many lines were read so far.
    fn lines_read(&self) -> u32
        ensures { result ≡ (reader self.now).read (so_far self.now) };

    // One line: its tests, and what it does.
    fn take(&mut self, line: &[u8]) -> Verdict
        requires { (reader self.old).read (so_far self.old) < most }
        ensures taken { by_verdict result (so_far self.new)
            ≡ (reader self.old).takes (so_far self.old) line.now }
        ensures same { reader self.new ≡ reader self.old };

    // After the last line.
    fn at_end(&self) -> Verdict
        requires { (reader self.now).read (so_far self.now) ≤ most }
        ensures { by_verdict result (so_far self.now) ≡ (reader self.now).ends (so_far self.now) };

    ghost one_more: { (r : Self) (s n : Read) (line : List ℕ) → (reader r).takes s line ≡ goes n
        → (reader r).read n ≡ (reader r).read s + 1 };

    ghost few: { most < 4294967296 };
}

// The lines of a text in order, each taken by the reader. A last line with no final 0A is FRAME.
pub fn walk<R: LineReader>(text: &[u8], reader: &mut R) -> Verdict
    requires { (R.reader reader.old).read (R.so_far reader.old) + length text.now ≤ R.most }
    ensures { by_verdict result (R.so_far reader.new)
        ≡ walks (R.reader reader.old) (goes (R.so_far reader.old)) (lines text.now) }
{
    let mut at: usize = 0;
    while let Some(line) = text::line_at(text, at) {
        reader.take(line)?;
        at += line.len() + 1;
    }
    if at < text.len() {
        let r = answers::refusal_of(Name::Frame, reader.lines_read() + 1);
        return Err(in_line(r, &text[at..], 0));
    }
    reader.at_end()
}
