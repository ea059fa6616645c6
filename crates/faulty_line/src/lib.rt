// The line for the screen: of a refusal the line that its place names, without its 0A, as a part of the sheet or of the tape, whichever was refused.
#![tactic(auto)]

ghost use Rattle.std.specs.Prelude.{◌≡◌};
ghost use Rattle.text.specs.Lines.{lines};
ghost use Rattle.faulty_line.specs.Part.{has_line, spot_of, tapes_end, in_tape, faulty_part, shown};

use answers::{Name, Refusal};

// What stands in a text from one byte up to another. Of a line the other is its 0A or the end of the text.
#[derive(Clone, Copy)]
pub struct Span {
    pub from: usize,
    pub to: usize,
}

// A part of the sheet or of the tape.
#[derive(Clone, Copy)]
pub enum Part {
    Sheet(Span),
    Tape(Span),
}

// A refusal of this name is at a line.
fn has_line(name: Name) -> bool
    ensures { result ≡ has_line name }
{
    match name {
        Name::Frame => true,
        Name::Check => true,
        Name::Kind => true,
        Name::Field => true,
        Name::TooMany => true,
        Name::Count => true,
        Name::Request => true,
        Name::Length => false,
        Name::Loop => false,
        Name::Last => false,
    }
}

// The line of a text before which k others stand; or, where the text has too few, how many are left to count.
fn seek(text: &[u8], k: u32) -> Result<Span, u32>
    ensures { result ≡ spot_of 0 k (lines text.now) }
{
    let mut left = k;
    let mut at: usize = 0;
    while let Some(line) = text::line_at(text, at) {
        let to = at + line.len();
        if left == 0 {
            return Ok(Span { from: at, to });
        }
        left -= 1;
        at = to + 1;
    }
    if at < text.len() {
        if left == 0 {
            let to = text.len();
            return Ok(Span { from: at, to });
        }
        return Err(left - 1);
    }
    Err(left)
}

// The empty part at the tape's end.
fn end_of(tape: &[u8]) -> Part
    ensures { result ≡ tapes_end tape.now }
{
    Part::Tape(Span {
        from: tape.len(),
        to: tape.len(),
    })
}

// What a line that was found in the tape is, or else the tape's end.
fn in_tape(tape: &[u8], k: u32) -> Part
    ensures { result ≡ in_tape tape.now (spot_of 0 k (lines tape.now)) }
{
    let s = seek(tape, k);
    match s {
        Ok(g) => Part::Tape(g),
        Err(k) => end_of(tape),
    }
}

// Which part the line of a refusal is. Lines are counted through the sheet and on through the tape; what is no line is the empty part at the tape's end.
pub fn faulty_part(sheet: &[u8], tape: &[u8], r: Refusal) -> Part
    ensures { result ≡ faulty_part sheet.now tape.now r }
{
    let name = r.name;
    if !has_line(name) {
        return end_of(tape);
    }
    if r.place == 0 {
        return end_of(tape);
    }
    let s = seek(sheet, r.place - 1);
    match s {
        Ok(g) => Part::Sheet(g),
        Err(k) => in_tape(tape, k),
    }
}

// The line of a refusal, as a part of the sheet or of the tape. (A contract says of a returned slice what it holds; where it stands is said by `faulty_part`.)
pub fn faulty_line<'a>(sheet: &'a [u8], tape: &'a [u8], r: Refusal) -> &'a [u8]
    ensures { result.now ≡ shown (faulty_part sheet.now tape.now r) sheet.now tape.now }
{
    let p = faulty_part(sheet, tape, r);
    match p {
        Part::Sheet(g) => &sheet[g.from..g.to],
        Part::Tape(g) => &tape[g.from..g.to],
    }
}
