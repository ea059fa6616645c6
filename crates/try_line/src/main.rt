// Reads cases of the form of second/FORMAT.md, 'A line case', and prints the result of each. A case that is not in the form ends the run
// with the line `bad case`.
#![tactic(auto)]

use answers::{Name, Refusal};
use cases::{Stop, put, value};
use faulty_line::{Part, Span};

// The most bytes of a sheet and of a tape in a case.
const MOST: usize = 0x18000;

// The refusal of a number; LENGTH, which has no line either, for a number that is of none.
// Kept: no number fails here, so a TryFrom would have an error only for its one caller to make LENGTH of.
fn named(number: usize) -> Name {
    match number {
        2 => Name::Frame,
        3 => Name::Check,
        4 => Name::Kind,
        5 => Name::Field,
        6 => Name::TooMany,
        7 => Name::Count,
        8 => Name::Loop,
        9 => Name::Request,
        10 => Name::Last,
        _ => Name::Length,
    }
}

// A line is what stands there in the text.
fn is_part(line: &[u8], text: &[u8], g: Span) -> bool {
    text.get(g.from..g.to) == Some(line)
}

// The line that is returned is the part that is told.
fn agrees<'a>(sheet: &'a [u8], tape: &'a [u8], r: Refusal, p: Part) -> bool {
    let line = faulty_line::faulty_line(sheet, tape, r);
    match p {
        Part::Sheet(g) => is_part(line, sheet, g),
        Part::Tape(g) => is_part(line, tape, g),
    }
}

// The number of the text that a part is of, and where in it the part stands.
fn told(p: Part) -> (usize, Span) {
    match p {
        Part::Sheet(g) => (0, g),
        Part::Tape(g) => (1, g),
    }
}

// Prints the result: which text, from where, up to where. A part that is not the line returned is told as of text 2, which there is not.
fn try_refusal<'a>(sheet: &'a [u8], tape: &'a [u8], r: Refusal) -> Result<(), Stop> {
    let mut out = [0u8; 64];
    let p = faulty_line::faulty_part(sheet, tape, r);
    let (text, g) = told(p);
    let which = if agrees(sheet, tape, r, p) { text } else { 2 };
    let a = put(&mut out, 0, which, 1);
    let b = put(&mut out, a, g.from, 8);
    let n = put(&mut out, b, g.to, 8);
    cases::print(&mut out, n)
}

// The two texts.
//
//     SSSSSSSS TTTTTTTT AA LLLLLLLL
//     0        9        18 21
fn with_head(head: &[u8]) -> Result<(), Stop> {
    let s = value(head, 0, 8);
    let t = value(head, 9, 17);
    let name = named(value(head, 18, 20));
    let place = (value(head, 21, 29) % 0x100000000) as u32;
    if (s > MOST) | (t > MOST) {
        return Err(Stop::BadCase);
    }
    let end = s + t;
    let mut room = [0u8; 2 * MOST + 1];
    cases::take_text(&mut room, end)?;
    try_refusal(&room[0..s], &room[s..end], answers::refusal_of(name, place))
}

// The cases, until the input ends or one is not in the form.
fn main() {
    cases::run(b"00000000 00000000 00 00000000\n", with_head);
}
