// Takes cases of the form of second/FORMAT.md, 'A write case', and prints the result of each. A case that is not in the form ends the run
// with the line `bad case`.
#![tactic(auto)]

use answers::Refusal;
use cases::{Stop, four, put, store, take_rows, value};
use tables::Rules;

// ---- the written lines

// The byte that ends a line.
const LINE_END: u8 = 10;

// A byte ends a line.
fn ends_line(b: &u8) -> bool {
    *b == LINE_END
}

// A line with a blank before it and without its end; where the next byte goes.
fn put_text(out: &mut [u8], at: usize, line: &[u8]) -> usize {
    let mut to = store(out, at, 32);
    for &b in line.iter().filter(|b| !ends_line(b)) {
        to = store(out, to, b);
    }
    to
}

// The lines of a text, each without its end and with a blank before it; where the next byte goes.
fn put_lines(out: &mut [u8], at: usize, text: &[u8]) -> usize {
    let mut to = at;
    for line in text.split_inclusive(ends_line) {
        to = put_text(out, to, line);
    }
    to
}

// ---- the result

// The bytes all hold the fill. (Each is asked, so that the compiler takes many at once.)
fn all_fill(bytes: &[u8], fill: u8) -> bool {
    let mut all = true;
    for b in bytes {
        all = all & (*b == fill);
    }
    all
}

// The line of a writing; where it ends. Of a refusal no byte is written. The mark says that every byte of the buffer past what is written holds the
// fill: after a refusal that is the whole buffer.
fn put_result(out: &mut [u8], sent: Result<usize, Refusal>, buffer: &[u8], fill: u8) -> usize {
    let n = sent.unwrap_or(0);
    let (text, rest) = buffer.split_at(n.min(buffer.len()));
    let a = cases::put_answer(out, answers::answer_of(sent.map(|_| ())));
    let b = put(out, a, n, 4);
    let c = put(out, b, text.split_inclusive(ends_line).count(), 4);
    let d = put_lines(out, c, text);
    put(out, d, all_fill(rest, fill) as usize, 1)
}

// Prints the result of a writing. There is room for a buffer that is written full, and for the numbers around its lines.
fn print_result(sent: Result<usize, Refusal>, buffer: &[u8], fill: u8) -> Result<(), Stop> {
    let mut out = [0u8; 33024];
    let n = put_result(&mut out, sent, buffer, fill);
    cases::print(&mut out, n)
}

// ---- a case: its tables are taken, then the line of its buffer; the buffer is lent, and the tables are written into it
//
// The head line and the line of the buffer, with the letters of the form, and where their numbers begin:
//
//     PPPP TTTT RRRRRRRR CCCCCCCC DDDDDDDD GGGG HHHH        OOOO FF
//     0    5    10       19       28       37   42          0    5

// Writes tables into a buffer that holds the fill, and prints the result.
fn try_one(given: &Rules, buffer: &mut [u8], fill: u8) -> Result<(), Stop> {
    let sent = writer::write_sheet(given, buffer);
    print_result(sent, buffer, fill)
}

// The buffer, which holds the fill.
fn with_line(given: &Rules, line: &[u8]) -> Result<(), Stop> {
    let n = four(line, 0) as usize;
    let fill = (value(line, 5, 7) % 256) as u8;
    let mut buffer = [fill; 32768];
    if n > buffer.len() {
        return Err(Stop::BadCase);
    }
    try_one(given, &mut buffer[0..n], fill)
}

// The line of the buffer. Where the input ends before it, the case is not whole.
fn with_tables(given: &Rules) -> Result<(), Stop> {
    let mut line = [0u8; 8];
    cases::take_line(&mut line, b"0000 00\n").or(Err(Stop::BadCase))?;
    with_line(given, &line)
}

// Takes the rows that are given of both tables, which are at most as many as each is lent.
fn take_tables(head: &[u8], periodics: &mut [u8], triggers: &mut [u8]) -> Result<(), Stop> {
    let p = four(head, 37);
    let t = four(head, 42);
    if (p > four(head, 0)) | (t > four(head, 5)) {
        return Err(Stop::BadCase);
    }
    take_rows(periodics, p, 32)?;
    take_rows(triggers, t, 26)
}

// Both tables, which are zero where no row is given.
fn with_head(head: &[u8]) -> Result<(), Stop> {
    let p = 16 * four(head, 0) as usize;
    let t = 13 * four(head, 5) as usize;
    let mut periodics = [0u8; 4096];
    let mut triggers = [0u8; 6656];
    if (p > periodics.len()) | (t > triggers.len()) {
        return Err(Stop::BadCase);
    }
    take_tables(head, &mut periodics, &mut triggers)?;
    let given = Rules {
        counts: cases::counts_at(head, 10),
        periodics: &periodics[0..p],
        triggers: &triggers[0..t],
    };
    with_tables(&given)
}

// The cases, until the input ends or one is not in the form.
fn main() {
    cases::run(
        b"0000 0000 00000000 00000000 00000000 0000 0000\n",
        with_head,
    );
}
