// Reads cases of the form of second/FORMAT.md, 'A read case', and prints the result of each. A case that is not in the form ends the run
// with the line `bad case`.
#![tactic(auto)]

use answers::Refusal;
use cases::{Stop, four, put, put_row, value};
use tables::{Counts, Rules, byte};

// ---- the mark

// The bytes at `from` and on, before `to`, are all b.
fn all_are(table: &[u8], from: usize, to: usize, b: u8) -> bool {
    (from..to).all(|i| byte(table, i) == b)
}

// All from `from` on are b.
fn all_past(table: &[u8], from: usize, b: u8) -> bool {
    all_are(table, from, table.len(), b)
}

// The event and condition places of trigger i past its counts are zero.
fn is_bare(triggers: &[u8], i: u16) -> bool {
    let at = 13 * i as usize;
    let events = at + 2 + byte(triggers, at) as usize;
    let conditions = at + 6 + byte(triggers, at + 1) as usize;
    all_are(triggers, events, at + 6, 0) & all_are(triggers, conditions, at + 10, 0)
}

// That holds of each of the first n triggers.
fn are_bare(triggers: &[u8], n: u16) -> bool {
    (0..n).all(|i| is_bare(triggers, i))
}

// The mark after OK: what is past the used rows is zero, and each unused place in them.
fn rest_is_zero(rules: &Rules) -> bool {
    let n = rules.counts.triggers;
    let periodics = all_past(rules.periodics, 16 * rules.counts.periodics as usize, 0);
    let triggers = all_past(rules.triggers, 13 * n as usize, 0);
    periodics & triggers & are_bare(rules.triggers, n)
}

// The mark after a refusal: both tables hold the fill.
fn is_as_given(rules: &Rules, fill: u8) -> bool {
    all_past(rules.periodics, 0, fill) & all_past(rules.triggers, 0, fill)
}

// The mark.
fn mark_of(reading: Result<Counts, Refusal>, rules: &Rules, fill: u8) -> bool {
    if reading.is_ok() {
        rest_is_zero(rules)
    } else {
        is_as_given(rules, fill)
    }
}

// ---- the result

// The counts, which are zero after a refusal.
fn counts_of(reading: Result<Counts, Refusal>) -> Counts {
    reading.unwrap_or(Counts {
        roles: 0,
        periodics: 0,
        triggers: 0,
    })
}

// The three counts.
fn put_counts(out: &mut [u8], at: usize, counts: Counts) -> usize {
    let a = put(out, at, counts.roles as usize, 2);
    let b = put(out, a, counts.periodics as usize, 2);
    put(out, b, counts.triggers as usize, 4)
}

// The first rows of a table, as many as it has.
fn put_rows<const WIDTH: usize>(
    out: &mut [u8],
    at: usize,
    rows: &[[u8; WIDTH]],
    count: u16,
) -> usize {
    let mut n = at;
    for row in rows.iter().take(count as usize) {
        n = put_row(out, n, row);
    }
    n
}

// The line of a reading; where it ends.
fn put_result(
    out: &mut [u8],
    reading: Result<Counts, Refusal>,
    rules: &Rules,
    mark: bool,
) -> usize {
    let counts = rules.counts;
    let answer = answers::answer_of(reader::verdict_of(reading));
    let n = cases::put_answer(out, answer);
    let a = put(out, n, answer.column, 8);
    let b = put_counts(out, a, counts);
    let c = put_rows(
        out,
        b,
        rules.periodics.as_chunks::<16>().0,
        counts.periodics,
    );
    let d = put_rows(out, c, rules.triggers.as_chunks::<13>().0, counts.triggers);
    put(out, d, mark as usize, 1)
}

// Prints the result of a reading.
fn print_result(reading: Result<Counts, Refusal>, rules: &Rules, fill: u8) -> Result<(), Stop> {
    let mut out = [0u8; 12288];
    let mark = mark_of(reading, rules, fill);
    let n = put_result(&mut out, reading, rules, mark);
    cases::print(&mut out, n)
}

// ---- a case: its sheet is taken, its tables are lent, and the sheet is read into them
//
// The head line, with the letters of the form, and where its numbers begin:
//
//     SSSSSSSS PPPP TTTT FF
//     0        9    14   19

// Reads a sheet into tables that hold the fill, and prints the result.
fn try_sheet(
    sheet: &[u8],
    periodics: &mut [u8],
    triggers: &mut [u8],
    fill: u8,
) -> Result<(), Stop> {
    let reading = reader::read_sheet(sheet, periodics, triggers);
    let rules = Rules {
        counts: counts_of(reading),
        periodics,
        triggers,
    };
    print_result(reading, &rules, fill)
}

// Both tables, which hold the fill.
fn with_sheet(head: &[u8], sheet: &[u8]) -> Result<(), Stop> {
    let p = 16 * four(head, 9) as usize;
    let t = 13 * four(head, 14) as usize;
    let fill = (value(head, 19, 21) % 256) as u8;
    if (p > 4096) | (t > 6656) {
        return Err(Stop::BadCase);
    }
    let mut periodics = [fill; 4096];
    let mut triggers = [fill; 6656];
    try_sheet(sheet, &mut periodics[0..p], &mut triggers[0..t], fill)
}

// The sheet.
fn with_head(head: &[u8]) -> Result<(), Stop> {
    let n = value(head, 0, 8);
    let mut room = [0u8; 32769];
    cases::take_text(&mut room, n)?;
    with_sheet(head, &room[0..n])
}

// The cases, until the input ends or one is not in the form.
fn main() {
    cases::run(b"00000000 0000 0000 00\n", with_head);
}
