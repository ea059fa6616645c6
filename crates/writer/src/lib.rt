// Writes lent tables as a sheet, whatever is lent: the first refusal in a step's order, and the buffer as it came; or the sheet at its front.
#![tactic(auto)]

ghost use Rattle.std.specs.Prelude.{◌≡◌, List, ℕ, ◌+◌, ◌*◌, ◌≤◌, ◌<◌, length};
ghost use Rattle.theory.specs.Numbers.{SHEET_BYTES};
ghost use Rattle.theory.specs.Sheet.{GoodOrder};
ghost use Rattle.tables.specs.Lent.{rules_of, sheet_in};
ghost use Rattle.tables.specs.Layout.{PERIODIC_BYTES, TRIGGER_BYTES, byte_at};
ghost use Rattle.prints.specs.Print.{line_of};
ghost use Rattle.writer.specs.Outcome.{write_lengths_fit, judge_writing, WriteOutcome};
ghost use Rattle.writer.specs.Made.{header_frame, periodic_frame, row_place, body_size, trigger_whole, body_frame, end_frame, text_below, periodic_text, trigger_text, sheet_text, Puts, AnyRow, FewInBody};
ghost use Rattle.writer.specs.Laws.Long.{periodic_short, trigger_short};

use answers::{Name, Refusal, Verdict, refuse};
use fields::VERSION;
use kinds::{END, HEADER, PERIODIC, TRIGGER};
use reader::SHEET_BYTES;
use std::array;
use tables::{Counts, PERIODIC_BYTES, PERIODIC_TABLE, Rules, TRIGGER_BYTES, TRIGGER_TABLE, byte};
use widths::{index, row_index};

// The bytes of frames without their check; of a trigger's at most so many.
const HEADER_FRAME: usize = 3;

const PERIODIC_FRAME: usize = 1 + PERIODIC_BYTES;

const TRIGGER_FRAME: usize = 1 + TRIGGER_BYTES;

const END_FRAME: usize = 4;

// ---- frames

// The frame of the header.
fn header_frame(roles: u8) -> [u8; HEADER_FRAME]
    ensures { result ≡ header_frame roles }
{
    [HEADER, VERSION, roles]
}

// The frame of the periodic row that begins at `at`.
fn periodic_frame(table: &[u8], at: usize) -> [u8; PERIODIC_FRAME]
    requires { at ≤ PERIODIC_BYTES * 65535 }
    ensures { result ≡ periodic_frame table.now at }
{
    array::from_fn(|k| {
        if k == 0 {
            PERIODIC
        } else {
            byte(table, at + k - 1)
        }
    })
}

// Which byte of its row is byte k of a trigger's frame, with e events and c conditions.
// Kept: `trigger_whole` (writer/Made) and the edit `conditions_one_early` speak of the place of each byte; three copies of parts of a row would say no more plainly which stands where.
fn place_of(e: usize, c: usize, k: usize) -> usize
    requires { (e ≤ 4) × ((c ≤ 4) × ((1 ≤ k) × (k ≤ 13))) }
    ensures { (result ≡ row_place e c k) × (result ≤ 20) }
{
    if k < 3 + e {
        return k - 1;
    }
    if k < 3 + e + c {
        return k + 3 - e;
    }
    k + 7 - e - c
}

// The longest frame of the trigger whose row begins at `at`; with e events and c conditions the first bytes of it are used.
fn trigger_whole(table: &[u8], at: usize, e: usize, c: usize) -> [u8; TRIGGER_FRAME]
    requires { (at ≤ TRIGGER_BYTES * 65535) × ((e ≤ 4) × (c ≤ 4)) }
    ensures { result ≡ trigger_whole table.now at e c }
{
    array::from_fn(|k| {
        if k == 0 {
            TRIGGER
        } else {
            byte(table, at + place_of(e, c, k))
        }
    })
}

// How many bytes the frame of a trigger has, with e events and c conditions.
fn trigger_size(e: usize, c: usize) -> usize
    requires { (e ≤ 4) × (c ≤ 4) }
    ensures { result ≡ body_size e c }
{
    6 + e + c
}

// The frame of the end.
fn end_frame(counts: Counts) -> [u8; END_FRAME]
    ensures { result ≡ end_frame counts.periodics counts.triggers }
{
    [
        END,
        (counts.periodics % 256) as u8,
        (counts.triggers / 256 % 256) as u8,
        (counts.triggers % 256) as u8,
    ]
}

// ---- lines

// A frame's line into the buffer at `at`; the place after it.
fn put(out: &mut [u8; SHEET_BYTES], at: usize, frame: &[u8]) -> usize
    requires { at + (2 * length frame.now + 3) ≤ SHEET_BYTES }
    ensures { Puts out.old at (line_of frame.now) out.new result }
{
    prints::put_line(out, at, frame);
    at + 2 * frame.len() + 3
}

// The line of the trigger whose row begins at `from`, with e events and c conditions.
fn put_body(
    out: &mut [u8; SHEET_BYTES],
    at: usize,
    table: &[u8],
    from: usize,
    e: usize,
    c: usize,
) -> usize
    requires { (at + 31 ≤ SHEET_BYTES) × ((from ≤ TRIGGER_BYTES * 65535) × ((e ≤ 4) × (c ≤ 4))) }
    ensures { Puts out.old at (line_of (body_frame table.now from e c)) out.new result }
{
    let frame = trigger_whole(table, from, e, c);
    let size = trigger_size(e, c);
    put(out, at, &frame[0..size])
}

// How the rows of a table are written: the line of a row that is good to be written, and the most bytes of such a line.
trait Rows {
    ghost text: { List ℕ → ℕ → List ℕ };

    ghost good: { List ℕ → ℕ → Type 0 };

    ghost most: { ℕ };

    // Row i into the buffer at `at`; the place after it.
    fn put_row(out: &mut [u8; SHEET_BYTES], at: usize, table: &[u8], i: u16) -> usize
        requires { (at + most ≤ SHEET_BYTES) × good table.now i }
        ensures { Puts out.old at (text table.now i) out.new result };

    ghost short: { (table : List ℕ) (i : ℕ) → good table i → length (text table i) ≤ most };
}

// The rows of a periodic table.
struct Periodics;

impl Rows for Periodics {
    ghost text = { periodic_text };

    ghost good = { AnyRow };

    ghost most = { 37 };

    ghost short = { periodic_short };

    fn put_row(out: &mut [u8; SHEET_BYTES], at: usize, table: &[u8], i: u16) -> usize {
        let frame = periodic_frame(table, PERIODIC_BYTES * row_index(i));
        put(out, at, &frame)
    }
}

// The rows of a trigger table.
struct Triggers;

impl Rows for Triggers {
    ghost text = { trigger_text };

    ghost good = { FewInBody };

    ghost most = { 31 };

    ghost short = { trigger_short };

    fn put_row(out: &mut [u8; SHEET_BYTES], at: usize, table: &[u8], i: u16) -> usize {
        let from = TRIGGER_BYTES * row_index(i);
        let e = index(byte(table, from));
        let c = index(byte(table, from + 1));
        put_body(out, at, table, from, e, c)
    }
}

// The lines of the first n rows of a table, which holds bytes.
fn put_rows<R: Rows>(out: &mut [u8; SHEET_BYTES], at: usize, table: &[u8], n: u16) -> usize
    requires room { at + R.most * n ≤ SHEET_BYTES }
    requires good { (i : ℕ) → i < n → R.good table.now i }
    ensures puts { Puts out.old at (text_below n (R.text table.now)) out.new result }
    ensures bytes { (i : ℕ) → byte_at table.now i < 256 }
{
    let mut to: usize = at;
    for i in 0..n {
        to = R::put_row(out, to, table, i);
    }
    to
}

// The whole sheet at the front of the buffer; how many bytes it has. Both tables hold bytes.
fn put_sheet(given: &Rules, out: &mut [u8; SHEET_BYTES]) -> usize
    requires { GoodOrder (sheet_in (rules_of given.now)) }
    ensures puts { Puts out.old 0 (sheet_text (rules_of given.now)) out.new result }
    ensures periodic_bytes { (i : ℕ) → byte_at given.now.periodics.now i < 256 }
    ensures trigger_bytes { (i : ℕ) → byte_at given.now.triggers.now i < 256 }
{
    let counts = given.counts;
    let first = header_frame(counts.roles);
    let last = end_frame(counts);
    let a = put(out, 0, &first);
    let b = put_rows::<Periodics>(out, a, given.periodics, counts.periodics);
    let c = put_rows::<Triggers>(out, b, given.triggers, counts.triggers);
    put(out, c, &last)
}

// ---- the whole writing

// Lent tables and a lent buffer, of these lengths, pass LENGTH.
fn write_lengths_fit(periodics: usize, triggers: usize, out: usize) -> bool
    ensures { result ≡ write_lengths_fit periodics triggers out }
{
    (periodics == PERIODIC_TABLE) & ((triggers == TRIGGER_TABLE) & (out == SHEET_BYTES))
}

// LENGTH, TOO MANY, FIELD, LOOP, in this order.
fn judge_writing(given: &Rules, out: usize) -> Verdict
    ensures { result ≡ judge_writing (rules_of given.now) out }
{
    if write_lengths_fit(given.periodics.len(), given.triggers.len(), out) {
        let judged = table_judge::judge(given);
        let verdict = judged.verdict;
        return verdict;
    }
    refuse(Name::Length, 0)
}

// Writes a sheet: on OK it stands at the front of the buffer, in so many bytes. After any refusal the buffer is what it was.
pub fn write_sheet(given: &Rules, out: &mut [u8]) -> Result<usize, Refusal>
    ensures { WriteOutcome (rules_of given.now) out.old result out.new }
{
    judge_writing(given, out.len())?;
    let whole = out.as_mut_array().unwrap();
    Ok(put_sheet(given, whole))
}
