// What the programs of the comparison share: cases in the form of second/FORMAT.md are taken from standard input, and the line of a result
// is put together and printed.
#![tactic(auto)]

ghost use Rattle.std.specs.Prelude.{◌≡◌, ◌-◌, ◌%◌, ◌<◌, length, OnOk};
ghost use Rattle.cases.specs.Digits.{value_of, glyph_of, with_digit, number_of, as_form, fits_form};

use answers::Answer;
use tables::{Counts, byte};

// Why a run stops: it ends, or its case is not in the form.
#[derive(Clone, Copy)]
pub enum Stop {
    Ends,
    BadCase,
}

// ---- digits

// The value of a digit, if it is one.
// Kept: `frames` has a digit too, but 0 for what is none, which a form has to tell apart; and a case is read by nothing that the comparison tries.
fn digit(b: u8) -> Option<u8>
    ensures { result ≡ value_of b }
{
    match b {
        b'0'..=b'9' => Some(b - b'0'),
        b'A'..=b'F' => Some(b - (b'A' - 10)),
        _ => None,
    }
}

// The digit of a number's last four bits.
fn glyph(x: usize) -> u8
    ensures { result ≡ glyph_of (x % 16) }
{
    let d = (x % 16) as u8;
    if d < 10 { b'0' + d } else { b'A' - 10 + d }
}

// A number with one digit more; only the last sixteen digits count, and what is no digit counts as 0.
fn with_digit(v: usize, b: u8) -> usize
    ensures { result ≡ with_digit v b }
{
    16 * (v % 1152921504606846976) + digit(b).unwrap_or(0) as usize
}

// The number of the digits at `from` and on, before `to`.
pub fn value(line: &[u8], from: usize, to: usize) -> usize
    ensures { result ≡ number_of line.now from (to - from) }
{
    let mut v: usize = 0;
    for i in from..to {
        v = with_digit(v, byte(line, i));
    }
    v
}

// The number of the four digits at `from` and on.
pub fn four(line: &[u8], from: u8) -> u16
    ensures { result ≡ number_of line.now from 4 }
{
    let at = from as usize;
    (value(line, at, at + 4) % 65536) as u16
}

// ---- counts

// The three counts of a case, the first of whose digits is at `from`. The form has eight digits for each. One that is larger than a table's
// count becomes the largest there is, which is over the limit as well.
pub fn counts_at(line: &[u8], from: u8) -> Counts {
    let at = from as usize;
    Counts {
        roles: u8::try_from(value(line, at, at + 8)).unwrap_or(u8::MAX),
        periodics: u16::try_from(value(line, at + 9, at + 17)).unwrap_or(u16::MAX),
        triggers: u16::try_from(value(line, at + 18, at + 26)).unwrap_or(u16::MAX),
    }
}

// ---- what is taken from the input

// A byte is as the form asks: any digit where it has 0, else the form's own byte.
fn is_as(b: u8, form: u8) -> bool
    ensures { result ≡ as_form b form }
{
    if form == b'0' {
        return digit(b).is_some();
    }
    b == form
}

// A line begins as the form asks.
fn fits(line: &[u8], form: &[u8]) -> bool
    ensures { result ≡ fits_form line.now form.now }
{
    (0..form.len()).all(|i| is_as(byte(line, i), byte(form, i)))
}

// A case goes on only where it is in the form.
fn held(in_form: bool) -> Result<(), Stop> {
    if in_form { Ok(()) } else { Err(Stop::BadCase) }
}

// Takes a line that is as the form asks, if there is room for it. At the end of the input the run ends.
pub fn take_line(line: &mut [u8], form: &[u8]) -> Result<(), Stop> {
    let n = form.len();
    if n > line.len() {
        return Err(Stop::BadCase);
    }
    let got = io::read_full(0, &mut line[0..n]);
    if got == 0 {
        return Err(Stop::Ends);
    }
    held((got == n) & fits(line, form))
}

// Takes n bytes of any values and a line's end, if there is room for them.
// Kept: n stands beside `text`, for the case says it: whether there is room is tested here once, as the clause and the edit `text_without_its_end` say.
pub fn take_text(text: &mut [u8], n: usize) -> Result<(), Stop>
    ensures { OnOk result (n < length text.old) }
{
    if n >= text.len() {
        return Err(Stop::BadCase);
    }
    let got = io::read_full(0, &mut text[0..n + 1]);
    held((got == n + 1) & (byte(text, n) == 10))
}

// Takes a line of at most 32 digits.
fn take_digits(line: &mut [u8], digits: u8) -> Result<(), Stop> {
    let form = [48u8; 32];
    let n = digits as usize;
    if n > form.len() {
        return Err(Stop::BadCase);
    }
    take_text(line, n)?;
    held(fits(line, &form[0..n]))
}

// Takes a line of at most 8 digits; its number.
pub fn take_number(digits: u8) -> Result<usize, Stop> {
    let mut line = [0u8; 33];
    held(digits <= 8)?;
    take_digits(&mut line, digits)?;
    Ok(value(&line, 0, digits as usize))
}

// One byte at `at`, if there is room; where the next one goes.
pub fn store(bytes: &mut [u8], at: usize, b: u8) -> usize {
    if at < bytes.len() {
        bytes[at] = b;
        return at + 1;
    }
    at
}

// The bytes that a line says, two digits each, from `at` on as far as there is room; where the next one goes.
fn store_row(rows: &mut [u8], at: usize, line: &[u8], width: u8) -> usize {
    let mut next = at;
    for j in 0..width {
        let i = 2 * j as usize;
        next = store(rows, next, (value(line, i, i + 2) % 256) as u8);
    }
    next
}

// Takes a list of rows, each a line of at most 32 digits, and puts their bytes one behind the other as far as there is room.
pub fn take_rows(rows: &mut [u8], count: u16, digits: u8) -> Result<(), Stop> {
    let mut at: usize = 0;
    for _ in 0..count {
        let mut line = [0u8; 33];
        take_digits(&mut line, digits)?;
        at = store_row(rows, at, &line, digits / 2);
    }
    Ok(())
}

// ---- what is put out

// The last digits of a number, as many as there is room for.
fn spell(out: &mut [u8], number: usize) {
    let mut x = number;
    for place in out.iter_mut().rev() {
        *place = glyph(x);
        x /= 16;
    }
}

// The last n digits of a number, from `at` on; where the next byte goes. Without room nothing is put.
fn put_digits(out: &mut [u8], at: usize, number: usize, n: usize) -> usize {
    if at <= out.len() {
        if n <= out.len() - at {
            let end = at + n;
            spell(&mut out[at..end], number);
            return end;
        }
    }
    at
}

// A blank and the last digits of a number, from `at` on; where the next byte goes.
pub fn put(out: &mut [u8], at: usize, number: usize, digits: u8) -> usize {
    let n = store(out, at, 32);
    put_digits(out, n, number, digits as usize)
}

// A blank and the bytes of a row, two digits each, from `at` on; where the next byte goes.
pub fn put_row(out: &mut [u8], at: usize, row: &[u8]) -> usize {
    let mut n = store(out, at, 32);
    for &b in row {
        n = put_digits(out, n, b as usize, 2);
    }
    n
}

// The number of an answer and its place, with which a line begins; where the next byte goes.
pub fn put_answer(out: &mut [u8], answer: Answer) -> usize {
    let n = put(out, 0, answer.number as usize, 2);
    put(out, n, answer.place as usize, 8)
}

// Prints what was put before n as a line, without the blank that it begins with. Where it is not printed the run ends.
// Kept: n stands beside `out`, for with `&mut out[..n + 1]` each program would test for itself that the line's end has room.
pub fn print(out: &mut [u8], n: usize) -> Result<(), Stop> {
    if n < out.len() {
        out[n] = 10;
        if io::write_all(1, &out[1..n + 1]) {
            return Ok(());
        }
    }
    Err(Stop::Ends)
}

// ---- the run

// Takes cases until one stops the run, at most a thousand million: of each its head, a line that is as the form asks, and what comes of it.
fn until_stop<const N: usize, F: FnMut(&[u8]) -> Result<(), Stop>>(
    form: &[u8; N],
    mut with_head: F,
) -> Result<(), Stop>
    requires { F.IsAlwaysCallable with_head }
{
    for _ in 0..1000000000 {
        let mut head = [0u8; N];
        take_line(&mut head, form)?;
        with_head(&head)?;
    }
    Ok(())
}

// The cases, until the input ends or one is not in the form. That is said in a line.
pub fn run<const N: usize, F: FnMut(&[u8]) -> Result<(), Stop>>(form: &[u8; N], with_head: F)
    requires any_head { F.IsAlwaysCallable with_head }
{
    if let Err(Stop::BadCase) = until_stop(form, with_head) {
        io::write_all(1, b"bad case\n");
    }
}
