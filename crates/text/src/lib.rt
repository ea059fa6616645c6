// The lines of a text: where each ends, at its 0A or with the text; and FRAME, whether a line is one or more pairs of upper-case hexadecimal digits, and its column.
#![tactic(auto)]

ghost use Rattle.std.specs.Prelude.{◌≡◌, true, ◌+◌, ◌≤◌, length, option_copied, drop};
ghost use Rattle.text.specs.Framed.{is_digit, framed, all_digits, frame_column};
ghost use Rattle.text.specs.Lines.{lines, first_ended, span};

use memchr::memchr;

// The byte that ends a line.
pub const LINE_END: u8 = 0x0a;

// None of the eight characters from i on is a 0A. (All eight are asked, so that the compiler takes them at once.)
fn no_end(text: &[u8], i: usize) -> bool
    requires { i + 8 ≤ length text.now }
    ensures { result ≡ true → span (drop i text.now) ≡ 8 + span (drop (i + 8) text.now) }
{
    let mut none = true;
    for k in 0..8 {
        none = none & (text[i + k] != LINE_END);
    }
    none
}

// Where the line that starts at `at` ends, character by character.
fn end_by_one(text: &[u8], at: usize) -> usize
    ensures { result ≡ at + span (drop at text.now) }
{
    for i in at..text.len() {
        if text[i] == LINE_END {
            return i;
        }
    }
    at.max(text.len())
}

// The same by the library's search.
fn far_end(text: &[u8], at: usize) -> usize
    ensures { result ≡ at + span (drop at text.now) }
{
    match text.get(at..) {
        Some(rest) => at + memchr(LINE_END, rest).unwrap_or(rest.len()),
        None => at,
    }
}

// Where the line that starts at `at` ends: its 0A, or the end of the text. Most ends are near: eights of characters are passed over first, five at most, and the library is asked after them.
// Kept: `while`, for `for` over a range, over one of eights by `step_by`, or so many times, took longer on short lines (docs/LOOK-BACK.md, d1).
pub fn line_end(text: &[u8], at: usize) -> usize
    ensures { result ≡ at + span (drop at text.now) }
{
    if text.len() < 8 {
        return end_by_one(text, at);
    }
    let last = (text.len() - 8).min(at.saturating_add(32));
    let mut i: usize = at;
    while i <= last {
        if !no_end(text, i) {
            return end_by_one(text, i);
        }
        i += 8;
    }
    far_end(text, i)
}

// The line that starts at `at`, without its 0A; none where the text ends before a 0A.
pub fn line_at(text: &[u8], at: usize) -> Option<&[u8]>
    ensures { option_copied result ≡ first_ended (lines (drop at text.now)) }
{
    let to = line_end(text, at);
    if to < text.len() {
        Some(&text[at..to])
    } else {
        None
    }
}

// An upper-case hexadecimal digit.
fn is_digit(c: u8) -> bool
    ensures { result ≡ is_digit c }
{
    let low = (b'0' <= c) & (c <= b'9');
    let high = (b'A' <= c) & (c <= b'F');
    low | high
}

// Each character is a digit. (No character ends the loop: the compiler takes many at once.)
fn all_digits(line: &[u8]) -> bool
    ensures { result ≡ all_digits line.now }
{
    let mut all = true;
    for c in line {
        all = all & is_digit(*c);
    }
    all
}

// The line's characters pass FRAME.
pub fn is_framed(line: &[u8]) -> bool
    ensures { result ≡ framed line.now }
{
    let all = all_digits(line);
    if line.len() == 0 {
        return false;
    }
    if all {
        return line.len() % 2 == 0;
    }
    false
}

// The column of FRAME: that of the first character that is no digit, or of what stands after the line.
pub fn frame_column(line: &[u8]) -> usize
    ensures { result ≡ frame_column line.now }
{
    for (i, c) in line.iter().enumerate() {
        if !is_digit(*c) {
            return i + 1;
        }
    }
    line.len() + 1
}
