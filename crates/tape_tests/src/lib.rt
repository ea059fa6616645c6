// The tests of a line of a tape, in order: FRAME, CHECK, KIND, TOO MANY, FIELD, REQUEST. The first that fails refuses it, at the place handed in and in its column.
#![tactic(auto)]

ghost use Rattle.std.specs.Prelude.{◌≡◌};
ghost use Rattle.answers.specs.declared.Name.TheVariants.{Request};
ghost use Rattle.line_readers.specs.Order.{in_order};
ghost use Rattle.frames.specs.Frame.{bytes_of};
ghost use Rattle.kinds.specs.Kinds.{kind};
ghost use Rattle.tape_frames.specs.Frame.{instant_of};
ghost use Rattle.tape_tests.specs.Tests.{tape_size, of_tape, room_for_request, in_time, ask_fits, tape_tests, judge_tape};

use answers::{Name, Verdict};
use line_readers::Tests;
use tape_frames::{Kind, asked_in, instant_of, kind_of};

// The last instant of a day is at most this.
const LONGEST_DAY: u32 = 10080;

// The byte of a frame at which its instant begins.
const INSTANT_BYTE: u16 = 1;

// The most requests in a row of one instant.
const REQUESTS: u8 = 32;

// What was read of a tape so far: how many lines of the whole input, the instant of the last request and how many requests in a row are of it, and, once the end was there,
// the last instant that it said. (Before the first request the instant is 0, and none is of it.)
#[derive(Clone, Copy)]
pub struct Heard {
    pub line: u32,
    pub instant: u32,
    pub many: u8,
    pub end: Option<u32>,
}

// How many bytes a line's frame has by its kind; 0 where it is of no kind.
fn size_of(line: &[u8]) -> usize
    ensures { result ≡ tape_size (kind (bytes_of line.now)) }
{
    match kind_of(line) {
        Some(Kind::Ask) => 9,
        Some(Kind::End) => 6,
        None => 0,
    }
}

// A line's frame passes KIND.
fn of_tape(line: &[u8], s: Heard) -> bool
    ensures { result ≡ of_tape s (bytes_of line.now) }
{
    let sized = frames::count(line) == size_of(line);
    sized & s.end.is_none()
}

// A frame of instant t passes TOO MANY.
fn has_room(line: &[u8], t: u32, s: Heard) -> bool
    requires { t ≡ instant_of (bytes_of line.now) }
    ensures { result ≡ room_for_request s (bytes_of line.now) }
{
    match kind_of(line) {
        Some(Kind::Ask) => (t != s.instant) | (s.many < REQUESTS),
        _ => true,
    }
}

// A frame of instant t passes FIELD.
fn in_time(line: &[u8], t: u32, s: Heard) -> bool
    requires { t ≡ instant_of (bytes_of line.now) }
    ensures { result ≡ in_time s (bytes_of line.now) }
{
    match kind_of(line) {
        Some(Kind::End) => (s.instant <= t) & (t <= LONGEST_DAY),
        _ => s.instant <= t,
    }
}

// A line's frame passes REQUEST.
fn ask_fits(line: &[u8], roles: u8) -> bool
    ensures { result ≡ ask_fits roles (bytes_of line.now) }
{
    match kind_of(line) {
        Some(Kind::Ask) => requests::request_fits(roles, asked_in(line)),
        _ => true,
    }
}

// The tests of a line of a tape, in order: FRAME, CHECK, KIND, TOO MANY, FIELD, REQUEST.
fn tape_tested(line: &[u8], roles: u8, s: Heard, place: u32) -> Verdict
    ensures { result ≡ in_order (tape_tests roles s line.now) Request place }
{
    let t = instant_of(line);
    let framed = text::is_framed(line);
    let checked = frames::is_checked(line);
    let kind = of_tape(line, s);
    let room = has_room(line, t, s);
    let field = in_time(line, t, s);
    let request = ask_fits(line, roles);
    let tests = Tests {
        framed,
        checked,
        kind,
        room,
        field,
        last: request,
    };
    line_readers::in_order(tests, Name::Request, place)
}

// The verdict on a line of a tape: the first of its tests that fails refuses it, in its column.
pub fn tape_judged(line: &[u8], roles: u8, s: Heard, place: u32) -> Verdict
    ensures { result ≡ judge_tape place roles s line.now }
{
    tape_tested(line, roles, s, place).map_err(|r| line_readers::in_line(r, line, INSTANT_BYTE))
}
