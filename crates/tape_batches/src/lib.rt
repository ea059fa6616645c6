// The requests of one instant that stand in a tape at a byte and on, at most 32, as flat numbers; and where the tape goes on.
#![tactic(auto)]

ghost use Rattle.std.specs.Prelude.{◌≡◌, ◌&&◌, ltb, ◌<◌, length, drop};
ghost use Rattle.theory.specs.Numbers.{REQUESTS};
ghost use Rattle.text.specs.Lines.{lines};
ghost use Rattle.frames.specs.Frame.{bytes_of};
ghost use Rattle.requests.specs.Flat.{FLAT_NUMBERS, put_at};
ghost use Rattle.tape_frames.specs.Frame.{asked_in};
ghost use Rattle.tape_batches.specs.Batch.{is_of, takes, rest, none_yet};

use requests::{FLAT_NUMBERS, put};
use tape_frames::{Kind, asked_in, instant_of, kind_of};
use theory::REQUESTS;

// The requests of one instant as flat numbers, how many there are, and where the tape goes on.
#[derive(Clone, Copy)]
pub struct Batch {
    pub asked: [u8; FLAT_NUMBERS],
    pub count: usize,
    pub next: usize,
}

// A line is a request of instant t, and there is room for it after n others.
fn is_one_more(line: &[u8], t: u32, n: usize) -> bool
    ensures { result ≡ (is_of t line.now && ltb n REQUESTS) }
{
    matches!(kind_of(line), Some(Kind::Ask)) & (instant_of(line) == t) & (n < REQUESTS)
}

// The requests of instant t that stand in a tape at `at` and on, at most 32.
pub fn take_batch(tape: &[u8], at: usize, t: u32) -> Batch
    ensures { (result ≡ takes t (lines (drop at tape.now)) (none_yet at))
        × (lines (drop result.next tape.now) ≡ rest t (lines (drop at tape.now)) 0) }
{
    let mut asked = [0u8; FLAT_NUMBERS];
    let mut n: usize = 0;
    let mut next = at;
    while let Some(line) = text::line_at(tape, next) {
        if !is_one_more(line, t, n) {
            break;
        }
        put(&mut asked, n, asked_in(line));
        n += 1;
        next += line.len() + 1;
    }
    Batch {
        asked,
        count: n,
        next,
    }
}
