// What a frame of a tape says: its instant, and its request; of any line, for past its end stands 0.
#![tactic(auto)]

ghost use Rattle.std.specs.Prelude.{◌≡◌};
ghost use Rattle.frames.specs.Frame.{bytes_of};
ghost use Rattle.requests.specs.Asked.{request_of};
ghost use Rattle.tape_frames.specs.Frame.{kind_in, instant_of, asked_in};

use frames::{byte_at, four_at};
use requests::Request;

// The first bytes of a tape's frames.
const ASK: u8 = 0x40;

const TAPE_END: u8 = 0xf1;

// The kinds of a tape's frames: a request, and the end.
#[derive(Clone, Copy, PartialEq, Eq)]
pub enum Kind {
    Ask,
    End,
}

// The kind of a line's frame, which its first byte says; none where that byte is of no kind.
pub fn kind_of(line: &[u8]) -> Option<Kind>
    ensures { result ≡ kind_in (bytes_of line.now) }
{
    match byte_at(line, 0) {
        ASK => Some(Kind::Ask),
        TAPE_END => Some(Kind::End),
        _ => None,
    }
}

// The instant that a line's frame says: a request's, or the last one.
pub fn instant_of(line: &[u8]) -> u32
    ensures { result ≡ instant_of (bytes_of line.now) }
{
    four_at(line, 1)
}

// The request that a line's frame says.
pub fn asked_in(line: &[u8]) -> Request
    ensures { request_of result ≡ asked_in (bytes_of line.now) }
{
    Request {
        event: byte_at(line, 5),
        priority: byte_at(line, 6),
        delay: byte_at(line, 7),
    }
}
