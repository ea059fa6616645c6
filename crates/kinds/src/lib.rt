// KIND: whether a frame has the byte count of its kind, and may stand where it does: the header first, then rows, then the end and nothing more.
#![tactic(auto)]

ghost use Rattle.std.specs.Prelude.{◌≡◌, ◌&&◌, ◌<◌};
ghost use Rattle.frames.specs.Frame.{bytes_of};
ghost use Rattle.kinds.specs.Kinds.{size_of, sized, may_stand};

use frames::byte_at;

// The kinds of a sheet's frames, which are their first bytes.
// Kept: `is_kind`, `has_room`, `frame_fits` and `bad_byte` promise their answer of every first byte a line can have, so that an enum would need a variant for each byte that is no kind.
pub const HEADER: u8 = 0x10;

pub const PERIODIC: u8 = 0x20;

pub const TRIGGER: u8 = 0x30;

pub const END: u8 = 0xf0;

// Which frames may come next: the header, rows and the end, or nothing more.
#[derive(Clone, Copy)]
pub enum Stage {
    Start,
    Rows,
    Ended,
}

// How many bytes a frame of kind k has, with e events and c conditions if it is a trigger; an unknown kind has 0.
// Kept: 0, and no Option, is what the definition `size_of` says of an unknown kind, and no line has so few bytes.
fn size_of(k: u8, e: usize, c: usize) -> usize
    requires { (e < 256) × (c < 256) }
    ensures { result ≡ size_of k e c }
{
    if k == HEADER {
        return 4;
    }
    if k == PERIODIC {
        return 18;
    }
    if k == TRIGGER {
        return 7 + e + c;
    }
    if k == END {
        return 5;
    }
    0
}

// The frame has the byte count of its kind.
fn is_sized(line: &[u8]) -> bool
    ensures { result ≡ sized (bytes_of line.now) }
{
    let k = byte_at(line, 0);
    let e = usize::from(byte_at(line, 1));
    let c = usize::from(byte_at(line, 2));
    frames::count(line) == size_of(k, e, c)
}

// Which kinds may stand where.
fn may_stand(stage: Stage, k: u8) -> bool
    ensures { result ≡ may_stand stage k }
{
    match stage {
        Stage::Start => k == HEADER,
        Stage::Rows => (k == PERIODIC) | ((k == TRIGGER) | (k == END)),
        Stage::Ended => false,
    }
}

// A line's frame of kind k passes KIND.
pub fn is_kind(line: &[u8], stage: Stage, k: u8) -> bool
    ensures { result ≡ (sized (bytes_of line.now) && may_stand stage k) }
{
    is_sized(line) & may_stand(stage, k)
}
