// FIELD: whether the fields of a frame are within document 01's limits, under a header's role count, and where the first begins that is not.
#![tactic(auto)]

ghost use Rattle.std.specs.Prelude.{◌≡◌, take};
ghost use Rattle.frames.specs.Frame.{bytes_of, sum};
ghost use Rattle.theory.specs.Below.{first_failing};
ghost use Rattle.fields.specs.Fields.{header_tests, header_fits, frame_fits, PERIODIC_WIDTHS, bad_byte};

use frames::byte_at;
use kinds::{HEADER, PERIODIC, TRIGGER};
use theory::ROLES;

// The version of a header.
pub const VERSION: u8 = 1;

// The number of the header's first field that is outside its limit, from 0; 2 where none is.
// Kept: 2, and no Option, since `bad_byte` promises the byte after the last field where all of them fit.
fn first_bad_header(version: u8, roles: u8) -> u8
    ensures { result ≡ first_failing (header_tests version roles) }
{
    if version != VERSION {
        return 0;
    }
    if roles < 1 {
        return 1;
    }
    if roles > ROLES {
        return 1;
    }
    2
}

// The header's fields are within their limits.
fn header_fits(version: u8, roles: u8) -> bool
    ensures { result ≡ header_fits version roles }
{
    first_bad_header(version, roles) == 2
}

// A line's frame of kind k passes FIELD, under a header with this role count.
pub fn frame_fits(k: u8, roles: u8, line: &[u8]) -> bool
    ensures { result ≡ frame_fits k roles (bytes_of line.now) }
{
    if k == HEADER {
        return header_fits(byte_at(line, 1), byte_at(line, 2));
    }
    if k == PERIODIC {
        let row = periodic_frames::periodic_row(line);
        return periodic_limits::periodic_fits(periodics::periodic_row(&row, 0), roles);
    }
    if k == TRIGGER {
        let row = trigger_frames::trigger_row(line);
        return trigger_limits::trigger_fits(&row, 0, roles);
    }
    true
}

// The bytes of a periodic frame's fields before field i.
fn bytes_before(i: u8) -> u8
    ensures { result ≡ sum (take i PERIODIC_WIDTHS) }
{
    match i {
        0 => 0,
        1 => 4,
        2 => 8,
        3 => 10,
        4 => 12,
        5 => 14,
        6 => 15,
        _ => 16,
    }
}

// The byte of a line's frame of kind k at which the first field begins that is outside its limit.
pub fn bad_byte(k: u8, roles: u8, line: &[u8]) -> u16
    ensures { result ≡ bad_byte k roles (bytes_of line.now) }
{
    if k == HEADER {
        let i = first_bad_header(byte_at(line, 1), byte_at(line, 2));
        return 1 + u16::from(i);
    }
    if k == PERIODIC {
        let row = periodic_frames::periodic_row(line);
        let i = periodic_limits::first_bad_periodic(periodics::periodic_row(&row, 0), roles);
        return 1 + u16::from(bytes_before(i));
    }
    if k == TRIGGER {
        let row = trigger_frames::trigger_row(line);
        let i = trigger_limits::first_bad_trigger(&row, 0, roles);
        return 1 + u16::from(i);
    }
    1
}
