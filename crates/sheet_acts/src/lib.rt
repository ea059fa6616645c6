// What a frame that passed does to what was read so far: one line more, the next stage, the role count or a row in its table.
#![tactic(auto)]

ghost use Rattle.std.specs.Prelude.{◌≡◌, true, ◌<◌, length};
ghost use Rattle.frames.specs.Frame.{bytes_of};
ghost use Rattle.tables.specs.Layout.{PERIODIC_TABLE, TRIGGER_TABLE};
ghost use Rattle.periodic_frames.specs.Row.{periodic_row};
ghost use Rattle.trigger_frames.specs.Row.{trigger_row};
ghost use Rattle.kinds.specs.Kinds.{PERIODIC, TRIGGER, kind};
ghost use Rattle.row_counts.specs.Counts.{room_for};
ghost use Rattle.sheet_acts.specs.Acts.{seen_after, table_after, progress, after};

use frames::byte_at;
use kinds::{HEADER, PERIODIC, Stage, TRIGGER};
use sheet_tests::Seen;
use tables::{Counts, PERIODIC_BYTES, PERIODIC_TABLE, TRIGGER_BYTES, TRIGGER_TABLE};

// What was read after a frame of kind k; `roles` is its role count if it is a header.
fn seen_after(k: u8, roles: u8, s: Seen) -> Seen
    requires { (s.line < 16384) × ((k ≡ PERIODIC → s.counts.periodics < 128) × (k ≡ TRIGGER → s.counts.triggers < 256)) }
    ensures { result ≡ seen_after k roles s }
{
    let line = s.line + 1;
    let stage = Stage::Rows;
    let counts = s.counts;
    if k == HEADER {
        let counts = Counts { roles, ..counts };
        return Seen {
            line,
            stage,
            counts,
        };
    }
    if k == PERIODIC {
        let counts = Counts {
            periodics: counts.periodics + 1,
            ..counts
        };
        return Seen {
            line,
            stage,
            counts,
        };
    }
    if k == TRIGGER {
        let counts = Counts {
            triggers: counts.triggers + 1,
            ..counts
        };
        return Seen {
            line,
            stage,
            counts,
        };
    }
    Seen {
        line,
        stage: Stage::Ended,
        counts,
    }
}

// The row of a periodic frame becomes row n of its table. Other frames have none.
// Kept beside `put_trigger`: one function for both would take the row or a closure that makes it. A row is made of a line of its own kind alone, for speed, and the closure's contract would be longer than the two.
fn put_periodic(line: &[u8], k: u8, n: u16, table: &mut [u8; PERIODIC_TABLE])
    requires { k ≡ PERIODIC → n < 128 }
    ensures { table.new ≡ table_after k PERIODIC n (periodic_row (bytes_of line.now)) table.old }
{
    if k == PERIODIC {
        let row = periodic_frames::periodic_row(line);
        tables::copy_in(table, PERIODIC_BYTES * usize::from(n), &row);
    }
}

// The row of a trigger frame becomes row n of its table. Other frames have none.
fn put_trigger(line: &[u8], k: u8, n: u16, table: &mut [u8; TRIGGER_TABLE])
    requires { k ≡ TRIGGER → n < 256 }
    ensures { table.new ≡ table_after k TRIGGER n (trigger_row (bytes_of line.now)) table.old }
{
    if k == TRIGGER {
        let row = trigger_frames::trigger_row(line);
        tables::copy_in(table, TRIGGER_BYTES * usize::from(n), &row);
    }
}

// What a frame that passed does: what was read so far goes on, and a row joins its table.
fn acted(
    line: &[u8],
    s: Seen,
    periodics: &mut [u8; PERIODIC_TABLE],
    triggers: &mut [u8; TRIGGER_TABLE],
) -> Seen
    requires { (s.line < 16384) × (room_for (kind (bytes_of line.now)) s.counts.periodics s.counts.triggers ≡ true) }
    ensures { progress result periodics.new triggers.new
        ≡ after (progress s periodics.old triggers.old) (bytes_of line.now) }
{
    let k = byte_at(line, 0);
    let p = s.counts.periodics;
    let t = s.counts.triggers;
    put_periodic(line, k, p, periodics);
    put_trigger(line, k, t, triggers);
    seen_after(k, byte_at(line, 2), s)
}

// The same on lent tables. (For the reader alone, which has shown that they have their lengths and that the frame passed, so that there is room.)
pub fn act(line: &[u8], s: Seen, periodics: &mut [u8], triggers: &mut [u8]) -> Seen
    requires { ((s.line < 16384) × (room_for (kind (bytes_of line.now)) s.counts.periodics s.counts.triggers ≡ true))
        × ((length periodics.old ≡ PERIODIC_TABLE) × (length triggers.old ≡ TRIGGER_TABLE)) }
    ensures { progress result periodics.new triggers.new
        ≡ after (progress s periodics.old triggers.old) (bytes_of line.now) }
{
    let per = periodics.as_mut_array().unwrap();
    let trg = triggers.as_mut_array().unwrap();
    acted(line, s, per, trg)
}
