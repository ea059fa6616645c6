// The tests of a line of a sheet, in order: FRAME, CHECK, KIND, TOO MANY, FIELD, COUNT. The first that fails refuses it, at the place handed in and in its column.
#![tactic(auto)]

ghost use Rattle.std.specs.Prelude.{◌≡◌};
ghost use Rattle.answers.specs.declared.Name.TheVariants.{Count};
ghost use Rattle.line_readers.specs.Order.{in_order};
ghost use Rattle.sheet_tests.specs.Judge.{line_tests, judge_line};

use answers::{Name, Verdict};
use kinds::Stage;
use line_readers::Tests;
use tables::Counts;

// What was read so far: how many lines, which frames may come, and the counts: the roles, and the rows of each kind.
#[derive(Clone, Copy)]
pub struct Seen {
    pub line: u32,
    pub stage: Stage,
    pub counts: Counts,
}

// The tests of a line, in order: FRAME, CHECK, KIND, TOO MANY, FIELD, COUNT.
fn line_tested(line: &[u8], s: Seen, place: u32) -> Verdict
    ensures { result ≡ in_order (line_tests s line.now) Count place }
{
    let k = frames::byte_at(line, 0);
    let stage = s.stage;
    let roles = s.counts.roles;
    let p = s.counts.periodics;
    let t = s.counts.triggers;
    let framed = text::is_framed(line);
    let checked = frames::is_checked(line);
    let kind = kinds::is_kind(line, stage, k);
    let room = row_counts::has_room(k, p, t);
    let field = fields::frame_fits(k, roles, line);
    let count = row_counts::end_agrees(line, k, p, t);
    let tests = Tests {
        framed,
        checked,
        kind,
        room,
        field,
        last: count,
    };
    line_readers::in_order(tests, Name::Count, place)
}

// The verdict on a line: the first of its tests that fails refuses it, in its column.
pub fn line_judged(line: &[u8], s: Seen, place: u32) -> Verdict
    ensures { result ≡ judge_line place s line.now }
{
    line_tested(line, s, place).map_err(|r| {
        let field = fields::bad_byte(frames::byte_at(line, 0), s.counts.roles, line);
        line_readers::in_line(r, line, field)
    })
}
