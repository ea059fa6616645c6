// The judge of lent tables, whatever they hold: TOO MANY, FIELD, LOOP, in this order; and the levels that the loop test found.
#![tactic(auto)]

ghost use Rattle.std.specs.Prelude.{◌≡◌};
ghost use Rattle.tables.specs.Layout.{triggers_of};
ghost use Rattle.tables.specs.Lent.{rules_of, sheet_in};
ghost use Rattle.table_judge.specs.Judged.{judged, loop_verdict, loop_judged};

use answers::{Name, Verdict, refuse};
use loops::LEVELS;
use tables::Rules;
use theory::EVENTS;

// The weight of `from` in LOOP's place.
const FROM: u32 = EVENTS as u32;

// The judge's answer: the verdict, and the level of each event by the loop test; zeros where the rows are refused, for then it is not asked.
// Kept: a verdict beside the levels, for `judge` promises the levels of what LOOP refuses too (`judged`, table_judge/Judged).
#[derive(Clone, Copy)]
pub struct Judged {
    pub verdict: Verdict,
    pub levels: [u8; LEVELS],
}

// ---- LOOP

// What the loop test found, as a verdict: LOOP at 128 × from + to.
fn loop_verdict(found: Option<(u8, u8)>) -> Verdict
    ensures { result ≡ loop_verdict found }
{
    match found {
        Some((from, to)) => refuse(Name::Loop, FROM * (from as u32) + to as u32),
        None => Ok(()),
    }
}

// LOOP of the first n triggers of a table, and their levels.
pub fn loop_judged(triggers: &[u8], n: u16) -> Judged
    ensures { result ≡ loop_judged (triggers_of n triggers.now) }
{
    let t = loops::loop_test(triggers, n);
    let found = t.found;
    let levels = t.levels;
    Judged {
        verdict: loop_verdict(found),
        levels,
    }
}

// ---- the judge

// Judges lent tables, of any lengths and with any counts: TOO MANY, FIELD, LOOP.
pub fn judge(given: &Rules) -> Judged
    ensures { result ≡ judged (sheet_in (rules_of given.now)) }
{
    let rows = row_judge::rows_judged(given);
    match rows {
        Ok(()) => loop_judged(given.triggers, given.counts.triggers),
        Err(r) => Judged {
            verdict: Err(r),
            levels: [0; LEVELS],
        },
    }
}
