// The judge of lent rows, whatever the counts and the tables: TOO MANY, FIELD of the role count, FIELD at the first bad row, or a pass.
#![tactic(auto)]

ghost use Rattle.std.specs.Prelude.{◌≡◌, ◌&&◌, ◌≤◌, leb};
ghost use Rattle.theory.specs.Numbers.{ROLES, PERIODIC_ROWS, TRIGGER_ROWS};
ghost use Rattle.tables.specs.Lent.{rules_of, sheet_in};
ghost use Rattle.row_judge.specs.Judge.{row_fits, first_unfit, judge_rows};

use answers::{Name, Verdict, refuse};
use tables::{Counts, Rules};
use theory::{PERIODIC_ROWS, ROLES, TRIGGER_ROWS};

// ---- FIELD of the rows

// Row k holds what it may: the periodic rows from 0 and the triggers from the periodic count on.
fn row_fits(given: &Rules, k: u16) -> bool
    ensures { result ≡ row_fits (sheet_in (rules_of given.now)) k }
{
    let counts = given.counts;
    if k < counts.periodics {
        let row = periodics::periodic_row(given.periodics, k);
        return periodic_limits::periodic_fits(row, counts.roles);
    }
    trigger_limits::trigger_fits(given.triggers, k - counts.periodics, counts.roles)
}

// The first row that does not; the number of rows where all do. (For the judge alone, which has shown that the rows are few.)
// Kept: a number where an Option could be, for the definition `first_unfit` has the number of rows where all do, and `judge_rows` compares it with that.
fn first_unfit(given: &Rules) -> u16
    requires { (given.now.counts.periodics ≤ PERIODIC_ROWS) × (given.now.counts.triggers ≤ TRIGGER_ROWS) }
    ensures { result ≡ first_unfit (sheet_in (rules_of given.now)) }
{
    let rows = given.counts.periodics + given.counts.triggers;
    for k in 0..rows {
        if !row_fits(given, k) {
            return k;
        }
    }
    rows
}

// ---- the counts, then the rows

// The counts pass TOO MANY.
fn few_rows(counts: Counts) -> bool
    ensures { result ≡ (leb counts.periodics PERIODIC_ROWS && leb counts.triggers TRIGGER_ROWS) }
{
    (counts.periodics <= PERIODIC_ROWS) & (counts.triggers <= TRIGGER_ROWS)
}

// The role count is 1 to 64.
fn roles_fit(roles: u8) -> bool
    ensures { result ≡ (leb 1 roles && leb roles ROLES) }
{
    (1 <= roles) & (roles <= ROLES)
}

// TOO MANY, then FIELD of the role count, then FIELD of the rows.
pub fn rows_judged(given: &Rules) -> Verdict
    ensures { result ≡ judge_rows (sheet_in (rules_of given.now)) }
{
    let counts = given.counts;
    if !few_rows(counts) {
        return refuse(Name::TooMany, 0);
    }
    if !roles_fit(counts.roles) {
        return refuse(Name::Field, 0);
    }
    let first = first_unfit(given);
    if first < counts.periodics + counts.triggers {
        return refuse(Name::Field, first as u32);
    }
    Ok(())
}
