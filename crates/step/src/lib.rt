// One step, of whatever is lent: the first refusal in document 01's order, and all as it was; or the solution, what waits, the roles after.
#![tactic(auto)]

ghost use Rattle.std.specs.Prelude.{◌≤◌};
ghost use Rattle.theory.specs.Numbers.{LAST_INSTANT};
ghost use Rattle.tables.specs.Asked.{flat};
ghost use Rattle.tables.specs.Lent.{rules_of, lent};
ghost use Rattle.step.specs.Outcome.{Outcome};
ghost use Rattle.step.specs.Parts.{Sized, Inner};

use answers::{Verdict, and_then};
use requests::FLAT_NUMBERS;
use tables::Rules;

// A step that passed LENGTH, LAST and TOO MANY of requests: the tables and the requests are judged, and then it acts.
// Kept: what is lent to be changed goes part by part, as in `instant::act`.
fn step_within(
    given: &Rules,
    asked: &[u8],
    m: u16,
    instant: &mut u32,
    enabled: &mut u64,
    waiting: &mut [u16],
    events: &mut [u16],
) -> Verdict
    requires { (instant.old ≤ LAST_INSTANT) × Sized waiting.old events.old }
    ensures { Inner
        (rules_of given.now)
        (flat asked.now m)
        (lent instant.old enabled.old waiting.old events.old)
        result
        (lent instant.new enabled.new waiting.new events.new) }
{
    let judged = table_judge::judge(given);
    let levels = judged.levels;
    let requests = requests::judge_requests(given.counts.roles, asked, m);
    and_then(judged.verdict, requests)?;
    instant::act(given, asked, m, &levels, instant, enabled, waiting, events);
    Ok(())
}

// One step, of whatever is lent. The requests are flat numbers, event, priority and delay of each; only the first n count, and n over 32 is TOO MANY.
// Kept: what is lent to be changed goes part by part, as in `instant::act`.
pub fn step(
    given: &Rules,
    asked: [u8; FLAT_NUMBERS],
    n: usize,
    instant: &mut u32,
    enabled: &mut u64,
    waiting: &mut [u16],
    events: &mut [u16],
) -> Verdict
    ensures { Outcome
        (rules_of given.now)
        (flat asked n)
        (lent instant.old enabled.old waiting.old events.old)
        result
        (lent instant.new enabled.new waiting.new events.new) }
{
    let first = step_tests::judge_first(
        given.periodics.len(),
        given.triggers.len(),
        waiting.len(),
        events.len(),
        *instant,
        n,
    );
    first?;
    step_within(given, &asked, n as u16, instant, enabled, waiting, events)
}
