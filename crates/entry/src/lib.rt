// The step over a lent list of request records, as many as there are and in any order: `step` of their flat numbers, and over 32 TOO MANY.
#![tactic(auto)]

ghost use Rattle.std.specs.Prelude.{min, length};
ghost use Rattle.theory.specs.Numbers.{REQUESTS};
ghost use Rattle.tables.specs.Lent.{rules_of, lent};
ghost use Rattle.step.specs.Outcome.{Outcome};
ghost use Rattle.entry.specs.Listed.{listed, Holds};

use answers::Verdict;
use requests::{FLAT_NUMBERS, Request, put};
use tables::Rules;
use theory::REQUESTS;

// The first 32 records as flat numbers.
fn flatten(requests: &[Request]) -> [u8; FLAT_NUMBERS]
    ensures { Holds (min (length requests.now) REQUESTS) requests.now result }
{
    let n = requests.len().min(REQUESTS);
    let mut l = [0u8; FLAT_NUMBERS];
    for (i, r) in requests[..n].iter().enumerate() {
        put(&mut l, i, *r);
    }
    l
}

// One step, of whatever is lent, with the requests as a list of records in any order; over 32 of them are TOO MANY.
// Kept: what is lent to be changed goes part by part, as in `instant::act`.
pub fn step_requests(
    given: &Rules,
    requests: &[Request],
    instant: &mut u32,
    enabled: &mut u64,
    waiting: &mut [u16],
    events: &mut [u16],
) -> Verdict
    ensures { Outcome
        (rules_of given.now)
        (listed requests.now)
        (lent instant.old enabled.old waiting.old events.old)
        result
        (lent instant.new enabled.new waiting.new events.new) }
{
    let n = requests.len();
    let numbers = flatten(requests);
    step::step(given, numbers, n, instant, enabled, waiting, events)
}
