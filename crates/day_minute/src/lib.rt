// A minute of a day: the tape's requests of the instant, and a step with them. It prints nothing.
#![tactic(auto)]

ghost use Rattle.tables.specs.Lent.{rules_of, lent};
ghost use Rattle.day_minute.specs.Minute.{MinuteOutcome};

use answers::Verdict;
use tables::Rules;

// What came of a minute: the step's answer, where the tape goes on, and the roles after it.
// Kept: a verdict beside the others, for `MinuteOutcome` (day_minute/Minute) says where the tape goes on, and the roles, after a refusal too.
#[derive(Clone, Copy)]
pub struct Minute {
    pub verdict: Verdict,
    pub next: usize,
    pub enabled: u64,
}

// A minute of a day: the requests of the next instant that stand in the tape at `at` and on, and a step with them. It prints nothing.
// Kept: what is lent to be changed goes part by part, as in `instant::act`.
pub fn day_minute(
    given: &Rules,
    tape: &[u8],
    at: usize,
    instant: &mut u32,
    enabled: &mut u64,
    waiting: &mut [u16],
    events: &mut [u16],
) -> Minute
    ensures { MinuteOutcome
        (rules_of given.now)
        tape.now at
        (lent instant.old enabled.old waiting.old events.old)
        result
        (lent instant.new enabled.new waiting.new events.new) }
{
    let b = tape_batches::take_batch(tape, at, *instant);
    let asked = b.asked;
    let n = b.count;
    let verdict = step::step(given, asked, n, instant, enabled, waiting, events);
    Minute {
        verdict,
        next: b.next,
        enabled: *enabled,
    }
}
