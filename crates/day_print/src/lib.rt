// A whole day, of any bytes: its lines at the front of the lent buffer, and the rest stays; or a refusal, and all of the buffer stays.
#![tactic(auto)]

ghost use Rattle.std.specs.Prelude.{◌≡◌, Ok, suc, length};
ghost use Rattle.tables.specs.Lent.{rules};
ghost use Rattle.day_input.specs.Opening.{opening};
ghost use Rattle.day_input.specs.Planned.{opening_of};
ghost use Rattle.day_lines.specs.Lines.{OUTPUT_BYTES};
ghost use Rattle.day_lines.specs.Written.{Written};
ghost use Rattle.day_print.specs.Day.{AfterOpening, DayOutcome};
ghost use Rattle.day_print.specs.Ready.{Ready};

use answers::{Name, Refusal};
use day_input::Plan;
use tables::{EVENTS_NUMBERS, PERIODIC_TABLE, Rules, TRIGGER_TABLE, WAITING_NUMBERS};

// The bytes of a minute's line.
const LINE: usize = 31;

// The longest day: 10,081 lines.
const OUTPUT_BYTES: usize = 312511;

// One line for each instant 0 to the last, of an input that opened.
// Kept: the tables beside the plan, for the plan has their counts already, and `Ready` speaks of it.
fn run(plan: Plan, periodics: &[u8], triggers: &[u8], tape: &[u8], out: &mut [u8])
    requires { Ready plan periodics.now triggers.now tape.now out.old }
    ensures { Written
        (rules plan.counts periodics.now triggers.now)
        tape.now (suc plan.last) out.old out.new }
{
    let given = Rules {
        counts: plan.counts,
        periodics,
        triggers,
    };
    let last = plan.last;
    let mut waiting = [0u16; WAITING_NUMBERS];
    let mut events = [0u16; EVENTS_NUMBERS];
    let mut instant: u32 = 0;
    let mut enabled: u64 = 0;
    let mut at: usize = 0;
    for t in 0..last + 1 {
        let turn = day_minute::day_minute(
            &given,
            tape,
            at,
            &mut instant,
            &mut enabled,
            &mut waiting,
            &mut events,
        );
        let n = roles_after::count(&events);
        let frame = printed_frames::minute_frame(t, turn.enabled, n);
        prints::put_line(out, LINE * (t as usize), &frame);
        at = turn.next;
    }
}

// The lines of an input that opened, at the front of the buffer; how many bytes they have.
fn print_lines(plan: Plan, periodics: &[u8], triggers: &[u8], tape: &[u8], out: &mut [u8]) -> usize
    requires { Ready plan periodics.now triggers.now tape.now out.old }
    ensures { AfterOpening
        (opening_of plan periodics.now triggers.now tape.now)
        out.old (Ok result) out.new }
{
    run(plan, periodics, triggers, tape, out);
    LINE * (plan.last as usize + 1)
}

// A day, into a buffer that has its length.
fn print_day(input: &[u8], out: &mut [u8]) -> Result<usize, Refusal>
    requires { length out.old ≡ OUTPUT_BYTES }
    ensures { AfterOpening (opening input.now) out.old result out.new }
{
    let mut periodics = [0u8; PERIODIC_TABLE];
    let mut triggers = [0u8; TRIGGER_TABLE];
    let plan = day_input::open(input, &mut periodics, &mut triggers)?;
    let from = plan.from;
    Ok(print_lines(plan, &periodics, &triggers, &input[from..input.len()], out))
}

// A whole day: the lines of an input stand at the front of the lent buffer, and the rest of it stays. After a refusal all of it stays. A buffer of any other length than 312,511 bytes is LENGTH.
pub fn day(input: &[u8], out: &mut [u8]) -> Result<usize, Refusal>
    ensures { DayOutcome input.now out.old result out.new }
{
    if out.len() == OUTPUT_BYTES {
        return print_day(input, out);
    }
    Err(answers::refusal_of(Name::Length, 0))
}
