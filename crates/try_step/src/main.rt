// Takes cases of the form of second/FORMAT.md, 'A step case', and prints the result of each. A case that is not in the form ends the run
// with the line `bad case`.
#![tactic(auto)]

use answers::Verdict;
use cases::{Stop, four, put, take_rows, value};
use tables::{Counts, Rules};

// ---- the result

// How many numbers of a buffer are not zero. (Each adds 1 or 0, so that the compiler takes many at once.)
fn nonzero(buffer: &[u16]) -> usize {
    let mut n: usize = 0;
    for mask in buffer {
        n += usize::from(*mask != 0);
    }
    n
}

// Number i of a buffer as an entry: its row, if an entry has 8 digits, its event and the set of priorities.
fn entry_of(i: usize, mask: u16, digits: u8) -> usize {
    let at = i % 32768;
    if digits == 8 {
        return 16777216 * (at / 128) + 65536 * (at % 128) + mask as usize;
    }
    65536 * at + mask as usize
}

// Number i of a buffer, if it is not zero.
fn put_entry(out: &mut [u8], at: usize, i: usize, mask: u16, digits: u8) -> usize {
    if mask == 0 {
        return at;
    }
    put(out, at, entry_of(i, mask, digits), digits)
}

// A buffer: how many numbers are not zero, and these.
fn put_buffer(out: &mut [u8], at: usize, buffer: &[u16], digits: u8) -> usize {
    let mut n = put(out, at, nonzero(buffer), 4);
    for (i, &mask) in buffer.iter().enumerate() {
        n = put_entry(out, n, i, mask, digits);
    }
    n
}

// The line of a step; where it ends.
fn put_result(
    out: &mut [u8],
    verdict: Verdict,
    instant: u32,
    enabled: u64,
    waiting: &[u16],
    events: &[u16],
) -> usize {
    let a = cases::put_answer(out, answers::answer_of(verdict));
    let b = put(out, a, instant as usize, 8);
    let c = put(out, b, enabled as usize, 16);
    let d = put_buffer(out, c, waiting, 8);
    put_buffer(out, d, events, 6)
}

// Prints the result of a step.
fn print_result(
    verdict: Verdict,
    instant: u32,
    enabled: u64,
    waiting: &[u16],
    events: &[u16],
) -> Result<(), Stop> {
    let mut out = [0u8; 75776];
    let n = put_result(&mut out, verdict, instant, enabled, waiting, events);
    cases::print(&mut out, n)
}

// ---- a case: its lists are taken in their order, each into what is lent for it; then comes the step
//
// The head line, with the letters of the form, and where its numbers begin:
//
//     PPPP TTTT WWWW EEEE RRRRRRRR CCCCCCCC DDDDDDDD IIIIIIII SSSSSSSSSSSSSSSS FFFF GGGG HHHH KKKK QQQQ
//     0    5    10   15   20       29       38       47       56               73   78   83   88   93

// The counts, as a step takes them.
fn counts_of(head: &[u8]) -> Counts {
    cases::counts_at(head, 20)
}

// Takes one step, and prints its result.
fn try_one(
    head: &[u8],
    rules: &Rules,
    asked: [u8; 96],
    waiting: &mut [u16],
    events: &mut [u16],
) -> Result<(), Stop> {
    let mut instant = (value(head, 47, 55) % 4294967296) as u32;
    let mut enabled = value(head, 56, 72) as u64;
    let verdict = step::step(
        rules,
        asked,
        four(head, 93) as usize,
        &mut instant,
        &mut enabled,
        waiting,
        events,
    );
    print_result(verdict, instant, enabled, waiting, events)
}

// The requests. Those past the room are dropped: of more than 32 a step asks only how many there are.
fn with_events(
    head: &[u8],
    rules: &Rules,
    waiting: &mut [u16],
    events: &mut [u16],
) -> Result<(), Stop> {
    let n = four(head, 93);
    if n > 1024 {
        return Err(Stop::BadCase);
    }
    let mut asked = [0u8; 96];
    take_rows(&mut asked, n, 6)?;
    try_one(head, rules, asked, waiting, events)
}

// The events buffer, which holds the fill.
fn with_waiting(head: &[u8], rules: &Rules, waiting: &mut [u16]) -> Result<(), Stop> {
    let e = four(head, 15) as usize;
    let fill = four(head, 73);
    let mut events = [fill; 256];
    if e > events.len() {
        return Err(Stop::BadCase);
    }
    with_events(head, rules, waiting, &mut events[0..e])
}

// Takes a waiting entry into a buffer: the row, the event and the set of priorities.
fn take_entry(waiting: &mut [u16]) -> Result<(), Stop> {
    let x = cases::take_number(8)?;
    let event = x / 65536 % 256;
    let at = 128 * (x / 16777216) + event;
    if (event >= 128) | (at >= waiting.len()) {
        return Err(Stop::BadCase);
    }
    waiting[at] = (x % 65536) as u16;
    Ok(())
}

// Takes a list of waiting entries.
fn take_entries(waiting: &mut [u16], count: u16) -> Result<(), Stop> {
    for _ in 0..count {
        take_entry(waiting)?;
    }
    Ok(())
}

// The waiting buffer and its entries.
fn with_triggers(head: &[u8], rules: &Rules) -> Result<(), Stop> {
    let w = four(head, 10) as usize;
    let given = four(head, 88);
    let mut waiting = [0u16; 8192];
    if (w > waiting.len()) | (given > 8192) {
        return Err(Stop::BadCase);
    }
    take_entries(&mut waiting[0..w], given)?;
    with_waiting(head, rules, &mut waiting[0..w])
}

// Takes the rows of a table that are given, at most as many as it has, each a line of digits, into the room for it; the table.
fn take_table<'r>(room: &'r mut [u8], rows: u16, given: u16, digits: u8) -> Result<&'r [u8], Stop> {
    let n = rows as usize * (digits / 2) as usize;
    if (n > room.len()) | (given > rows) {
        return Err(Stop::BadCase);
    }
    take_rows(room, given, digits)?;
    Ok(&room[0..n])
}

// Both tables and their rows.
fn with_head(head: &[u8]) -> Result<(), Stop> {
    let mut periodics = [0u8; 4096];
    let mut triggers = [0u8; 6656];
    let rules = Rules {
        periodics: take_table(&mut periodics, four(head, 0), four(head, 78), 32)?,
        triggers: take_table(&mut triggers, four(head, 5), four(head, 83), 26)?,
        counts: counts_of(head),
    };
    with_triggers(head, &rules)
}

// The cases, until the input ends or one is not in the form.
fn main() {
    cases::run(
        b"0000 0000 0000 0000 00000000 00000000 00000000 00000000 0000000000000000 0000 0000 0000 0000 0000\n",
        with_head,
    );
}
