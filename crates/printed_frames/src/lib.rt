// What is printed, to the byte: the frame of a minute, and the whole line of a refusal.
#![tactic(auto)]

ghost use Rattle.std.specs.Prelude.{◌≡◌};
ghost use Rattle.printed_frames.specs.Frames.{refusal_frame, refusal_line, minute_frame};

use answers::Refusal;

// The frame of a minute: the instant, the enabled roles after it, and the count.
pub fn minute_frame(instant: u32, roles: u64, count: u8) -> [u8; 14]
    ensures { result ≡ minute_frame instant roles count }
{
    let mut frame = [0u8; 14];
    frame[0] = 0x50;
    frame[1..5].copy_from_slice(&instant.to_be_bytes());
    frame[5..13].copy_from_slice(&roles.to_be_bytes());
    frame[13] = count;
    frame
}

// The frame of a refusal: its number, its place and its column.
fn refusal_frame(number: u8, place: u32, column: usize) -> [u8; 10]
    ensures { result ≡ refusal_frame number place column }
{
    let mut frame = [0u8; 10];
    frame[0] = 0xe0;
    frame[1] = number;
    frame[2..6].copy_from_slice(&place.to_be_bytes());
    frame[6..10].copy_from_slice(&column.to_be_bytes()[4..]);
    frame
}

// The line that is printed of a refusal: its frame, the check and the line end.
pub fn refusal_line(r: Refusal) -> [u8; 23]
    ensures { result ≡ refusal_line r }
{
    let name = r.name;
    let frame = refusal_frame(answers::number_of(name), r.place, r.column);
    let mut line = [0u8; 23];
    prints::put_line(&mut line, 0, &frame);
    line
}
