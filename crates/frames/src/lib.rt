// A line as the bytes of a frame: each byte, 0 past the end, and how many; and CHECK, whether their sum is a multiple of 256.
#![tactic(auto)]

ghost use Rattle.std.specs.Prelude.{◌≡◌, ◌%◌, get_or, length};
ghost use Rattle.tables.specs.Layout.{two, four};
ghost use Rattle.frames.specs.Frame.{value, bytes_of, checked, sum};

use widths::pair;

// A letter stands for its character less this.
pub const TEN_BELOW_A: u8 = b'A' - 10;

// What a digit stands for; 0 for what is none. (The compiler makes a table of it.)
fn digit(c: u8) -> u8
    ensures { result ≡ value c }
{
    match c {
        b'0' => 0,
        b'1' => 1,
        b'2' => 2,
        b'3' => 3,
        b'4' => 4,
        b'5' => 5,
        b'6' => 6,
        b'7' => 7,
        b'8' => 8,
        b'9' => 9,
        b'A' => 10,
        b'B' => 11,
        b'C' => 12,
        b'D' => 13,
        b'E' => 14,
        b'F' => 15,
        _ => 0,
    }
}

// The same by tests, for a loop over a whole line: the compiler makes them of many characters at once.
// Kept beside `digit`: a table is the faster for one character, tests for many at once.
fn digit_by_tests(c: u8) -> u8
    ensures { result ≡ value c }
{
    if (b'0' <= c) & (c <= b'9') {
        return c - b'0';
    }
    if (b'A' <= c) & (c <= b'F') {
        return c - TEN_BELOW_A;
    }
    0
}

// Byte i of the line's frame; 0 past its end.
pub fn byte_at(line: &[u8], i: usize) -> u8
    ensures { result ≡ get_or (bytes_of line.now) i 0 }
{
    if i < line.len() / 2 {
        let a = digit(line[2 * i]);
        let b = digit(line[2 * i + 1]);
        return 16 * a + b;
    }
    0
}

// The number of two bytes at i, high byte first.
pub fn two_at(line: &[u8], i: u8) -> u32
    ensures { result ≡ two (bytes_of line.now) i }
{
    let at = usize::from(i);
    pair(byte_at(line, at), byte_at(line, at + 1))
}

// The number of four bytes at i, high byte first.
pub fn four_at(line: &[u8], i: u8) -> u32
    ensures { result ≡ four (bytes_of line.now) i }
{
    let at = usize::from(i);
    u32::from_be_bytes([
        byte_at(line, at),
        byte_at(line, at + 1),
        byte_at(line, at + 2),
        byte_at(line, at + 3),
    ])
}

// How many bytes the line's frame has.
pub fn count(line: &[u8]) -> usize
    ensures { result ≡ length (bytes_of line.now) }
{
    line.len() / 2
}

// The sum of the frame's bytes, less the multiples of 256.
fn total(line: &[u8]) -> u8
    ensures { result ≡ sum (bytes_of line.now) % 256 }
{
    let (pairs, _) = line.as_chunks::<2>();
    let mut sum: u8 = 0;
    for pair in pairs {
        let a = digit_by_tests(pair[0]);
        let b = digit_by_tests(pair[1]);
        sum = sum.wrapping_add(16 * a + b);
    }
    sum
}

// A line's frame passes CHECK.
pub fn is_checked(line: &[u8]) -> bool
    ensures { result ≡ checked (bytes_of line.now) }
{
    total(line) == 0
}
