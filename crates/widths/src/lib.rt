// Numbers in more bits: each stays the number that it was.
#![tactic(auto)]

ghost use Rattle.std.specs.Prelude.{◌≡◌, ◌+◌, ◌*◌, ◌<◌};
ghost use Rattle.theory.specs.Below.{one};

// A byte as a number of 32 bits.
// Kept, as the others below: a name for each conversion, of which claims/Functions has a theorem and the edits speak.
pub fn wide(x: u8) -> u32
    ensures { result ≡ x }
{
    u32::from(x)
}

// Two bytes as a number, high byte first.
pub fn pair(high: u8, low: u8) -> u32
    ensures { (result ≡ 256 * high + low) × (result < 65536) }
{
    u32::from(u16::from_be_bytes([high, low]))
}

// A byte as an index.
pub fn index(x: u8) -> usize
    ensures { result ≡ x }
{
    usize::from(x)
}

// A row's number as an index.
pub fn row_index(row: u16) -> usize
    ensures { result ≡ row }
{
    usize::from(row)
}

// A number of 32 bits as one of 64.
pub fn long(x: u32) -> u64
    ensures { result ≡ x }
{
    u64::from(x)
}

// 1 for a test that passes, else 0.
pub fn one(t: bool) -> u8
    ensures { (result ≡ one t) × (result < 2) }
{
    u8::from(t)
}
