// What is lent, to the byte: any byte of a table of any length, 0 past its end; a trigger's bytes by their row; a row copied in where it fits.
#![tactic(auto)]

ghost use Rattle.std.specs.Prelude.{◌≡◌, ◌+◌, ◌*◌, ◌≤◌, length, get_or};
ghost use Rattle.std.proofs.Math.Seq.{paste};
ghost use Rattle.tables.specs.Layout.{TRIGGER_BYTES, byte_at};

use theory::{EVENTS, PERIODIC_ROWS, TRIGGER_ROWS, WAITING_ROWS};
use widths::{index, row_index};

// The bytes of a row of each table, and of the whole table.
pub const PERIODIC_BYTES: usize = 16;

pub const TRIGGER_BYTES: usize = 13;

pub const PERIODIC_TABLE: usize = PERIODIC_BYTES * (PERIODIC_ROWS as usize);

pub const TRIGGER_TABLE: usize = TRIGGER_BYTES * (TRIGGER_ROWS as usize);

// The numbers of each buffer.
pub const EVENTS_NUMBERS: usize = EVENTS as usize;

pub const WAITING_NUMBERS: usize = EVENTS_NUMBERS * (WAITING_ROWS as usize);

// The flat numbers of a request.
pub const REQUEST_BYTES: usize = 3;

// How much of what is lent is used: the role count, and the rows of each table.
// Kept: a table and the number of its rows stand apart, for document 01 lends tables of one length; a count may be any, and what it says is judged.
#[derive(Clone, Copy, PartialEq, Eq, Debug)]
pub struct Counts {
    pub roles: u8,
    pub periodics: u16,
    pub triggers: u16,
}

// What is lent to be read: how much of it is used, and both tables.
#[derive(Clone, Copy)]
pub struct Rules<'a> {
    pub counts: Counts,
    pub periodics: &'a [u8],
    pub triggers: &'a [u8],
}

// The element at i; `past` past the end.
pub fn at_or<T: Copy>(items: &[T], i: usize, past: T) -> T
    ensures { result ≡ get_or items.now i past }
{
    items.get(i).copied().unwrap_or(past)
}

// The byte at i; 0 past the end.
pub fn byte(table: &[u8], i: usize) -> u8
    ensures { result ≡ byte_at table.now i }
{
    at_or(table, i, 0)
}

// Which byte of a trigger's row each field is, or the first of its four (docs/TABLES.md).
pub const EVENT_COUNT: u8 = 0;

pub const CONDITION_COUNT: u8 = 1;

pub const FIRST_EVENT: usize = 2;

pub const FIRST_CONDITION: usize = 6;

pub const HEAD: u8 = 10;

pub const PRIORITY: u8 = 11;

pub const DELAY: u8 = 12;

// Byte k of row i of a trigger table.
pub fn trigger_byte(table: &[u8], i: u16, k: u8) -> u8
    ensures { result ≡ byte_at table.now (TRIGGER_BYTES * i + k) }
{
    byte(table, TRIGGER_BYTES * row_index(i) + index(k))
}

// The row's bytes over the table's from `at` on. (For the reader alone, which has shown that they fit.)
pub fn copy_in(table: &mut [u8], at: usize, row: &[u8])
    requires { at + length row.now ≤ length table.old }
    ensures { table.new ≡ paste table.old at row.now (length row.now) }
{
    table[at..at + row.len()].copy_from_slice(row);
}
