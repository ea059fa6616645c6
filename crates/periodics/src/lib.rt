// The fields of a periodic row, read from a table of any length by any row number; past the end stands 0.
#![tactic(auto)]

ghost use Rattle.std.specs.Prelude.{◌≡◌, ◌<◌};
ghost use Rattle.tables.specs.Layout.{two, four, periodic_at};
ghost use Rattle.periodics.specs.Rows.{periodic_of};

use tables::{PERIODIC_BYTES, byte};
use widths::{pair, row_index};

// A periodic row, field by field.
#[derive(Clone, Copy, PartialEq, Eq, Debug)]
pub struct PeriodicRow {
    pub begin: u32,
    pub end: u32,
    pub period: u32,
    pub first: u32,
    pub run: u32,
    pub event: u8,
    pub priority: u8,
}

// The number of two bytes at i, high byte first.
fn two_bytes(table: &[u8], i: usize) -> u32
    requires { i < 1048640 }
    ensures { (result ≡ two table.now i) × (result < 65536) }
{
    pair(byte(table, i), byte(table, i + 1))
}

// The number of four bytes at i, high byte first.
fn four_bytes(table: &[u8], i: usize) -> u32
    requires { i < 1048600 }
    ensures { result ≡ four table.now i }
{
    u32::from_be_bytes([
        byte(table, i),
        byte(table, i + 1),
        byte(table, i + 2),
        byte(table, i + 3),
    ])
}

// Row i of a periodic table.
pub fn periodic_row(table: &[u8], i: u16) -> PeriodicRow
    ensures { periodic_of result ≡ periodic_at table.now i }
{
    let at = PERIODIC_BYTES * row_index(i);
    PeriodicRow {
        begin: four_bytes(table, at),
        end: four_bytes(table, at + 4),
        period: two_bytes(table, at + 8),
        first: two_bytes(table, at + 10),
        run: two_bytes(table, at + 12),
        event: byte(table, at + 14),
        priority: byte(table, at + 15),
    }
}
