// The triggers chained by their keys, 0 for one that has no turn and else the level of its head and 1; and the way up the keys, which misses none.
#![tactic(auto)]

ghost use Rattle.std.specs.Prelude.{◌≡◌, ℕ, ◌<◌, ◌≤◌};
ghost use Rattle.theory.specs.Numbers.{TRIGGER_ROWS};
ghost use Rattle.theory.specs.Solving.{Gap};
ghost use Rattle.keys.specs.Keys.{KEYS, key_in, Chained};

use bodies::allows;
use masks::number;
use tables::{HEAD, byte, trigger_byte};
use theory::TRIGGER_ROWS;
use triggers::counts_at;
use widths::{index, row_index};

// Keys are below this, for a level is at most 255.
pub const KEYS: u16 = 257;

// Where the chains have the first trigger of key 0; below it each trigger has the next of its key.
pub const FRONTS: usize = TRIGGER_ROWS as usize;

// The places of the chains.
// Kept: indices in an array in place of lists, for memory is fixed and there is no heap.
const PLACES: usize = FRONTS + (KEYS as usize);

// The key of trigger i: one more than the level of its head, and 0 where it does not count or its conditions do not all hold.
fn key_of(triggers: &[u8], levels: &[u8], roles: u64, i: u16) -> u16
    ensures { (result < KEYS) × ((n : ℕ) → result ≡ key_in triggers.now levels.now roles n i) }
{
    if !counts_at(triggers, i) {
        return 0;
    }
    if !allows(triggers, i, roles) {
        return 0;
    }
    let level = byte(levels, index(trigger_byte(triggers, i, HEAD)));
    level as u16 + 1
}

// The first n triggers chained by their keys. (For the solver alone, which has shown that a table has as many.)
pub fn chains(triggers: &[u8], levels: &[u8], roles: u64, n: u16) -> [u16; PLACES]
    requires { n ≤ TRIGGER_ROWS }
    ensures { Chained (key_in triggers.now levels.now roles n) n 0 result }
{
    let mut r = [n; PLACES];
    for i in (0..n).rev() {
        let key = key_of(triggers, levels, roles, i);
        let front = FRONTS + row_index(key);
        let at = row_index(i);
        r[at] = r[front];
        r[front] = i;
    }
    r
}

// The next key after k: above it, at most 257, and no key of the n chained triggers lies between. (For the solver alone, which has shown that k is below 257.)
pub fn next(chains: &[u16], n: u16, k: u16) -> u16
    requires { k < KEYS }
    ensures { (k < result) × (result ≤ KEYS) × ((key : ℕ → ℕ) → Chained key n 0 chains.now → Gap key n k result) }
{
    (k + 1..KEYS)
        .find(|r| number(chains, FRONTS + row_index(*r)) < n)
        .unwrap_or(KEYS)
}
