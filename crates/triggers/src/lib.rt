// The body events and conditions of a trigger, and whether it counts, from a table of any length by any row number; past the end stands 0.
#![tactic(auto)]

ghost use Rattle.std.specs.Prelude.{◌≡◌, ℕ};
ghost use Rattle.theory.specs.Graph.{counts};
ghost use Rattle.tables.specs.Layout.{trigger_at, triggers_of};

use tables::{DELAY, FIRST_CONDITION, FIRST_EVENT, TRIGGER_BYTES, byte, trigger_byte};
use widths::{index, row_index};

// Body event j of trigger i.
// Kept beside `condition`: each is one call of `byte`, and a function for both would be that call with one argument more.
#[tactic(auto, unfolding(tables::specs::Layout::trigger_from))]
pub fn event(triggers: &[u8], i: u16, j: u8) -> u8
    ensures { result ≡ (trigger_at triggers.now i).event j }
{
    byte(
        triggers,
        TRIGGER_BYTES * row_index(i) + FIRST_EVENT + index(j),
    )
}

// Condition j of trigger i.
#[tactic(auto, unfolding(tables::specs::Layout::trigger_from))]
pub fn condition(triggers: &[u8], i: u16, j: u8) -> u8
    ensures { result ≡ (trigger_at triggers.now i).condition j }
{
    byte(
        triggers,
        TRIGGER_BYTES * row_index(i) + FIRST_CONDITION + index(j),
    )
}

// Trigger i counts: its delay is 0.
#[tactic(auto, unfolding(tables::specs::Layout::trigger_from, tables::specs::Layout::sheet_of, theory::specs::Graph::counts))]
pub fn counts_at(triggers: &[u8], i: u16) -> bool
    ensures { (n : ℕ) → result ≡ counts (triggers_of n triggers.now) i }
{
    trigger_byte(triggers, i, DELAY) == 0
}
