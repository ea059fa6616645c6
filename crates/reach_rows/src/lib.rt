// The rows, one for each event: whether one event leads to another, and an edge added. What is no event has no row.
#![tactic(auto)]

ghost use Rattle.std.specs.Prelude.{◌≡◌, false};
ghost use Rattle.reach_rows.specs.Rows.{edges_of, RowsAre, Become, linked};

use reach_row::{PLACES, Row, reaches, with};

// The rows, one for each event.
pub type Rows = [Row; PLACES];

// The rows without an edge.
pub fn none() -> Rows
    ensures { RowsAre (λ _ _. false) result }
{
    let row = reach_row::none();
    [row; PLACES]
}

// The row of a reaches b. What is no event has no row.
pub fn leads(rows: &Rows, a: u8, b: u8) -> bool
    ensures { result ≡ edges_of rows.now a b }
{
    let i = widths::index(a);
    if i >= PLACES {
        return false;
    }
    reaches(&rows[i], b)
}

// The rows with an edge from a to b added, where `on` and both are events.
pub fn link(rows: &mut Rows, a: u8, b: u8, on: bool)
    ensures { Become (linked on a b) rows.old rows.new }
{
    let i = widths::index(a);
    if i < PLACES {
        with(&mut rows[i], b, on);
    }
}
