// The reach: rows of edges closed, so that the row of an event has just the events that it comes to by zero edges or more.
#![tactic(auto)]

ghost use Rattle.std.specs.Prelude.{◌+◌, ◌<◌};
ghost use Rattle.theory.specs.Numbers.{EVENTS};
ghost use Rattle.theory.specs.Graph.{Edges};
ghost use Rattle.theory.specs.LoopTest.{through};
ghost use Rattle.reach_rows.specs.Rows.{RowsAre, Become};
ghost use Rattle.reach.specs.Reach.{taken_over, via};

use reach_rows::Rows;
use theory::EVENTS;

// The row of a, where it reaches k, takes over what the row of k reaches.
fn take_over(rows: &mut Rows, a: u8, k: u8)
    requires { (a < EVENTS) × (k < EVENTS) }
    ensures { Become (taken_over a k) rows.old rows.new }
{
    let i = widths::index(a);
    let j = widths::index(k);
    if reach_rows::leads(rows, a, k) {
        rows[i] = reach_row::joined(rows[i], rows[j]);
    }
}

// Every event reaches itself, by zero edges.
fn own(rows: &mut Rows)
    ensures { Become (λ E. through E 0) rows.old rows.new }
{
    for a in 0..EVENTS {
        reach_rows::link(rows, a, a, true);
    }
}

// Each row that reaches k takes over what k reaches.
fn phase(rows: &mut Rows, k: u8)
    requires { k < EVENTS }
    ensures { Become (via k) rows.old rows.new }
{
    for a in 0..EVENTS {
        take_over(rows, a, k);
    }
}

// The paths through k join those through events below it. Where no edge leaves k there are none.
fn go_through(rows: &mut Rows, edges: &Rows, k: u8)
    requires { k < EVENTS }
    ensures { (E : Edges)
        → RowsAre E edges.now
        → RowsAre (through E k) rows.old
        → RowsAre (through E (k + 1)) rows.new }
{
    if reach_row::some(&edges[widths::index(k)]) {
        phase(rows, k);
    }
}

// The rows closed under edges: for each event the row of events that it reaches.
pub fn closed(edges: Rows) -> Rows
    ensures { Become (λ E. through E EVENTS) edges result }
{
    let mut rows = edges;
    own(&mut rows);
    for k in 0..EVENTS {
        go_through(&mut rows, &edges, k);
    }
    rows
}
