// The nodes, and the + edges or the − edges that leave them, of the first n triggers of any table, as document 01 draws them.
#![tactic(auto)]

ghost use Rattle.std.specs.Prelude.{◌≡◌, ℕ};
ghost use Rattle.theory.specs.Graph.{node};
ghost use Rattle.tables.specs.Layout.{triggers_of};
ghost use Rattle.reach_row.specs.Row.{RowIs};
ghost use Rattle.reach_rows.specs.Rows.{Become};
ghost use Rattle.edges.specs.Drawing.{tail_of, draws, draws_below, added_from};

use reach_row::Row;
use reach_rows::Rows;
use tables::{EVENT_COUNT, HEAD, trigger_byte};
use triggers::counts_at;

// The nodes: the head events of the first n triggers that count. The table may have any length and hold anything: past its end stands 0, and what is no event joins no row.
pub fn nodes(triggers: &[u8], n: u16) -> Row
    ensures { RowIs (node (triggers_of n triggers.now)) result }
{
    let mut heads = reach_row::none();
    for i in 0..n {
        let on = counts_at(triggers, i);
        let head = trigger_byte(triggers, i, HEAD);
        reach_row::with(&mut heads, head, on);
    }
    heads
}

// Where the edge of a body event e leaves: its conflict for a − edge, the event itself for a + edge.
fn tail(e: u8, negative: bool) -> u8
    ensures { result ≡ tail_of negative e }
{
    let c = conflicts::conflict(e);
    if negative { c } else { e }
}

// The rows with the edges of trigger i added: one for each body event, from its tail to the head, if the tail is a node.
fn draw_trigger(rows: &mut Rows, triggers: &[u8], i: u16, heads: &Row, negative: bool)
    ensures { (n : ℕ)
        → Become
        (added_from heads.now (draws (tail_of negative) (triggers_of n triggers.now) i))
        rows.old rows.new }
{
    if !counts_at(triggers, i) {
        return;
    }
    let head = trigger_byte(triggers, i, HEAD);
    let m = trigger_byte(triggers, i, EVENT_COUNT);
    for j in 0..m {
        let from = tail(triggers::event(triggers, i, j), negative);
        let on = reach_row::reaches(heads, from);
        reach_rows::link(rows, from, head, on);
    }
}

// The edges of the first n triggers that leave an event of `heads` join the rows: the − edges, or the + edges.
pub fn draw(rows: &mut Rows, triggers: &[u8], n: u16, heads: &Row, negative: bool)
    ensures { Become
        (added_from heads.now (draws_below (tail_of negative) (triggers_of n triggers.now) n))
        rows.old rows.new }
{
    for i in 0..n {
        draw_trigger(rows, triggers, i, heads, negative);
    }
}
