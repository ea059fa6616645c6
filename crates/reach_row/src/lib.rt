// A row of events: whether it reaches one, one joined to it, two rows joined, and whether it reaches any. What is no event is in no row.
#![tactic(auto)]

ghost use Rattle.std.specs.Prelude.{◌≡◌, Bool, false, ◌&&◌, ◌||◌, ℕ, eqb};
ghost use Rattle.theory.specs.Numbers.{EVENTS};
ghost use Rattle.theory.specs.Below.{any_below};
ghost use Rattle.reach_row.specs.Row.{reaches, RowIs};

use theory::EVENTS;

// A place for each event.
pub const PLACES: usize = EVENTS as usize;

// A row of events: a truth value a byte, one for each event.
pub type Row = [bool; PLACES];

// The row without an event.
pub fn none() -> Row
    ensures { RowIs (λ _. false) result }
{
    [false; PLACES]
}

// The row reaches event b. No row reaches what is no event.
pub fn reaches(row: &Row, b: u8) -> bool
    ensures { result ≡ reaches row.now b }
{
    b < EVENTS && row[widths::index(b)]
}

// The row with event b added, where `on`. What is no event joins no row.
pub fn with(row: &mut Row, b: u8, on: bool)
    ensures { (f : ℕ → Bool) → RowIs f row.old → RowIs (λ x. f x || (on && eqb b x)) row.new }
{
    let i = widths::index(b);
    if on && i < PLACES {
        row[i] = true;
    }
}

// The events of either row.
// Kept: one index stands for both rows; `for (a, b) in r.iter_mut().zip(y)` with `*a |= b` is no plainer.
pub fn joined(x: Row, y: Row) -> Row
    ensures { (f g : ℕ → Bool) → RowIs f x → RowIs g y → RowIs (λ b. f b || g b) result }
{
    let mut r = x;
    for b in 0..PLACES {
        r[b] |= y[b];
    }
    r
}

// The row reaches some event.
pub fn some(row: &Row) -> bool
    ensures { result ≡ any_below EVENTS (reaches row.now) }
{
    row.contains(&true)
}
