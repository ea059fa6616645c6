// The conflicting event of an event: the same role and the other low bit.
#![tactic(auto)]

ghost use Rattle.std.specs.Prelude.{◌≡◌};
ghost use Rattle.theory.specs.Events.{conf};

// The conflicting event: the same role and the other low bit.
pub fn conflict(e: u8) -> u8
    ensures { result ≡ conf e }
{
    if e % 2 == 1 {
        return e - 1;
    }
    e + 1
}
