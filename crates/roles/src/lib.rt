// The role set, a number of 64 bits: whether a role is enabled. What is no role is not.
#![tactic(auto)]

ghost use Rattle.std.specs.Prelude.{◌≡◌};
ghost use Rattle.tables.specs.Buffers.{bit};

use theory::ROLES;

// Role r is enabled.
pub fn role_on(roles: u64, r: u8) -> bool
    ensures { result ≡ bit roles r }
{
    if r < ROLES {
        return (roles >> r) % 2 == 1;
    }
    false
}
