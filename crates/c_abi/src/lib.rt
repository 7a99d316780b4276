// The number of the interface for C: a driver built for another one names another symbol, and does not link.
#![tactic(auto)]

ghost use Rattle.std.specs.Prelude.{◌≡◌};

// Gives the number that is in its name; OSTROGOSZ_ABI of include/ostrogosz/common.h.
pub fn ostrogosz_abi_1() -> u32
    ensures { result ≡ 1 }
{
    1
}
