// The calls of `c_abi` as symbols for C and Rust. scripts/exports writes these files.
#![tactic(auto)]

ghost use Rattle.std.specs.Prelude.{◌≡◌};

// Gives the number that is in its name; OSTROGOSZ_ABI of include/ostrogosz/common.h.
#[unsafe(no_mangle)]
pub extern "C" fn ostrogosz_abi_1() -> u32
    ensures { result ≡ 1 }
{
    c_abi::ostrogosz_abi_1()
}
