// The failure bits of a self-test status, 1 to 4.
ghost use Rattle.std.specs.Prelude.{◌≡◌, length};
ghost use Rattle.mavlink_messages.specs.FailureBits.{failure_bits};
ghost use Rattle.mavlink_messages.specs.Failures.{lowest_answer, lowest_of};

// How many are set.
pub fn count_failures(status: u8) -> u32
    ensures { result ≡ length (failure_bits status) }
{
    u8::count_ones(status & 0x1E)
}

// The lowest that is set.
pub fn lowest_failure(status: u8) -> Option<u32>
    ensures { lowest_answer result ≡ lowest_of (failure_bits status) }
{
    let failed = status & 0x1E;
    if failed == 0 {
        return None;
    }
    Some(u8::trailing_zeros(failed))
}
