// The byte account: what a flag, and octets other than the flag, add to it.
ghost use Rattle.std.specs.Prelude.{◌≡◌, ℕ, ◌%◌, ◌^◌, List};
ghost use Rattle.ucp_receiver.specs.Answers.{verdict_of};
ghost use Rattle.ucp_receiver.specs.Account.{zero_counts, counted_flag, counted_skipped, counted_open, repeated};

use super::{Answer, Counts};

// At the start.
pub(crate) fn zero_counts() -> Counts
    ensures { result ≡ zero_counts }
{
    Counts {
        flags: 0,
        delivered: 0,
        refused: 0,
        skipped: 0,
        unclosed: 0,
    }
}

// At a flag, by the answer.
pub(crate) fn count_flag(counts: Counts, answer: Answer) -> Counts
    ensures { (store : List ℕ) → result ≡ counted_flag (verdict_of answer store) counts }
{
    let closed = counts.unclosed;
    let counts = Counts {
        flags: counts.flags.wrapping_add(1),
        unclosed: 0,
        ..counts
    };
    match answer {
        None => counts,
        Some(Ok(_)) => Counts {
            delivered: counts.delivered.wrapping_add(closed),
            ..counts
        },
        Some(Err(_)) => Counts {
            refused: counts.refused.wrapping_add(closed),
            ..counts
        },
    }
}

// What a u32 holds of n: a count that runs round loses nothing by it.
fn rounded(n: usize) -> u32
    ensures { result ≡ n % 2 ^ 32 }
{
    (n % 4294967296) as u32
}

// n octets before the first flag.
pub(crate) fn count_skipped(counts: Counts, n: usize) -> Counts
    ensures { result ≡ repeated counted_skipped n counts }
{
    Counts {
        skipped: counts.skipped.wrapping_add(rounded(n)),
        ..counts
    }
}

// n octets behind a flag.
pub(crate) fn count_open(counts: Counts, n: usize) -> Counts
    ensures { result ≡ repeated counted_open n counts }
{
    Counts {
        unclosed: counts.unclosed.wrapping_add(rounded(n)),
        ..counts
    }
}
