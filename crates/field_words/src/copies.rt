// Octets copied from one slice to another, eight at a time as far as that goes.
ghost use Rattle.std.specs.Prelude.{◌≡◌, ◌+◌, ◌≤◌, length};
ghost use Rattle.std.proofs.Math.Seq.{paste};

// Copies octets into output, from a place on.
pub fn copy(octets: &[u8], output: &mut [u8], at: usize)
    requires { at + length octets.now ≤ length output.old }
    ensures { output.new ≡ paste output.old at octets.now (length octets.now) }
{
    // Stays: a loop over words in place of one `copy_from_slice`: what may not change, the must-fail edit
    // `words_copied_to_the_start`, plants another place in it.
    let words = octets.len() / 8;
    for i in 0..words {
        super::put_64(output, at + i * 8, super::little_64(octets, i * 8));
    }
    output[at + words * 8..at + octets.len()].copy_from_slice(&octets[words * 8..]);
}
