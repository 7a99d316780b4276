// The flag that closes a stretch without a fault: the answer that is due by the stored octets, and the body put out where it is
// one.
ghost use Rattle.std.specs.Prelude.{◌≡◌, ◌≤◌, length};
ghost use Rattle.ucp_frame.specs.Stretch.{at_flag, check_sent};
ghost use Rattle.ucp_receiver.specs.Closing.{closed_stretch, Closes};
ghost use Rattle.ucp_receiver.specs.Steps.{Judges, PutsOut};

use super::{Answer, Store};
use refusals::Refusal;

// The check that was sent, low octet first.
fn check_sent(octets: &[u8]) -> u16
    requires { 2 ≤ length octets.now }
    ensures { result ≡ check_sent octets.now }
{
    let n = octets.len();
    u16::from_le_bytes([octets[n - 2], octets[n - 1]])
}

// How long the body is that is due for the unstuffed octets of a stretch, or refusal 4, 5 or 6, in their order.
fn judge(octets: &[u8], room: usize) -> Result<usize, Refusal>
    ensures { Judges result octets.now room (at_flag octets.now room) }
{
    if octets.len() < 3 {
        return Err(Refusal::TooShort);
    }
    let n = octets.len() - 2;
    let sent = check_sent(octets);
    let check = crc_gdl90::frame_check_by_shifts(&octets[..n]);
    if sent != check {
        return Err(Refusal::WrongCheck);
    }
    if room < n {
        return Err(Refusal::Room);
    }
    Ok(n)
}

// Copies octets over as many others.
// Stays: a loop, since `copy_from_slice` calls C's memmove, and the archive calls memcpy and memset at most: that is C's interface.
pub(crate) fn copy(octets: &[u8], output: &mut [u8])
    requires { length octets.now ≡ length output.old }
    ensures { output.new ≡ octets.now }
{
    for i in 0..octets.len() {
        output[i] = octets[i];
    }
}

// The same, with the body put at the start of the output where one is due.
fn put_out(octets: &[u8], output: &mut [u8]) -> Result<usize, Refusal>
    ensures { PutsOut result octets.now output.old output.new (at_flag octets.now (length output.old)) }
{
    let n = judge(octets, output.len())?;
    copy(&octets[..n], &mut output[..n]);
    Ok(n)
}

// The answer at the flag, with the body put out where one is due. `stored` is over 438 in no record that a fresh one leads to.
pub(crate) fn close_stretch(store: &Store, stored: usize, output: &mut [u8]) -> Answer
    ensures { Closes result store.now output.old output.new (closed_stretch stored store.now (length output.old)) }
{
    if stored == 0 {
        return None;
    }
    if super::STORE_OCTETS < stored {
        return Some(Err(Refusal::TooLong));
    }
    Some(put_out(&store[..stored], output))
}
