// The frame writer: one call makes a frame of a body.
#![tactic(auto)]

mod in_place;
pub mod room;

ghost use Rattle.std.specs.Prelude.{◌≡◌, ◌++◌, ◌+◌, ◌-◌, ◌%◌, ◌<◌, ◌≤◌, length, take, drop};
ghost use Rattle.ucp_frame.specs.Frame.{stuffed, frame};
ghost use Rattle.ucp_writer.specs.Steps.{frame_end, frame_rest};
ghost use Rattle.output_writing.specs.Puts.{Puts};
ghost use Rattle.ucp_writer.specs.Writes.{WritesFrame, FramesInPlace};

use output_writing::Written;
use ucp_frame::FrameBuffer;

// Writes the frame of body at the start of output. Refusals: 7, a body of 0 or more than 436 octets; 8, an output shorter than
// the frame. On a refusal nothing is written.
pub fn write_frame(body: &[u8], output: &mut [u8]) -> Written
    ensures { WritesFrame body.now output.old result output.new }
{
    room::admit(body, output)?;
    Ok(fill(body, output))
}

// Makes of the body in the first octets of buffer its frame, where it lies, so that no body needs a place of its own. Refusal: 7, 0 or
// more than 436 octets. On a refusal nothing is done.
pub fn frame_in_place(buffer: &mut FrameBuffer, octets: usize) -> Written
    ensures { FramesInPlace buffer.old octets result buffer.new }
{
    in_place::frame_front(buffer, octets)
}

// Writes the frame of body at the start of output, which has room for it: one pass checks and stuffs.
fn fill(body: &[u8], output: &mut [u8]) -> usize
    requires { length (frame body.now) ≤ length output.old }
    ensures { (result ≡ length (frame body.now)) × (output.new ≡ frame body.now ++ drop result output.old) }
{
    output[0] = 0x7E;
    let start = crc_gdl90::head_length(body.len());
    let at = put_head(body, output, start);
    fill_words(body, output, start, crc_gdl90::head_check(body, start), at)
}

// Puts the first octets, at most two, behind the flag, and gives the next place.
fn put_head(body: &[u8], output: &mut [u8], octets: usize) -> usize
    requires { (octets ≤ 2) × (octets ≤ length body.now) × (1 + length (stuffed (take octets body.now)) ≤ length output.old) }
    ensures { Puts output.old 1 (stuffed (take octets body.now)) result output.new }
{
    if octets == 0 {
        return 1;
    }
    if octets == 1 {
        return ucp_stuffing::put(output, 1, body[0]);
    }
    ucp_stuffing::put_pair(output, 1, body[0], body[1])
}

// Puts what is left of a frame at a place of output: the octets of body from start on, an even number of them, and the end.
// The check is that of the octets before.
pub fn fill_words(body: &[u8], output: &mut [u8], start: usize, check: u16, at: usize) -> usize
    requires { (start ≤ length body.now) × ((length body.now - start) % 2 ≡ 0) × (at + length (frame_rest check (drop start body.now)) ≤ length output.old) }
    ensures { Puts output.old at (frame_rest check (drop start body.now)) result output.new }
{
    fill_left(&body[start..], output, check, at)
}

// The same of the octets that are left.
fn fill_left(octets: &[u8], output: &mut [u8], check: u16, at: usize) -> usize
    requires { (length octets.now % 2 ≡ 0) × (at + length (frame_rest check octets.now) ≤ length output.old) }
    ensures { Puts output.old at (frame_rest check octets.now) result output.new }
{
    let (words, rest) = octets.as_chunks::<8>();
    let mut check = check;
    let mut at = at;
    for word in words {
        let word = field_words::word(*word);
        check = crc_gdl90::next_check_eight(check, field_words::turned(word));
        at = ucp_stuffing::put_eight(output, at, word);
    }
    fill_pairs(rest, output, check, at)
}

// The same, two octets at a time.
fn fill_pairs(octets: &[u8], output: &mut [u8], check: u16, at: usize) -> usize
    requires { (length octets.now % 2 ≡ 0) × (at + length (frame_rest check octets.now) ≤ length output.old) }
    ensures { Puts output.old at (frame_rest check octets.now) result output.new }
{
    let (pairs, _) = octets.as_chunks::<2>();
    let mut check = check;
    let mut at = at;
    for pair in pairs {
        check = crc_gdl90::next_check_pair(check, pair[0], pair[1]);
        at = ucp_stuffing::put_pair(output, at, pair[0], pair[1]);
    }
    close(output, at, check)
}

// Ends a frame at a place of output: its check, low octet first, stuffed, and the flag. Gives the place behind it.
fn close(output: &mut [u8], at: usize, check: u16) -> usize
    requires { at + length (frame_end check) ≤ length output.old }
    ensures { Puts output.old at (frame_end check) result output.new }
{
    let next = ucp_stuffing::put(output, at, (check % 256) as u8);
    let last = ucp_stuffing::put(output, next, (check / 256) as u8);
    output[last] = 0x7E;
    last + 1
}
