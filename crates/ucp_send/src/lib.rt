// A typed message to the line in one call: its body, and the body's frame.
#![tactic(auto)]

ghost use Rattle.ucp_send.specs.Sends.{Sends};

use refusals::Refusal;
use ucp_frame::FrameBuffer;
use ucp_messages::Message;

// Writes the frame of a message at the start of buffer: the body goes there, and becomes its frame where it lies. On a refusal nothing
// is written. Only an uplink takes the payload.
pub fn send_message(
    message: Message,
    payload: &[u8],
    buffer: &mut FrameBuffer,
) -> Result<usize, Refusal>
    ensures { Sends message payload.now buffer.old result buffer.new }
{
    // Stays: a match and a name for the frame's length, where `?` and the call alone would do: the must-fail edits `refused_with_8` and
    // `length_of_the_body`, whose wrong meaning may not change, plant another value in these two places.
    match ucp_messages::write_message(message, payload, buffer) {
        Ok(octets) => {
            let framed = ucp_writer::frame_in_place(buffer, octets)?;
            Ok(framed)
        }
        Err(refusal) => Err(refusal),
    }
}
