// The calls of `c_ucp_request` as symbols for C and Rust. scripts/exports writes these files.
#![tactic(auto)]

ghost use Rattle.ucp_messages.specs.Request44.{request_format};
ghost use Rattle.c_lent.specs.Reads.{ReadsInto};
ghost use Rattle.c_lent.specs.Writes.{WritesStructBody};
ghost use Rattle.c_lent.specs.Sends.{SendsStruct};
ghost use Rattle.c_lent.specs.Structs.{held};
ghost use Rattle.c_ucp_request.specs.Struct.{request_struct};

use output_writing::OstrogoszWritten;
use ucp_frame::FrameBuffer;

// Reads a body into the struct: 0, or the refusal that is due, 10 to 12, and then the struct is as it was.
#[unsafe(no_mangle)]
pub extern "C" fn ostrogosz_ucp_read_request(body: &[u8], message: &mut [u8; 1]) -> u32
    ensures { ReadsInto request_format request_struct body.now message.old result message.new }
{
    c_ucp_request::ostrogosz_ucp_read_request(body, message)
}

// Writes the body of the message that a struct holds: 8.
#[unsafe(no_mangle)]
pub extern "C" fn ostrogosz_ucp_write_request(
    message: &[u8; 1],
    output: &mut [u8],
) -> OstrogoszWritten
    ensures { WritesStructBody request_format (held request_struct message.now) output.old result output.new }
{
    c_ucp_request::ostrogosz_ucp_write_request(message, output)
}

// Writes the frame of the message that a struct holds at the start of buffer, and leaves what is behind it. The body is
// written into the buffer, and made its frame there.
#[unsafe(no_mangle)]
pub extern "C" fn ostrogosz_ucp_send_request(
    message: &[u8; 1],
    buffer: &mut FrameBuffer,
) -> OstrogoszWritten
    ensures { SendsStruct request_format (held request_struct message.now) buffer.old result buffer.new }
{
    c_ucp_request::ostrogosz_ucp_send_request(message, buffer)
}
