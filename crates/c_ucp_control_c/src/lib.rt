// The calls of `c_ucp_control` as symbols for C and Rust. scripts/exports writes these files.
#![tactic(auto)]

ghost use Rattle.ucp_messages.specs.Control45.{control_format};
ghost use Rattle.c_lent.specs.Reads.{ReadsInto};
ghost use Rattle.c_lent.specs.Writes.{WritesStructBody};
ghost use Rattle.c_lent.specs.Sends.{SendsStruct};
ghost use Rattle.c_lent.specs.Structs.{held};
ghost use Rattle.c_ucp_control.specs.Struct.{control_struct};

use output_writing::OstrogoszWritten;
use ucp_frame::FrameBuffer;

// Reads a body into the struct: 0, or the refusal that is due, 10 to 13, and then the struct is as it was.
#[unsafe(no_mangle)]
pub extern "C" fn ostrogosz_ucp_read_control(body: &[u8], message: &mut [u8; 24]) -> u32
    ensures { ReadsInto control_format control_struct body.now message.old result message.new }
{
    c_ucp_control::ostrogosz_ucp_read_control(body, message)
}

// Writes the body of the message that a struct holds: 13, then 8.
#[unsafe(no_mangle)]
pub extern "C" fn ostrogosz_ucp_write_control(
    message: &[u8; 24],
    output: &mut [u8],
) -> OstrogoszWritten
    ensures { WritesStructBody control_format (held control_struct message.now) output.old result output.new }
{
    c_ucp_control::ostrogosz_ucp_write_control(message, output)
}

// Writes the frame of the message that a struct holds at the start of buffer, and leaves what is behind it: 13.
#[unsafe(no_mangle)]
pub extern "C" fn ostrogosz_ucp_send_control(
    message: &[u8; 24],
    buffer: &mut FrameBuffer,
) -> OstrogoszWritten
    ensures { SendsStruct control_format (held control_struct message.now) buffer.old result buffer.new }
{
    c_ucp_control::ostrogosz_ucp_send_control(message, buffer)
}
