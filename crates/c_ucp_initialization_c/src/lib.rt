// The calls of `c_ucp_initialization` as symbols for C and Rust. scripts/exports writes these files.
#![tactic(auto)]

ghost use Rattle.ucp_messages.specs.Initialization117.{initialization_format};
ghost use Rattle.c_lent.specs.Reads.{ReadsInto};
ghost use Rattle.c_lent.specs.Writes.{WritesStructBody};
ghost use Rattle.c_lent.specs.Sends.{SendsStruct};
ghost use Rattle.c_lent.specs.Structs.{held};
ghost use Rattle.c_ucp_initialization.specs.Struct.{initialization_struct};

use output_writing::OstrogoszWritten;
use ucp_frame::FrameBuffer;

// Reads a body into the struct: 0, or the refusal that is due, 10 to 13, and then the struct is as it was.
#[unsafe(no_mangle)]
pub extern "C" fn ostrogosz_ucp_read_initialization(body: &[u8], message: &mut [u8; 24]) -> u32
    ensures { ReadsInto initialization_format initialization_struct body.now message.old result message.new }
{
    c_ucp_initialization::ostrogosz_ucp_read_initialization(body, message)
}

// Writes the body of the message that a struct holds: 13, then 8.
#[unsafe(no_mangle)]
pub extern "C" fn ostrogosz_ucp_write_initialization(
    message: &[u8; 24],
    output: &mut [u8],
) -> OstrogoszWritten
    ensures { WritesStructBody initialization_format (held initialization_struct message.now) output.old result output.new }
{
    c_ucp_initialization::ostrogosz_ucp_write_initialization(message, output)
}

// Writes the frame of the message that a struct holds at the start of buffer, and leaves what is behind it: 13. The body is
// written into the buffer, and made its frame there.
#[unsafe(no_mangle)]
pub extern "C" fn ostrogosz_ucp_send_initialization(
    message: &[u8; 24],
    buffer: &mut FrameBuffer,
) -> OstrogoszWritten
    ensures { SendsStruct initialization_format (held initialization_struct message.now) buffer.old result buffer.new }
{
    c_ucp_initialization::ostrogosz_ucp_send_initialization(message, buffer)
}
