// The calls of `c_ucp_report` as symbols for C and Rust. scripts/exports writes these files.
#![tactic(auto)]

ghost use Rattle.ucp_messages.specs.Report10.{report_format};
ghost use Rattle.c_lent.specs.Reads.{ReadsInto};
ghost use Rattle.c_lent.specs.Writes.{WritesStructBody};
ghost use Rattle.c_lent.specs.Sends.{SendsStruct};
ghost use Rattle.c_lent.specs.Structs.{held};
ghost use Rattle.c_ucp_report.specs.Struct.{report_struct};

use output_writing::OstrogoszWritten;
use ucp_frame::FrameBuffer;

// Reads a body into the struct: 0, or the refusal that is due, 10 or 11, and then the struct is as it was.
#[unsafe(no_mangle)]
pub extern "C" fn ostrogosz_ucp_read_ownship(body: &[u8], message: &mut [u8; 40]) -> u32
    ensures { ReadsInto (report_format 10) report_struct body.now message.old result message.new }
{
    c_ucp_report::ostrogosz_ucp_read_ownship(body, message)
}

#[unsafe(no_mangle)]
pub extern "C" fn ostrogosz_ucp_read_traffic(body: &[u8], message: &mut [u8; 40]) -> u32
    ensures { ReadsInto (report_format 20) report_struct body.now message.old result message.new }
{
    c_ucp_report::ostrogosz_ucp_read_traffic(body, message)
}

// Writes the body of the message that a struct holds: 13, then 8.
#[unsafe(no_mangle)]
pub extern "C" fn ostrogosz_ucp_write_ownship(
    message: &[u8; 40],
    output: &mut [u8],
) -> OstrogoszWritten
    ensures { WritesStructBody (report_format 10) (held report_struct message.now) output.old result output.new }
{
    c_ucp_report::ostrogosz_ucp_write_ownship(message, output)
}

#[unsafe(no_mangle)]
pub extern "C" fn ostrogosz_ucp_write_traffic(
    message: &[u8; 40],
    output: &mut [u8],
) -> OstrogoszWritten
    ensures { WritesStructBody (report_format 20) (held report_struct message.now) output.old result output.new }
{
    c_ucp_report::ostrogosz_ucp_write_traffic(message, output)
}

// Writes the frame of the message that a struct holds at the start of buffer, and leaves what is behind it: 13.
#[unsafe(no_mangle)]
pub extern "C" fn ostrogosz_ucp_send_ownship(
    message: &[u8; 40],
    buffer: &mut FrameBuffer,
) -> OstrogoszWritten
    ensures { SendsStruct (report_format 10) (held report_struct message.now) buffer.old result buffer.new }
{
    c_ucp_report::ostrogosz_ucp_send_ownship(message, buffer)
}

#[unsafe(no_mangle)]
pub extern "C" fn ostrogosz_ucp_send_traffic(
    message: &[u8; 40],
    buffer: &mut FrameBuffer,
) -> OstrogoszWritten
    ensures { SendsStruct (report_format 20) (held report_struct message.now) buffer.old result buffer.new }
{
    c_ucp_report::ostrogosz_ucp_send_traffic(message, buffer)
}
