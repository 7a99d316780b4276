// The calls of `c_ucp_uplink` as symbols for C and Rust. scripts/exports writes these files.
#![tactic(auto)]

ghost use Rattle.c_ucp_uplink.specs.Uplink.{ReadsUplink, WritesUplink, SendsUplink};

use output_writing::OstrogoszWritten;
use ucp_frame::FrameBuffer;

// Reads a body into the payload: 0, or the refusal that is due, 10 or 11, and then the payload is as it was.
#[unsafe(no_mangle)]
pub extern "C" fn ostrogosz_ucp_read_uplink(body: &[u8], payload: &mut [u8; 435]) -> u32
    ensures { ReadsUplink body.now payload.old result payload.new }
{
    c_ucp_uplink::ostrogosz_ucp_read_uplink(body, payload)
}

// Writes the body that carries a payload: 13 for another length than 435, then 8.
#[unsafe(no_mangle)]
pub extern "C" fn ostrogosz_ucp_write_uplink(payload: &[u8], output: &mut [u8]) -> OstrogoszWritten
    ensures { WritesUplink payload.now output.old result output.new }
{
    c_ucp_uplink::ostrogosz_ucp_write_uplink(payload, output)
}

// Writes the frame of the body that carries a payload at the start of buffer, and leaves what is behind it: 13. The body is
// written into the buffer, and made its frame there.
#[unsafe(no_mangle)]
pub extern "C" fn ostrogosz_ucp_send_uplink(
    payload: &[u8],
    buffer: &mut FrameBuffer,
) -> OstrogoszWritten
    ensures { SendsUplink payload.now buffer.old result buffer.new }
{
    c_ucp_uplink::ostrogosz_ucp_send_uplink(payload, buffer)
}
