// Message 7, Uplink, for C: the payload lies in the caller's octets.
#![tactic(auto)]

ghost use Rattle.std.specs.Prelude.{◌≡◌, length, drop};
ghost use Rattle.ucp_messages.specs.Uplink7.{uplink_fits, uplink_body};
ghost use Rattle.ucp_writer.specs.Sends.{SendsBody};
ghost use Rattle.c_lent.specs.Steps.{number_in};
ghost use Rattle.c_ucp_uplink.specs.Uplink.{ReadsUplink, WritesUplink, SendsUplink};

use output_writing::{OstrogoszWritten, Written};
use refusals::Refusal;
use ucp_frame::FrameBuffer;

// All octets behind the first.
fn fill(body: &[u8], payload: &mut [u8])
    requires { (length body.now ≡ 436) × (length payload.old ≡ 435) }
    ensures { payload.new ≡ drop 1 body.now }
{
    field_layout::store(&body[1..], payload);
}

fn read(body: &[u8], payload: &mut [u8; 435]) -> Result<(), Refusal>
    ensures { ReadsUplink body.now payload.old (number_in result) payload.new }
{
    c_lent::first_refusal(body, 7, 436)?;
    fill(body, payload);
    Ok(())
}

// Reads a body into the payload: 0, or the refusal that is due, 10 or 11, and then the payload is as it was.
pub fn ostrogosz_ucp_read_uplink(body: &[u8], payload: &mut [u8; 435]) -> u32
    ensures { ReadsUplink body.now payload.old result payload.new }
{
    c_lent::read_number(read(body, payload))
}

// Writes the body that carries a payload: 13 for another length than 435, then 8.
pub fn ostrogosz_ucp_write_uplink(payload: &[u8], output: &mut [u8]) -> OstrogoszWritten
    ensures { WritesUplink payload.now output.old result output.new }
{
    OstrogoszWritten::from(ucp_messages::uplink_7::write(payload, output))
}

fn send(payload: &[u8], buffer: &mut FrameBuffer) -> Written
    ensures { SendsBody (uplink_fits payload.now) (uplink_body payload.now) buffer.old result buffer.new }
{
    let octets = ucp_messages::uplink_7::write(payload, buffer)?;
    ucp_writer::frame_in_place(buffer, octets)
}

// Writes the frame of the body that carries a payload at the start of buffer, and leaves what is behind it: 13. The body is
// written into the buffer, and made its frame there.
pub fn ostrogosz_ucp_send_uplink(payload: &[u8], buffer: &mut FrameBuffer) -> OstrogoszWritten
    ensures { SendsUplink payload.now buffer.old result buffer.new }
{
    OstrogoszWritten::from(send(payload, buffer))
}
