// Message 0, Heartbeat, for C: the message lies in the caller's struct, which is lent as its octets.
#![tactic(auto)]

ghost use Rattle.std.specs.Prelude.{◌≡◌, ◌++◌, ◌≤◌, length, drop};
ghost use Rattle.field_format.specs.Format.{value_in, body_of};
ghost use Rattle.ucp_messages.specs.Heartbeat0.{heartbeat_format};
ghost use Rattle.c_lent.specs.Reads.{ReadsInto};
ghost use Rattle.c_lent.specs.Writes.{WritesStructBody, WritesStruct};
ghost use Rattle.c_lent.specs.Sends.{SendsStruct};
ghost use Rattle.c_lent.specs.Steps.{number_in};
ghost use Rattle.c_lent.specs.Structs.{stored, held};
ghost use Rattle.c_ucp_heartbeat.specs.Struct.{heartbeat_struct};

use output_writing::OstrogoszWritten;
use refusals::Refusal;
use ucp_frame::FrameBuffer;

// ---- reading

// The body has the counts most significant octet first.
fn fill(body: &[u8], message: &mut [u8; 6])
    requires { length body.now ≡ 7 }
    ensures { message.new ≡ stored heartbeat_struct (value_in heartbeat_format body.now) }
{
    *message = [body[1], body[2], body[3], body[4], body[6], body[5]];
}

fn read(body: &[u8], message: &mut [u8; 6]) -> Result<(), Refusal>
    ensures { ReadsInto heartbeat_format heartbeat_struct body.now message.old (number_in result) message.new }
{
    c_lent::first_refusal(body, 0, 7)?;
    fill(body, message);
    Ok(())
}

// Reads a body into the struct: 0, or the refusal that is due, 10 or 11, and then the struct is as it was.
pub fn ostrogosz_ucp_read_heartbeat(body: &[u8], message: &mut [u8; 6]) -> u32
    ensures { ReadsInto heartbeat_format heartbeat_struct body.now message.old result message.new }
{
    c_lent::read_number(read(body, message))
}

// ---- writing

// Puts the body at the start of output.
#[tactic(auto, using(c_lent::proofs::Sizes::sizes))]
fn put(message: &[u8], output: &mut [u8])
    requires { (length message.now ≡ 6) × (7 ≤ length output.old) }
    ensures { output.new ≡ body_of heartbeat_format (held heartbeat_struct message.now) ++ drop 7 output.old }
{
    output[0] = 0;
    output[1] = message[0];
    output[2] = message[1];
    output[3] = message[2];
    output[4] = message[3];
    output[5] = message[5];
    output[6] = message[4];
}

// Every field has room in the body.
fn write(message: &[u8; 6], output: &mut [u8]) -> Result<(), Refusal>
    ensures { WritesStruct heartbeat_format (held heartbeat_struct message.now) 7 output.old result output.new }
{
    if output.len() < 7 {
        return Err(Refusal::OutputLength);
    }
    put(message, output);
    Ok(())
}

// Writes the body of the message that a struct holds: 8.
pub fn ostrogosz_ucp_write_heartbeat(message: &[u8; 6], output: &mut [u8]) -> OstrogoszWritten
    ensures { WritesStructBody heartbeat_format (held heartbeat_struct message.now) output.old result output.new }
{
    c_lent::written_numbers(write(message, output), 7)
}

// ---- sending

// Writes the frame of the message that a struct holds at the start of buffer, and leaves what is behind it. The body is
// written into the buffer, and made its frame there.
pub fn ostrogosz_ucp_send_heartbeat(message: &[u8; 6], buffer: &mut FrameBuffer) -> OstrogoszWritten
    ensures { SendsStruct heartbeat_format (held heartbeat_struct message.now) buffer.old result buffer.new }
{
    let written = write(message, buffer);
    OstrogoszWritten::from(c_lent::frame_if_written(written, 7, buffer))
}
