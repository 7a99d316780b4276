// Message 11, Ownship geometric altitude, for C: the message lies in the caller's struct, which is lent as its octets.
#![tactic(auto)]

ghost use Rattle.std.specs.Prelude.{◌≡◌, ◌++◌, ◌≤◌, length, drop};
ghost use Rattle.field_format.specs.Format.{value_in, body_of};
ghost use Rattle.ucp_messages.specs.GeometricAltitude11.{geometric_format};
ghost use Rattle.c_lent.specs.Reads.{ReadsInto};
ghost use Rattle.c_lent.specs.Writes.{WritesStructBody, WritesStruct};
ghost use Rattle.c_lent.specs.Sends.{SendsStruct};
ghost use Rattle.c_lent.specs.Steps.{number_in};
ghost use Rattle.c_lent.specs.Structs.{stored, held};
ghost use Rattle.c_ucp_geometric_altitude.specs.Struct.{geometric_struct};

use output_writing::OstrogoszWritten;
use refusals::Refusal;
use ucp_frame::FrameBuffer;

// ---- reading

// The body has both numbers most significant octet first.
fn fill(body: &[u8], message: &mut [u8; 4])
    requires { length body.now ≡ 5 }
    ensures { message.new ≡ stored geometric_struct (value_in geometric_format body.now) }
{
    *message = [body[2], body[1], body[4], body[3]];
}

fn read(body: &[u8], message: &mut [u8; 4]) -> Result<(), Refusal>
    ensures { ReadsInto geometric_format geometric_struct body.now message.old (number_in result) message.new }
{
    c_lent::first_refusal(body, 11, 5)?;
    fill(body, message);
    Ok(())
}

// Reads a body into the struct: 0, or the refusal that is due, 10 or 11, and then the struct is as it was.
pub fn ostrogosz_ucp_read_geometric_altitude(body: &[u8], message: &mut [u8; 4]) -> u32
    ensures { ReadsInto geometric_format geometric_struct body.now message.old result message.new }
{
    c_lent::read_number(read(body, message))
}

// ---- writing

// Puts the body at the start of output.
#[tactic(auto, using(c_lent::proofs::Sizes::sizes))]
fn put(message: &[u8], output: &mut [u8])
    requires { (length message.now ≡ 4) × (5 ≤ length output.old) }
    ensures { output.new ≡ body_of geometric_format (held geometric_struct message.now) ++ drop 5 output.old }
{
    output[0] = 11;
    output[1] = message[1];
    output[2] = message[0];
    output[3] = message[3];
    output[4] = message[2];
}

// Every field has room in the body.
fn write(message: &[u8; 4], output: &mut [u8]) -> Result<(), Refusal>
    ensures { WritesStruct geometric_format (held geometric_struct message.now) 5 output.old result output.new }
{
    if output.len() < 5 {
        return Err(Refusal::OutputLength);
    }
    put(message, output);
    Ok(())
}

// Writes the body of the message that a struct holds: 8.
pub fn ostrogosz_ucp_write_geometric_altitude(
    message: &[u8; 4],
    output: &mut [u8],
) -> OstrogoszWritten
    ensures { WritesStructBody geometric_format (held geometric_struct message.now) output.old result output.new }
{
    c_lent::written_numbers(write(message, output), 5)
}

// ---- sending

// Writes the frame of the message that a struct holds at the start of buffer, and leaves what is behind it. The body is
// written into the buffer, and made its frame there.
pub fn ostrogosz_ucp_send_geometric_altitude(
    message: &[u8; 4],
    buffer: &mut FrameBuffer,
) -> OstrogoszWritten
    ensures { SendsStruct geometric_format (held geometric_struct message.now) buffer.old result buffer.new }
{
    let written = write(message, buffer);
    OstrogoszWritten::from(c_lent::frame_if_written(written, 5, buffer))
}
