// Message 44, Message Request, for C: the message lies in the caller's struct, which is lent as its octets.
#![tactic(auto)]

ghost use Rattle.std.specs.Prelude.{◌≡◌, ◌++◌, ◌≤◌, length, drop};
ghost use Rattle.field_format.specs.Format.{value_in, body_of};
ghost use Rattle.ucp_messages.specs.Request44.{request_format};
ghost use Rattle.c_lent.specs.Reads.{ReadsInto};
ghost use Rattle.c_lent.specs.Writes.{WritesStructBody, WritesStruct};
ghost use Rattle.c_lent.specs.Sends.{SendsStruct};
ghost use Rattle.c_lent.specs.Steps.{number_in};
ghost use Rattle.c_lent.specs.Structs.{stored, held};
ghost use Rattle.c_ucp_request.specs.Struct.{request_struct};

use output_writing::OstrogoszWritten;
use refusals::Refusal;
use ucp_frame::FrameBuffer;

// ---- reading

fn fill(body: &[u8], message: &mut [u8; 1])
    requires { length body.now ≡ 3 }
    ensures { message.new ≡ stored request_struct (value_in request_format body.now) }
{
    *message = [body[2]];
}

fn read(body: &[u8], message: &mut [u8; 1]) -> Result<(), Refusal>
    ensures { ReadsInto request_format request_struct body.now message.old (number_in result) message.new }
{
    c_lent::first_refusal(body, 44, 3)?;
    if body[1] != 2 {
        return Err(Refusal::Fixed);
    }
    fill(body, message);
    Ok(())
}

// Reads a body into the struct: 0, or the refusal that is due, 10 to 12, and then the struct is as it was.
pub fn ostrogosz_ucp_read_request(body: &[u8], message: &mut [u8; 1]) -> u32
    ensures { ReadsInto request_format request_struct body.now message.old result message.new }
{
    c_lent::read_number(read(body, message))
}

// ---- writing

// Puts the body at the start of output.
#[tactic(auto, using(c_lent::proofs::Sizes::sizes))]
fn put(message: &[u8], output: &mut [u8])
    requires { (length message.now ≡ 1) × (3 ≤ length output.old) }
    ensures { output.new ≡ body_of request_format (held request_struct message.now) ++ drop 3 output.old }
{
    output[0] = 44;
    output[1] = 2;
    output[2] = message[0];
}

// Every field has room in the body.
fn write(message: &[u8; 1], output: &mut [u8]) -> Result<(), Refusal>
    ensures { WritesStruct request_format (held request_struct message.now) 3 output.old result output.new }
{
    if output.len() < 3 {
        return Err(Refusal::OutputLength);
    }
    put(message, output);
    Ok(())
}

// Writes the body of the message that a struct holds: 8.
pub fn ostrogosz_ucp_write_request(message: &[u8; 1], output: &mut [u8]) -> OstrogoszWritten
    ensures { WritesStructBody request_format (held request_struct message.now) output.old result output.new }
{
    c_lent::written_numbers(write(message, output), 3)
}

// ---- sending

// Writes the frame of the message that a struct holds at the start of buffer, and leaves what is behind it. The body is
// written into the buffer, and made its frame there.
pub fn ostrogosz_ucp_send_request(message: &[u8; 1], buffer: &mut FrameBuffer) -> OstrogoszWritten
    ensures { SendsStruct request_format (held request_struct message.now) buffer.old result buffer.new }
{
    let written = write(message, buffer);
    OstrogoszWritten::from(c_lent::frame_if_written(written, 3, buffer))
}
