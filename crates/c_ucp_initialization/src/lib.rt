// Message 117, Initialization, for C: the message lies in the caller's struct, which is lent as its octets.
#![tactic(auto)]

ghost use Rattle.std.specs.Prelude.{◌≡◌, true, ◌++◌, ◌≤◌, length, drop};
ghost use Rattle.std.proofs.lemmas.List.Edits.{sets};
ghost use Rattle.field_format.specs.Format.{value_in, body_of, fits};
ghost use Rattle.ucp_messages.specs.Initialization117.{initialization_format};
ghost use Rattle.c_lent.specs.Reads.{ReadsInto};
ghost use Rattle.c_lent.specs.Writes.{WritesStructBody, WritesStruct};
ghost use Rattle.c_lent.specs.Steps.{number_in};
ghost use Rattle.c_lent.specs.Sends.{SendsStruct};
ghost use Rattle.c_lent.specs.Structs.{stored, held};
ghost use Rattle.c_ucp_initialization.specs.Struct.{initialization_struct};
ghost use Rattle.c_ucp_initialization.specs.Steps.{first_octets, SmallFields};

use output_writing::OstrogoszWritten;
use refusals::Refusal;
use ucp_frame::FrameBuffer;

// ---- reading

// Whether each field that a body carries is in its range.
fn body_fits(body: &[u8]) -> bool
    requires { length body.now ≡ 19 }
    ensures { result ≡ initialization_format.ranges (value_in initialization_format body.now) }
{
    field_codes::is_emitter(body[7])
        & field_texts::each::is_spaced_at(body, 8)
        & field_codes::is_size_code(body[17])
}

fn fill(body: &[u8], message: &mut [u8; 24])
    requires { length body.now ≡ 19 }
    ensures { message.new ≡ stored initialization_struct (value_in initialization_format body.now) }
{
    let offsets = body[18];
    *message = [
        body[3],
        0,
        0,
        0,
        body[4],
        body[5],
        body[6],
        0,
        body[7],
        0,
        0,
        0,
        0,
        0,
        0,
        0,
        0,
        body[16],
        body[17],
        offsets / 32,
        offsets % 32,
        0,
        0,
        0,
    ];
    // Behind a store the compiler reads the body anew, and the callsign goes from one place to the other at once. Else it keeps
    // the text from its test, and copies it by way of the stack.
    field_words::put_64(message, 9, field_words::little_64(body, 8));
}

fn read(body: &[u8], message: &mut [u8; 24]) -> Result<(), Refusal>
    ensures { ReadsInto initialization_format initialization_struct body.now message.old (number_in result) message.new }
{
    c_lent::first_refusal(body, 117, 19)?;
    if body[1] != 65 {
        return Err(Refusal::Fixed);
    }
    if body[2] != 1 {
        return Err(Refusal::Fixed);
    }
    if !body_fits(body) {
        return Err(Refusal::Field);
    }
    fill(body, message);
    Ok(())
}

// Reads a body into the struct: 0, or the refusal that is due, 10 to 13, and then the struct is as it was.
pub fn ostrogosz_ucp_read_initialization(body: &[u8], message: &mut [u8; 24]) -> u32
    ensures { ReadsInto initialization_format initialization_struct body.now message.old result message.new }
{
    c_lent::read_number(read(body, message))
}

// ---- writing

// Whether each field that a struct holds is in its range and has no more bits than the body has for it.
fn fits(message: &[u8]) -> bool
    requires { length message.now ≡ 24 }
    ensures { (result ≡ fits initialization_format (held initialization_struct message.now)) × (result ≡ true → SmallFields message.now) }
{
    field_codes::is_emitter(message[8])
        & field_texts::each::is_spaced_at(message, 9)
        & field_codes::is_size_code(message[18])
        & (field_layout::little_32(message, 4) < 16777216)
        & (message[19] < 8)
        & (message[20] < 32)
}

// Puts octets 0 to 7 of the body.
#[tactic(auto, using(c_lent::proofs::Sizes::sizes))]
fn put_first(message: &[u8], output: &mut [u8])
    requires { (length message.now ≡ 24) × (19 ≤ length output.old) }
    ensures { output.new ≡ sets output.old 0 (first_octets message.now) }
{
    output[0] = 117;
    output[1] = 65;
    output[2] = 1;
    output[3] = message[0];
    output[4] = message[4];
    output[5] = message[5];
    output[6] = message[6];
    output[7] = message[8];
}

// Puts the body at the start of output. The callsign goes at once, as in `fill`.
#[tactic(auto, using(c_lent::proofs::Sizes::sizes))]
fn put(message: &[u8], output: &mut [u8])
    requires { (length message.now ≡ 24) × SmallFields message.now × (19 ≤ length output.old) }
    ensures { output.new ≡ body_of initialization_format (held initialization_struct message.now) ++ drop 19 output.old }
{
    put_first(message, output);
    field_words::put_64(output, 8, field_words::little_64(message, 9));
    output[16] = message[17];
    output[17] = message[18];
    output[18] = message[19] * 32 + message[20];
}

// Puts the body at the start of output where all is well: else 13, then 8.
fn write_body(message: &[u8; 24], output: &mut [u8]) -> Result<(), Refusal>
    ensures { WritesStruct initialization_format (held initialization_struct message.now) 19 output.old result output.new }
{
    if !fits(message) {
        return Err(Refusal::Field);
    }
    if output.len() < 19 {
        return Err(Refusal::OutputLength);
    }
    put(message, output);
    Ok(())
}

// Writes the body of the message that a struct holds: 13, then 8.
pub fn ostrogosz_ucp_write_initialization(message: &[u8; 24], output: &mut [u8]) -> OstrogoszWritten
    ensures { WritesStructBody initialization_format (held initialization_struct message.now) output.old result output.new }
{
    c_lent::written_numbers(write_body(message, output), 19)
}

// ---- sending

// Writes the frame of the message that a struct holds at the start of buffer, and leaves what is behind it: 13. The body is
// written into the buffer, and made its frame there.
pub fn ostrogosz_ucp_send_initialization(
    message: &[u8; 24],
    buffer: &mut FrameBuffer,
) -> OstrogoszWritten
    ensures { SendsStruct initialization_format (held initialization_struct message.now) buffer.old result buffer.new }
{
    let written = write_body(message, buffer);
    OstrogoszWritten::from(c_lent::frame_if_written(written, 19, buffer))
}
