// Message 201, the static data of an aircraft. Its struct has the payload's octets in the payload's order, but for the integrity: the
// address has four octets there.
ghost use Rattle.std.specs.Prelude.{◌≡◌, ◌<◌, ◌≤◌, ◌++◌, length, get_or, take, drop};
ghost use Rattle.field_layout.specs.Layout.{text_at};
ghost use Rattle.field_layout.specs.Steps.{little32};
ghost use Rattle.field_format.specs.Format.{value_in, body_of};
ghost use Rattle.mavlink_frame.specs.Reader.{payload_at};
ghost use Rattle.mavlink_messages.specs.declared.Message.TheVariants.{Static};
ghost use Rattle.mavlink_messages.specs.Static201.{static_format};
ghost use Rattle.mavlink_messages.specs.Ranges.{static_fits};
ghost use Rattle.mavlink_messages.specs.Messages.{message_frame};
ghost use Rattle.c_lent.specs.Structs.{stored, held};
ghost use Rattle.c_mavlink.specs.Structs.{header_struct, static_struct};
ghost use Rattle.c_mavlink.specs.Readers.{ReadsMavlink, read_as};
ghost use Rattle.c_lent.specs.Steps.{number_in};
ghost use Rattle.c_mavlink.specs.Writers.{WritesMavlinkForC, WritesMavlinkMessage};

use output_writing::{OstrogoszWritten, Written};
use refusals::Refusal;

// Whether the fields are in range, of a payload or of a struct: behind the address both have them at the same places.
#[tactic(auto, unfolding(mavlink_messages::specs::Ranges::static_fits))]
fn fits(address: u32, octets: &[u8]) -> bool
    requires { 19 ≤ length octets.now }
    ensures { result ≡ static_fits address (text_at octets.now 6) (get_or octets.now 14 0) (get_or octets.now 15 0) (get_or octets.now 16 0) (get_or octets.now 17 0) (get_or octets.now 18 0) }
{
    (address < 16777216)
        & field_texts::is_spaced(&octets[6..14])
        & (octets[14] == 0)
        & field_codes::is_emitter(octets[15])
        & field_codes::is_size_code(octets[16])
        & (octets[17] <= 7)
        & (octets[18] <= 31)
}

fn fill(input: &[u8], message: &mut [u8; 20])
    requires { 27 ≤ length input.now }
    ensures { message.new ≡ stored static_struct (value_in static_format (payload_at 19 input.now)) }
{
    *message = [0; 20];
    field_words::copies::copy(&input[6..25], message, 0);
    message[3] = 0;
    message[19] = input[9];
}

#[tactic(auto, unfolding(mavlink_frame::specs::Frame::mavlink_kind))]
fn read(input: &[u8], header: &mut [u8; 3], message: &mut [u8; 20]) -> Result<(), Refusal>
    ensures { ReadsMavlink (read_as 201 input.now) header.old message.old (number_in result) header.new message.new }
{
    super::frames::tested(mavlink_frame::STATIC, input)?;
    if !fits(field_layout::little_24(&input[6..25], 0), &input[6..25]) {
        return Err(Refusal::MavlinkField);
    }
    super::frames::put_sender(input, header);
    fill(input, message);
    Ok(())
}

// Reads the message in the frame at the start of input into both structs: 0, or the refusal that is due, and then both are as
// they were.
pub fn ostrogosz_mavlink_read_static(
    input: &[u8],
    header: &mut [u8; 3],
    message: &mut [u8; 20],
) -> u32
    ensures { ReadsMavlink (read_as 201 input.now) header.old message.old result header.new message.new }
{
    c_lent::read_number(read(input, header, message))
}

// Puts the payload into an output, from 6 on: nineteen octets in three words, the integrity over the address's fourth.
fn put_payload(message: &[u8], output: &mut [u8])
    requires { (length message.now ≡ 20) × (little32 message.now 0 < 16777216) × (27 ≤ length output.old) }
    ensures { output.new ≡ take 6 output.old ++ (body_of static_format (held static_struct message.now) ++ drop 25 output.old) }
{
    field_words::put_64(output, 6, field_words::little_64(message, 0));
    field_words::put_64(output, 14, field_words::little_64(message, 8));
    field_words::put_64(output, 17, field_words::little_64(message, 11));
    output[9] = message[19];
}

fn put_frame(message: &[u8], header: &[u8], output: &mut [u8])
    requires { (length message.now ≡ 20) × (little32 message.now 0 < 16777216) × (length header.now ≡ 3) × (27 ≤ length output.old) }
    ensures { output.new ≡ message_frame (Static (held static_struct message.now)) (held header_struct header.now) ++ drop 27 output.old }
{
    put_payload(message, output);
    mavlink_frame::writer::surround(mavlink_frame::STATIC, super::frames::sender(header), output);
}

fn write(message: &[u8], header: &[u8], output: &mut [u8]) -> Written
    requires { (length message.now ≡ 20) × (length header.now ≡ 3) }
    ensures { WritesMavlinkMessage (Static (held static_struct message.now)) (held header_struct header.now) output.old result output.new }
{
    if !fits(field_layout::little_32(message, 0), message) {
        return Err(Refusal::MavlinkField);
    }
    if output.len() < 27 {
        return Err(Refusal::OutputLength);
    }
    put_frame(message, header, output);
    Ok(27)
}

// Writes the frame of the message that a struct holds at the start of output: 25, then 8.
pub fn ostrogosz_mavlink_write_static(
    message: &[u8; 20],
    header: &[u8; 3],
    output: &mut [u8],
) -> OstrogoszWritten
    ensures { WritesMavlinkForC (Static (held static_struct message.now)) (held header_struct header.now) output.old result output.new }
{
    OstrogoszWritten::from(write(message, header, output))
}
