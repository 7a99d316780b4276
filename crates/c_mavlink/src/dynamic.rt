// Message 202, the dynamic data of an aircraft.
ghost use Rattle.std.specs.Prelude.{◌≡◌, length, get_or};
ghost use Rattle.field_layout.specs.Steps.{little16};
ghost use Rattle.mavlink_messages.specs.declared.Message.TheVariants.{Dynamic};
ghost use Rattle.mavlink_messages.specs.Ranges.{dynamic_fits};
ghost use Rattle.c_lent.specs.Structs.{held};
ghost use Rattle.c_mavlink.specs.Structs.{header_struct, dynamic_struct};
ghost use Rattle.c_mavlink.specs.Readers.{ReadsMavlink, read_as};
ghost use Rattle.c_lent.specs.Steps.{number_in};
ghost use Rattle.c_mavlink.specs.Writers.{WritesMavlinkForC, WritesMavlinkMessage};

use output_writing::{OstrogoszWritten, Written};
use refusals::Refusal;

// Whether the fields are in range, of a payload or of a struct.
fn fits(octets: &[u8]) -> bool
    ensures { result ≡ dynamic_fits (little16 octets.now 36) (get_or octets.now 38 0) }
{
    mavlink_messages::ranges::dynamic_fits(
        field_layout::little_16(octets, 36),
        field_layout::octet(octets, 38),
    )
}

#[tactic(auto, unfolding(mavlink_frame::specs::Frame::mavlink_kind))]
fn read(input: &[u8], header: &mut [u8; 3], message: &mut [u8; 44]) -> Result<(), Refusal>
    ensures { ReadsMavlink (read_as 202 input.now) header.old message.old (number_in result) header.new message.new }
{
    super::frames::tested(mavlink_frame::DYNAMIC, input)?;
    if !fits(&input[6..48]) {
        return Err(Refusal::MavlinkField);
    }
    *message = [0; 44];
    super::frames::put_sender(input, header);
    message[..42].copy_from_slice(&input[6..48]);
    Ok(())
}

// Reads the message in the frame at the start of input into both structs: 0, or the refusal that is due, and then both are as
// they were.
pub fn ostrogosz_mavlink_read_dynamic(
    input: &[u8],
    header: &mut [u8; 3],
    message: &mut [u8; 44],
) -> u32
    ensures { ReadsMavlink (read_as 202 input.now) header.old message.old result header.new message.new }
{
    c_lent::read_number(read(input, header, message))
}

fn write(message: &[u8], header: &[u8], output: &mut [u8]) -> Written
    requires { (length message.now ≡ 44) × (length header.now ≡ 3) }
    ensures { WritesMavlinkMessage (Dynamic (held dynamic_struct message.now)) (held header_struct header.now) output.old result output.new }
{
    if !fits(message) {
        return Err(Refusal::MavlinkField);
    }
    super::frames::write(mavlink_frame::DYNAMIC, &message[0..42], header, output)
}

// Writes the frame of the message that a struct holds at the start of output: 25, then 8.
pub fn ostrogosz_mavlink_write_dynamic(
    message: &[u8; 44],
    header: &[u8; 3],
    output: &mut [u8],
) -> OstrogoszWritten
    ensures { WritesMavlinkForC (Dynamic (held dynamic_struct message.now)) (held header_struct header.now) output.old result output.new }
{
    OstrogoszWritten::from(write(message, header, output))
}
