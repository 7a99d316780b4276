// Message 246, a report of traffic.
ghost use Rattle.std.specs.Prelude.{◌≡◌, length};
ghost use Rattle.field_layout.specs.Steps.{little16};
ghost use Rattle.mavlink_messages.specs.declared.Message.TheVariants.{Traffic};
ghost use Rattle.mavlink_messages.specs.Ranges.{traffic_fits};
ghost use Rattle.c_lent.specs.Structs.{held};
ghost use Rattle.c_mavlink.specs.Structs.{header_struct, traffic_struct};
ghost use Rattle.c_mavlink.specs.Readers.{ReadsMavlink, read_as};
ghost use Rattle.c_lent.specs.Steps.{number_in};
ghost use Rattle.c_mavlink.specs.Writers.{WritesMavlinkForC, WritesMavlinkMessage};

use output_writing::{OstrogoszWritten, Written};
use refusals::Refusal;

// Whether the fields are in range, of a payload or of a struct.
fn fits(octets: &[u8]) -> bool
    ensures { result ≡ traffic_fits (little16 octets.now 24) }
{
    mavlink_messages::ranges::traffic_fits(field_layout::little_16(octets, 24))
}

#[tactic(auto, unfolding(mavlink_frame::specs::Frame::mavlink_kind))]
fn read(input: &[u8], header: &mut [u8; 3], message: &mut [u8; 40]) -> Result<(), Refusal>
    ensures { ReadsMavlink (read_as 246 input.now) header.old message.old (number_in result) header.new message.new }
{
    super::frames::tested(mavlink_frame::TRAFFIC, input)?;
    if !fits(&input[6..44]) {
        return Err(Refusal::MavlinkField);
    }
    *message = [0; 40];
    super::frames::put_sender(input, header);
    message[..38].copy_from_slice(&input[6..44]);
    Ok(())
}

// Reads the message in the frame at the start of input into both structs: 0, or the refusal that is due, and then both are as
// they were.
pub fn ostrogosz_mavlink_read_traffic(
    input: &[u8],
    header: &mut [u8; 3],
    message: &mut [u8; 40],
) -> u32
    ensures { ReadsMavlink (read_as 246 input.now) header.old message.old result header.new message.new }
{
    c_lent::read_number(read(input, header, message))
}

fn write(message: &[u8], header: &[u8], output: &mut [u8]) -> Written
    requires { (length message.now ≡ 40) × (length header.now ≡ 3) }
    ensures { WritesMavlinkMessage (Traffic (held traffic_struct message.now)) (held header_struct header.now) output.old result output.new }
{
    if !fits(message) {
        return Err(Refusal::MavlinkField);
    }
    super::frames::write(mavlink_frame::TRAFFIC, &message[0..38], header, output)
}

// Writes the frame of the message that a struct holds at the start of output: 25, then 8.
pub fn ostrogosz_mavlink_write_traffic(
    message: &[u8; 40],
    header: &[u8; 3],
    output: &mut [u8],
) -> OstrogoszWritten
    ensures { WritesMavlinkForC (Traffic (held traffic_struct message.now)) (held header_struct header.now) output.old result output.new }
{
    OstrogoszWritten::from(write(message, header, output))
}
