// Message 66, a request for a data stream. Every payload is in range.
ghost use Rattle.std.specs.Prelude.{◌≡◌, length};
ghost use Rattle.mavlink_messages.specs.declared.Message.TheVariants.{DataStream};
ghost use Rattle.c_lent.specs.Structs.{held};
ghost use Rattle.c_mavlink.specs.Structs.{header_struct, data_stream_struct};
ghost use Rattle.c_mavlink.specs.Readers.{ReadsMavlink, read_as};
ghost use Rattle.c_mavlink.specs.Steps.{Tested};
ghost use Rattle.c_lent.specs.Steps.{number_in};
ghost use Rattle.c_mavlink.specs.Writers.{WritesMavlinkForC, WritesMavlinkMessage};

use output_writing::{OstrogoszWritten, Written};
use refusals::Refusal;

// As `frames::tested`, with the check from registers.
#[tactic(auto, unfolding(mavlink_frame::specs::Frame::mavlink_kind))]
fn tested(input: &[u8]) -> Result<(), Refusal>
    ensures { Tested 66 input.now result }
{
    let kind = mavlink_frame::DATA_STREAM;
    super::frames::before_check(kind, input)?;
    let check = mavlink_frame::reader::check_of_six(kind.extra, input);
    super::frames::judged(kind, check, input)
}

#[tactic(auto, unfolding(mavlink_frame::specs::Frame::mavlink_kind))]
fn read(input: &[u8], header: &mut [u8; 3], message: &mut [u8; 6]) -> Result<(), Refusal>
    ensures { ReadsMavlink (read_as 66 input.now) header.old message.old (number_in result) header.new message.new }
{
    tested(input)?;
    super::frames::put_sender(input, header);
    *message = input[6..12].try_into().unwrap();
    Ok(())
}

// Reads the message in the frame at the start of input into both structs: 0, or the refusal that is due, and then both are as
// they were.
#[inline(never)]
pub fn ostrogosz_mavlink_read_data_stream(
    input: &[u8],
    header: &mut [u8; 3],
    message: &mut [u8; 6],
) -> u32
    ensures { ReadsMavlink (read_as 66 input.now) header.old message.old result header.new message.new }
{
    // Not inlined in the call for C, which tests its pointer first: in one function that test took a register that the check had
    // written last, and a call right behind another waited for the other's check.
    c_lent::read_number(read(input, header, message))
}

fn write(message: &[u8], header: &[u8], output: &mut [u8]) -> Written
    requires { (length message.now ≡ 6) × (length header.now ≡ 3) }
    ensures { WritesMavlinkMessage (DataStream (held data_stream_struct message.now)) (held header_struct header.now) output.old result output.new }
{
    let sender = super::frames::sender(header);
    mavlink_frame::writer::write_six(mavlink_frame::DATA_STREAM, sender, message, output)
}

// Writes the frame of the message that a struct holds at the start of output: 8.
pub fn ostrogosz_mavlink_write_data_stream(
    message: &[u8; 6],
    header: &[u8; 3],
    output: &mut [u8],
) -> OstrogoszWritten
    ensures { WritesMavlinkForC (DataStream (held data_stream_struct message.now)) (held header_struct header.now) output.old result output.new }
{
    OstrogoszWritten::from(write(message, header, output))
}
