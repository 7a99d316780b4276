ghost use Rattle.mavlink_messages.specs.declared.Message.TheVariants.{DataStream};
ghost use Rattle.c_lent.specs.Structs.{held};
ghost use Rattle.c_mavlink.specs.Structs.{header_struct, data_stream_struct};
ghost use Rattle.c_mavlink.specs.Readers.{ReadsMavlink, read_as};
ghost use Rattle.c_mavlink.specs.Writers.{WritesMavlinkForC};

use output_writing::OstrogoszWritten;

// Reads the message in the frame at the start of input into both structs: 0, or the refusal that is due, and then both are as
// they were.
#[unsafe(no_mangle)]
pub extern "C" fn ostrogosz_mavlink_read_data_stream(
    input: &[u8],
    header: &mut [u8; 3],
    message: &mut [u8; 6],
) -> u32
    ensures { ReadsMavlink (read_as 66 input.now) header.old message.old result header.new message.new }
{
    c_mavlink::data_stream::ostrogosz_mavlink_read_data_stream(input, header, message)
}

// Writes the frame of the message that a struct holds at the start of output: 8.
#[unsafe(no_mangle)]
pub extern "C" fn ostrogosz_mavlink_write_data_stream(
    message: &[u8; 6],
    header: &[u8; 3],
    output: &mut [u8],
) -> OstrogoszWritten
    ensures { WritesMavlinkForC (DataStream (held data_stream_struct message.now)) (held header_struct header.now) output.old result output.new }
{
    c_mavlink::data_stream::ostrogosz_mavlink_write_data_stream(message, header, output)
}
