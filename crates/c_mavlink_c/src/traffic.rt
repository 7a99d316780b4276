ghost use Rattle.mavlink_messages.specs.declared.Message.TheVariants.{Traffic};
ghost use Rattle.c_lent.specs.Structs.{held};
ghost use Rattle.c_mavlink.specs.Structs.{header_struct, traffic_struct};
ghost use Rattle.c_mavlink.specs.Readers.{ReadsMavlink, read_as};
ghost use Rattle.c_mavlink.specs.Writers.{WritesMavlinkForC};

use output_writing::OstrogoszWritten;

// Reads the message in the frame at the start of input into both structs: 0, or the refusal that is due, and then both are as
// they were.
#[unsafe(no_mangle)]
pub extern "C" fn ostrogosz_mavlink_read_traffic(
    input: &[u8],
    header: &mut [u8; 3],
    message: &mut [u8; 40],
) -> u32
    ensures { ReadsMavlink (read_as 246 input.now) header.old message.old result header.new message.new }
{
    c_mavlink::traffic::ostrogosz_mavlink_read_traffic(input, header, message)
}

// Writes the frame of the message that a struct holds at the start of output: 25, then 8.
#[unsafe(no_mangle)]
pub extern "C" fn ostrogosz_mavlink_write_traffic(
    message: &[u8; 40],
    header: &[u8; 3],
    output: &mut [u8],
) -> OstrogoszWritten
    ensures { WritesMavlinkForC (Traffic (held traffic_struct message.now)) (held header_struct header.now) output.old result output.new }
{
    c_mavlink::traffic::ostrogosz_mavlink_write_traffic(message, header, output)
}
