// What the readers and the writers of all kinds share: a frame's tests, its sender, and a payload's frame.
ghost use Rattle.std.specs.Prelude.{◌≡◌, ◌≤◌, length};
ghost use Rattle.output_writing.specs.Writing.{Writing};
ghost use Rattle.mavlink_frame.specs.Frame.{known, mavlink_kind, mavlink_frame};
ghost use Rattle.mavlink_frame.specs.Reader.{header_at, check_due};
ghost use Rattle.mavlink_frame.specs.Writer.{write_of};
ghost use Rattle.c_lent.specs.Structs.{stored, held};
ghost use Rattle.c_mavlink.specs.Structs.{header_struct};
ghost use Rattle.c_mavlink.specs.Steps.{WholeOfKind, Before, Tested};

use mavlink_frame::{Header, Kind};
use output_writing::Written;
use refusals::Refusal;

// The tests of the reader of a kind up to the check, 20 to 23.
// Stays: apart from the tests of `mavlink_frame::reader::read_frame`. One function is no plainer: here another kind's ID gives 22, and
// before its length is looked at.
#[tactic(auto, unfolding(crate::specs::Readers::found_as, mavlink_frame::specs::Reader::found, mavlink_frame::specs::Reader::found_of))]
pub fn before_check(kind: Kind, input: &[u8]) -> Result<(), Refusal>
    requires { mavlink_kind kind.id ≡ known kind }
    ensures { Before kind input.now result }
{
    let n = input.len();
    if n == 0 {
        return Err(Refusal::MavlinkShort);
    }
    let first = input[0];
    if first != 0xFE {
        return Err(Refusal::MavlinkStart);
    }
    if n < 6 {
        return Err(Refusal::MavlinkShort);
    }
    let id = input[5];
    if id != kind.id {
        return Err(Refusal::MavlinkUnknownId);
    }
    let length = input[1];
    if length != kind.length {
        return Err(Refusal::MavlinkLength);
    }
    if n < kind.length as usize + 8 {
        return Err(Refusal::MavlinkShort);
    }
    Ok(())
}

// 24 for a frame that is there, by the check that it should carry.
#[tactic(auto, unfolding(mavlink_frame::specs::Reader::found_of))]
pub fn judged(kind: Kind, check: u16, input: &[u8]) -> Result<(), Refusal>
    requires { (mavlink_kind kind.id ≡ known kind) × WholeOfKind kind input.now × (check ≡ check_due kind.length kind.extra input.now) }
    ensures { Tested kind.id input.now result }
{
    let end = kind.length as usize + 6;
    let sent = u16::from_le_bytes([input[end], input[end + 1]]);
    if sent != check {
        return Err(Refusal::MavlinkWrongCheck);
    }
    Ok(())
}

// The tests of the reader of a kind, 20 to 24.
pub fn tested(kind: Kind, input: &[u8]) -> Result<(), Refusal>
    requires { mavlink_kind kind.id ≡ known kind }
    ensures { Tested kind.id input.now result }
{
    before_check(kind, input)?;
    judged(kind, mavlink_frame::reader::check_due(kind, input), input)
}

// Puts what a frame says of its sender into the struct for the header.
#[tactic(auto, unfolding(c_lent::specs::Structs::stored))]
pub fn put_sender(input: &[u8], header: &mut [u8])
    requires { (5 ≤ length input.now) × (length header.old ≡ 3) }
    ensures { header.new ≡ stored header_struct (header_at input.now) }
{
    header[0] = input[2];
    header[1] = input[3];
    header[2] = input[4];
}

#[tactic(auto, unfolding(c_lent::specs::Structs::held))]
pub fn sender(header: &[u8]) -> Header
    requires { length header.now ≡ 3 }
    ensures { result ≡ held header_struct header.now }
{
    Header {
        sequence: header[0],
        system: header[1],
        component: header[2],
    }
}

// Writes the frame of a payload.
pub fn write(kind: Kind, payload: &[u8], header: &[u8], output: &mut [u8]) -> Written
    requires { length header.now ≡ 3 }
    ensures { Writing (write_of kind payload.now output.old) (mavlink_frame kind (held header_struct header.now) payload.now) output.old result output.new }
{
    mavlink_frame::writer::write_kind(kind, sender(header), payload, output)
}
