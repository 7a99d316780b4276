// Reads a MAVLink version 1 frame.
ghost use Rattle.std.specs.Prelude.{◌≡◌, ◌+◌, ◌≤◌, length};
ghost use Rattle.mavlink_frame.specs.Reader.{found_answer, found, found_of, check_due};

use super::{Found, Header, Kind};
use refusals::Refusal;

// Reads the frame at the start of input. Octets behind it are left.
#[tactic(auto, unfolding(crate::specs::Reader::found))]
pub fn read_frame(input: &[u8]) -> Result<Found, Refusal>
    ensures { found_answer result ≡ found input.now }
{
    let n = input.len();
    if n == 0 {
        return Err(Refusal::MavlinkShort);
    }
    let first = input[0];
    if first != 0xFE {
        return Err(Refusal::MavlinkStart);
    }
    if n < 6 {
        return Err(Refusal::MavlinkShort);
    }
    let kind = super::kind_of(input[5]).ok_or(Refusal::MavlinkUnknownId)?;
    read_kind(kind, input)
}

// Reads a frame of a kind, of which six octets are there.
#[tactic(auto, unfolding(crate::specs::Reader::found_of))]
fn read_kind(kind: Kind, input: &[u8]) -> Result<Found, Refusal>
    requires { 6 ≤ length input.now }
    ensures { found_answer result ≡ found_of kind input.now }
{
    let length = input[1];
    if length != kind.length {
        return Err(Refusal::MavlinkLength);
    }
    let end = kind.length as usize + 6;
    if input.len() < end + 2 {
        return Err(Refusal::MavlinkShort);
    }
    let check = check_due(kind, input);
    let sent = u16::from_le_bytes([input[end], input[end + 1]]);
    if sent != check {
        return Err(Refusal::MavlinkWrongCheck);
    }
    let header = Header {
        sequence: input[2],
        system: input[3],
        component: input[4],
    };
    Ok(Found {
        id: kind.id,
        header,
        used: end + 2,
    })
}

// The check that a frame of a kind should carry.
pub fn check_due(kind: Kind, input: &[u8]) -> u16
    requires { kind.length + 8 ≤ length input.now }
    ensures { result ≡ check_due kind.length kind.extra input.now }
{
    crc_x25::x25_check(&input[1..kind.length as usize + 6], kind.extra)
}

// The same of a kind whose payload has one octet: the octets stand in one word.
// Stays: apart from `check_of_six`. One function of both lengths is no plainer: it would choose by the length how many words it reads,
// how many octets of the last one count, and the step of the check, which is all that they do.
pub fn check_of_one(extra: u8, input: &[u8]) -> u16
    requires { 9 ≤ length input.now }
    ensures { result ≡ check_due 1 extra input.now }
{
    let covered = field_words::little_64(input, 1) % 281474976710656;
    crc_x25::x25_seven(covered + extra as u64 * 281474976710656)
}

// Of one whose payload has six: in two words.
pub fn check_of_six(extra: u8, input: &[u8]) -> u16
    requires { 14 ≤ length input.now }
    ensures { result ≡ check_due 6 extra input.now }
{
    let first = field_words::little_64(input, 1);
    let covered = field_words::little_64(input, 5) % 72057594037927936;
    crc_x25::x25_twelve(first, covered + extra as u64 * 72057594037927936)
}
