// Messages 10 and 20, Ownship and Traffic report, for C: the message lies in the caller's struct, which is lent as its octets.
#![tactic(auto)]

ghost use Rattle.std.specs.Prelude.{◌≡◌, true, ◌++◌, ◌+◌, ◌*◌, ◌/◌, ◌%◌, ◌<◌, ◌≤◌, length, get_or, drop};
ghost use Rattle.std.proofs.lemmas.List.Edits.{sets};
ghost use Rattle.field_layout.specs.Steps.{big16, big24, big32};
ghost use Rattle.field_signed.specs.Signed.{signed, complement, holds};
ghost use Rattle.field_words.specs.Words.{octets_up, eight};
ghost use Rattle.field_format.specs.Format.{value_in, body_of, fits};
ghost use Rattle.ucp_messages.specs.Report10.{report_format};
ghost use Rattle.c_lent.specs.Steps.{two_of, number_in};
ghost use Rattle.c_lent.specs.Reads.{ReadsInto};
ghost use Rattle.c_lent.specs.Writes.{WritesStructBody, WritesStruct};
ghost use Rattle.c_lent.specs.Sends.{SendsStruct};
ghost use Rattle.c_lent.specs.Structs.{stored, held};
ghost use Rattle.c_ucp_report.specs.Struct.{report_struct};
ghost use Rattle.c_ucp_report.specs.Steps.{halves_of, four_of, left_stored, right_stored, others_stored, Small, left_of, right_of};

use output_writing::OstrogoszWritten;
use refusals::Refusal;
use ucp_frame::FrameBuffer;

// ---- reading

// Octets 2 to 7.
#[derive(Clone, Copy)]
struct LeftPart {
    address: u32,
    latitude: u32,
}

fn left(body: &[u8]) -> LeftPart
    requires { length body.now ≡ 28 }
    ensures { (result.address ≡ big24 body.now 2) × (result.latitude ≡ big24 body.now 5) × (result.latitude < 16777216) }
{
    let word = field_words::big_64(body, 0);
    let upper = word / 16777216;
    LeftPart {
        address: (upper % 16777216) as u32,
        latitude: (word % 16777216) as u32,
    }
}

// Octets 8 to 15.
#[derive(Clone, Copy)]
struct RightPart {
    longitude: u32,
    height: u16,
    integrity: u8,
    speed: u16,
}

fn right(body: &[u8]) -> RightPart
    requires { length body.now ≡ 28 }
    ensures { (result.longitude ≡ big24 body.now 8) × (result.longitude < 16777216) × (result.height ≡ big16 body.now 11) × (result.integrity ≡ get_or body.now 13 0) × (result.speed ≡ big32 body.now 14 / 1048576) }
{
    let word = field_words::big_64(body, 8);
    let upper = word / 65536;
    let top = upper / 256;
    RightPart {
        longitude: (top / 65536 % 16777216) as u32,
        height: (top % 65536) as u16,
        integrity: (upper % 256) as u8,
        speed: (word % 65536 / 16) as u16,
    }
}

// Stays: these two, and the like below, apart. The new form is no plainer: they differ in a type besides the numbers, which no const
// parameter says, and one over the wider type would be cast at each call.
// A signed number of 24 bits as one of 32.
fn extended_24(bits: u32) -> u32
    requires { bits < 16777216 }
    ensures { result ≡ complement 2147483648 (signed 8388608 bits) }
{
    let over = (bits + 8388608) % 16777216;
    ((over as u64 + 4286578688) % 4294967296) as u32
}

// A signed number of 12 bits as one of 16.
fn extended_12(bits: u32) -> u16
    requires { bits < 4096 }
    ensures { result ≡ complement 32768 (signed 2048 bits) }
{
    let over = (bits + 2048) % 4096;
    ((over + 63488) % 65536) as u16
}

// Two fields of 4 bits, each in its octet.
#[tactic(auto, using(c_lent::proofs::Sizes::sizes))]
fn put_halves(message: &mut [u8], at: usize, octet: u8)
    requires { at + 2 ≤ length message.old }
    ensures { message.new ≡ sets message.old at (halves_of octet) }
{
    message[at] = octet / 16;
    message[at + 1] = octet % 16;
}

// A number of 16 bits, and one of 32, least significant octet first: compiled, one store.
// Stays: two functions, as `extended_24` and `extended_12`.
#[tactic(auto, using(c_lent::proofs::Sizes::sizes))]
fn put_16(message: &mut [u8], at: usize, number: u16)
    requires { at + 2 ≤ length message.old }
    ensures { message.new ≡ sets message.old at (two_of number) }
{
    message[at] = (number % 256) as u8;
    message[at + 1] = (number / 256) as u8;
}

#[tactic(auto, using(c_lent::proofs::Sizes::sizes))]
fn put_32(message: &mut [u8], at: usize, number: u32)
    requires { at + 4 ≤ length message.old }
    ensures { message.new ≡ sets message.old at (four_of number) }
{
    let low = number % 16777216 % 65536;
    message[at] = (low % 256) as u8;
    message[at + 1] = (low / 256) as u8;
    message[at + 2] = (number % 16777216 / 65536) as u8;
    message[at + 3] = (number / 16777216) as u8;
}

// What octets 1 to 7 of a body hold, 8 to 15, and the others.
fn put_left(body: &[u8], message: &mut [u8])
    requires { (length body.now ≡ 28) × (length message.old ≡ 40) }
    ensures { message.new ≡ left_stored body.now message.old }
{
    let left = left(body);
    let latitude = extended_24(left.latitude);
    put_halves(message, 0, field_layout::octet(body, 1));
    put_32(message, 4, left.address);
    put_32(message, 8, latitude);
}

#[tactic(auto, using(c_lent::proofs::Sizes::sizes))]
fn put_right(body: &[u8], message: &mut [u8])
    requires { (length body.now ≡ 28) × (length message.old ≡ 40) }
    ensures { message.new ≡ right_stored body.now message.old }
{
    let right = right(body);
    let longitude = extended_24(right.longitude);
    put_32(message, 12, longitude);
    put_16(message, 16, right.height / 16);
    message[18] = (right.height % 16) as u8;
    put_halves(message, 19, right.integrity);
    put_16(message, 22, right.speed);
}

#[tactic(auto, using(c_lent::proofs::Sizes::sizes))]
fn put_others(body: &[u8], message: &mut [u8])
    requires { (length body.now ≡ 28) × (length message.old ≡ 40) }
    ensures { message.new ≡ others_stored body.now message.old }
{
    let motion = field_layout::big_32(body, 14);
    let rate = extended_12(motion % 1048576 / 256);
    put_16(message, 24, rate);
    message[26] = body[17];
    message[27] = body[18];
    // The callsign goes from one place to the other at once, so that no part of it waits on the stack.
    field_words::put_64(message, 28, field_words::little_64(body, 19));
    put_halves(message, 36, field_layout::octet(body, 27));
}

fn fill(body: &[u8], message: &mut [u8; 40])
    requires { length body.now ≡ 28 }
    ensures { message.new ≡ stored report_struct (value_in (report_format 10) body.now) }
{
    // Zeros for the padding first: every part then reads the body anew, and holds little at a time.
    *message = [0; 40];
    put_left(body, message);
    put_right(body, message);
    put_others(body, message);
}

// Reads a body of an ID, 10 or 20.
#[inline(always)]
fn read(body: &[u8], id: u8, message: &mut [u8; 40]) -> Result<(), Refusal>
    ensures { ReadsInto (report_format id) report_struct body.now message.old (number_in result) message.new }
{
    c_lent::first_refusal(body, id, 28)?;
    fill(body, message);
    Ok(())
}

// Reads a body into the struct: 0, or the refusal that is due, 10 or 11, and then the struct is as it was.
pub fn ostrogosz_ucp_read_ownship(body: &[u8], message: &mut [u8; 40]) -> u32
    ensures { ReadsInto (report_format 10) report_struct body.now message.old result message.new }
{
    c_lent::read_number(read(body, 10, message))
}

pub fn ostrogosz_ucp_read_traffic(body: &[u8], message: &mut [u8; 40]) -> u32
    ensures { ReadsInto (report_format 20) report_struct body.now message.old result message.new }
{
    c_lent::read_number(read(body, 20, message))
}

// ---- writing

// Stays: two functions, as `extended_24` and `extended_12`.
// Whether 24 bits hold the number that 32 bits mean.
fn in_24(bits: u32) -> bool
    ensures { result ≡ holds 8388608 (signed 2147483648 bits) }
{
    (bits < 8388608) | (4286578688 <= bits)
}

// Whether 12 bits hold the number that 16 bits mean.
fn in_12(bits: u16) -> bool
    ensures { result ≡ holds 2048 (signed 32768 bits) }
{
    (bits < 2048) | (63488 <= bits)
}

// Whether each field that a struct holds has no more bits than the body has for it.
fn fits(message: &[u8]) -> bool
    requires { length message.now ≡ 40 }
    ensures { (result ≡ fits (report_format 10) (held report_struct message.now)) × (result ≡ true → Small message.now) }
{
    let latitude = in_24(field_layout::little_32(message, 8));
    let longitude = in_24(field_layout::little_32(message, 12));
    let rate = in_12(field_layout::little_16(message, 24));
    (message[0] < 16)
        & (message[1] < 16)
        & (field_layout::little_32(message, 4) < 16777216)
        & latitude
        & longitude
        & (field_layout::little_16(message, 16) < 4096)
        & (message[18] < 16)
        & (message[19] < 16)
        & (message[20] < 16)
        & (field_layout::little_16(message, 22) < 4096)
        & rate
        & (message[36] < 16)
        & (message[37] < 16)
}

// Octets 0 to 7 of a body as one number, the first most significant.
fn left_word(id: u8, first: u8, address: u32, latitude: u32) -> u64
    requires { (address < 16777216) × (latitude < 16777216) }
    ensures { result ≡ eight (latitude % 65536 % 256) (latitude % 65536 / 256) (latitude / 65536) (address % 65536 % 256) (address % 65536 / 256) (address / 65536) first id }
{
    id as u64 * 72057594037927936
        + (first as u64 * 281474976710656 + (address as u64 * 16777216 + latitude as u64))
}

// Octets 8 to 15.
fn right_word(longitude: u32, height: u16, integrity: u8, motion: u16) -> u64
    requires { longitude < 16777216 }
    ensures { result ≡ eight (motion % 256) (motion / 256) integrity (height % 256) (height / 256) (longitude % 65536 % 256) (longitude % 65536 / 256) (longitude / 65536) }
{
    longitude as u64 * 1099511627776
        + (height as u64 * 16777216 + (integrity as u64 * 65536 + motion as u64))
}

// Two fields of 4 bits.
fn halves(high: u8, low: u8) -> u8
    requires { (high < 16) × (low < 16) }
    ensures { result ≡ high * 16 + low }
{
    high * 16 + low
}

fn height_of(altitude: u16, miscellaneous: u8) -> u16
    requires { (altitude < 4096) × (miscellaneous < 16) }
    ensures { result ≡ altitude * 16 + miscellaneous }
{
    altitude * 16 + miscellaneous as u16
}

// The first 16 bits of the speed and the vertical rate.
fn motion_of(speed: u16, rate: u16) -> u16
    requires { (speed < 4096) × (rate < 4096) }
    ensures { result ≡ speed * 16 + rate / 256 }
{
    speed * 16 + rate / 256
}

// Octets 0 to 7 of the body as one number, the first least significant, and 8 to 15: a number that is turned round and put is
// stored in one piece.
fn left_octets(id: u8, message: &[u8]) -> u64
    requires { (length message.now ≡ 40) × Small message.now }
    ensures { octets_up 8 result ≡ left_of id message.now }
{
    let first = halves(message[0], message[1]);
    let address = field_layout::little_32(message, 4);
    let latitude = field_layout::little_32(message, 8) % 16777216;
    field_words::turned(left_word(id, first, address, latitude))
}

fn right_octets(message: &[u8]) -> u64
    requires { (length message.now ≡ 40) × Small message.now }
    ensures { octets_up 8 result ≡ right_of message.now }
{
    let longitude = field_layout::little_32(message, 12) % 16777216;
    let height = height_of(field_layout::little_16(message, 16), message[18]);
    let integrity = halves(message[19], message[20]);
    let rate = field_layout::little_16(message, 24) % 4096;
    let motion = motion_of(field_layout::little_16(message, 22), rate);
    field_words::turned(right_word(longitude, height, integrity, motion))
}

// Puts octets 0 to 15 of the body.
fn put_numbers(id: u8, message: &[u8], output: &mut [u8])
    requires { (length message.now ≡ 40) × Small message.now × (28 ≤ length output.old) }
    ensures { output.new ≡ sets output.old 0 (left_of id message.now ++ right_of message.now) }
{
    field_words::put_64(output, 0, left_octets(id, message));
    field_words::put_64(output, 8, right_octets(message));
}

// Puts the body at the start of output. The callsign goes at once, as in `put_others`.
#[tactic(auto, using(c_lent::proofs::Sizes::sizes))]
fn put(id: u8, message: &[u8], output: &mut [u8])
    requires { (length message.now ≡ 40) × Small message.now × (28 ≤ length output.old) }
    ensures { output.new ≡ body_of (report_format id) (held report_struct message.now) ++ drop 28 output.old }
{
    put_numbers(id, message, output);
    output[16] = message[24];
    output[17] = message[26];
    output[18] = message[27];
    field_words::put_64(output, 19, field_words::little_64(message, 28));
    output[27] = halves(message[36], message[37]);
}

// Writes the body, of an ID, of the message that a struct holds: 13, then 8.
fn write_body(id: u8, message: &[u8; 40], output: &mut [u8]) -> Result<(), Refusal>
    ensures { WritesStruct (report_format id) (held report_struct message.now) 28 output.old result output.new }
{
    if !fits(message) {
        return Err(Refusal::Field);
    }
    if output.len() < 28 {
        return Err(Refusal::OutputLength);
    }
    put(id, message, output);
    Ok(())
}

// Writes the body of the message that a struct holds: 13, then 8.
pub fn ostrogosz_ucp_write_ownship(message: &[u8; 40], output: &mut [u8]) -> OstrogoszWritten
    ensures { WritesStructBody (report_format 10) (held report_struct message.now) output.old result output.new }
{
    c_lent::written_numbers(write_body(10, message, output), 28)
}

pub fn ostrogosz_ucp_write_traffic(message: &[u8; 40], output: &mut [u8]) -> OstrogoszWritten
    ensures { WritesStructBody (report_format 20) (held report_struct message.now) output.old result output.new }
{
    c_lent::written_numbers(write_body(20, message, output), 28)
}

// ---- sending

// Stays: a call for each ID over this one, and so in reading and writing: C links a symbol for each.
// Sends the body of an ID: it is written into the buffer, and made its frame there.
fn send(id: u8, message: &[u8; 40], buffer: &mut FrameBuffer) -> OstrogoszWritten
    ensures { SendsStruct (report_format id) (held report_struct message.now) buffer.old result buffer.new }
{
    let written = write_body(id, message, buffer);
    OstrogoszWritten::from(c_lent::frame_if_written(written, 28, buffer))
}

// Writes the frame of the message that a struct holds at the start of buffer, and leaves what is behind it: 13.
pub fn ostrogosz_ucp_send_ownship(message: &[u8; 40], buffer: &mut FrameBuffer) -> OstrogoszWritten
    ensures { SendsStruct (report_format 10) (held report_struct message.now) buffer.old result buffer.new }
{
    send(10, message, buffer)
}

pub fn ostrogosz_ucp_send_traffic(message: &[u8; 40], buffer: &mut FrameBuffer) -> OstrogoszWritten
    ensures { SendsStruct (report_format 20) (held report_struct message.now) buffer.old result buffer.new }
{
    send(20, message, buffer)
}
