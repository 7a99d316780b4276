// Message 45, Control, for C: the message lies in the caller's struct, which is lent as its octets.
#![tactic(auto)]

ghost use Rattle.std.specs.Prelude.{◌≡◌, ◌&&◌, ltb, ◌++◌, ◌*◌, ◌<◌, ◌≤◌, length, get_or, take, drop};
ghost use Rattle.field_words.specs.Words.{octets_up};
ghost use Rattle.field_codes.specs.Codes.{is_squawk};
ghost use Rattle.ucp_frame.specs.Frame.{frame};
ghost use Rattle.field_layout.specs.Steps.{little16};
ghost use Rattle.field_layout.specs.Layout.{bit_of};
ghost use Rattle.field_format.specs.Format.{value_in, body_of, fits};
ghost use Rattle.ucp_messages.specs.Control45.{control_format};
ghost use Rattle.ucp_writer.specs.Sends.{SendsBody};
ghost use Rattle.c_lent.specs.Steps.{number_in};
ghost use Rattle.c_lent.specs.Reads.{ReadsInto};
ghost use Rattle.c_lent.specs.Writes.{WritesStructBody, WritesStruct};
ghost use Rattle.c_lent.specs.Sends.{SendsStruct};
ghost use Rattle.c_lent.specs.Structs.{is_yes, stored, held};
ghost use Rattle.c_ucp_control.specs.Struct.{control_struct, control_state};
ghost use Rattle.c_ucp_control.specs.Steps.{state_fields, marks};

use output_writing::{OstrogoszWritten, Written};
use refusals::Refusal;
use ucp_frame::FrameBuffer;

// ---- reading

// Whether each field that a body carries is in its range.
fn body_fits(body: &[u8]) -> bool
    requires { length body.now ≡ 18 }
    ensures { result ≡ control_format.ranges (value_in control_format body.now) }
{
    field_codes::is_squawk(field_layout::little_16(body, 7))
        & field_texts::pairs::is_padded_at(body, 10)
}

// The octet at 2 once for each field below its top bit, moved so that the field begins where its octet of the struct does.
const MOVED: u64 = 0x0001_0080_2010_0804;

// The bits of those fields.
const FIELDS: u64 = 0x0001_0301_0101_0100;

// Bits 7 to 0 of the octet at 2, an octet of the struct for each field, and the padding behind them. A product moves all fields at
// once, and no two of its terms meet: with a shift for each the reader had twenty instructions more.
fn flags(state: u8) -> u64
    ensures { octets_up 8 result ≡ state_fields state }
{
    (state as u64 * MOVED & FIELDS) + (state / 128) as u64
}

// From 3 on the body has the octets of the struct from 8 on.
fn fill(body: &[u8], message: &mut [u8; 24])
    requires { length body.now ≡ 18 }
    ensures { message.new ≡ stored control_struct (value_in control_format body.now) }
{
    // Behind a store the compiler reads the body anew. Else it keeps the text from its test, and copies it by way of the stack.
    *message = [0; 24];
    field_words::put_64(message, 0, flags(body[2]));
    field_words::put_64(message, 8, field_words::little_64(body, 3));
    // The first of the identity is put twice.
    field_words::put_64(message, 15, field_words::little_64(body, 10));
}

fn read(body: &[u8], message: &mut [u8; 24]) -> Result<(), Refusal>
    ensures { ReadsInto control_format control_struct body.now message.old (number_in result) message.new }
{
    c_lent::first_refusal(body, 45, 18)?;
    if body[1] != 1 {
        return Err(Refusal::Fixed);
    }
    if !body_fits(body) {
        return Err(Refusal::Field);
    }
    fill(body, message);
    Ok(())
}

// Reads a body into the struct: 0, or the refusal that is due, 10 to 13, and then the struct is as it was.
pub fn ostrogosz_ucp_read_control(body: &[u8], message: &mut [u8; 24]) -> u32
    ensures { ReadsInto control_format control_struct body.now message.old result message.new }
{
    c_lent::read_number(read(body, message))
}

// ---- writing

// The bits below the top one of each octet, and the top ones.
const LOW: u32 = 0x7F7F_7F7F;

const TOP: u32 = 0x8080_8080;

// The top bit of each octet that is not 0: where a bit below it is set, LOW added to those bits carries into it.
fn marked(word: u32) -> u32
    ensures { result ≡ marks (octets_up 4 word) }
{
    (((word & LOW) + LOW) | word) & TOP
}

// Four octets that are 0 or 1, moved so that the first to the fourth meet at bits 31 to 28.
const GATHERED: u64 = 0x8040_2010;

// What a bool of C is worth as a bit of the octet at 2.
fn bit(octet: u8, worth: u8) -> u8
    ensures { (result ≡ bit_of (is_yes octet) * worth) × (result ≤ worth) }
{
    if octet == 0 { 0 } else { worth }
}

// Bits 7 to 0 of the octet at 2. The first four bools are looked at in one word.
fn state(message: &[u8]) -> u8
    requires { (length message.now ≡ 24) × (get_or message.now 5 0 < 4) }
    ensures { result ≡ control_state (held control_struct message.now) }
{
    let yes = marked(field_layout::little_32(message, 0)) as u64;
    let high = (yes / 128 * GATHERED / 16777216 % 256) as u8;
    let ident = bit(message[4], 8);
    let baro_checked = bit(message[6], 1);
    high + (ident + (message[5] * 2 + baro_checked))
}

// Whether the numbers that a struct holds are in their range and have no more bits than the body has for them. The text is
// tested apart: one function for both, with two callers, would not be inlined.
fn numbers_fit(message: &[u8]) -> bool
    requires { length message.now ≡ 24 }
    ensures { result ≡ (ltb (get_or message.now 5 0) 4 && is_squawk (little16 message.now 12)) }
{
    (message[5] < 4) & field_codes::is_squawk(field_layout::little_16(message, 12))
}

// Puts the body at the start of output.
#[tactic(auto, using(c_lent::proofs::Sizes::sizes))]
fn put(message: &[u8], output: &mut [u8])
    requires { (length message.now ≡ 24) × (get_or message.now 5 0 < 4) × (18 ≤ length output.old) }
    ensures { output.new ≡ body_of control_format (held control_struct message.now) ++ drop 18 output.old }
{
    let state = state(message);
    // Behind a store the compiler reads the message anew, as in `fill`.
    output[0] = 45;
    output[1] = 1;
    output[2] = state;
    // Fifteen octets in two words: the first of the identity is put twice.
    field_words::put_64(output, 3, field_words::little_64(message, 8));
    field_words::put_64(output, 10, field_words::little_64(message, 15));
}

fn write(message: &[u8], output: &mut [u8]) -> Result<(), Refusal>
    requires { length message.now ≡ 24 }
    ensures { WritesStruct control_format (held control_struct message.now) 18 output.old result output.new }
{
    if !(numbers_fit(message) & field_texts::pairs::is_padded_at(message, 15)) {
        return Err(Refusal::Field);
    }
    if output.len() < 18 {
        return Err(Refusal::OutputLength);
    }
    put(message, output);
    Ok(())
}

// Writes the body of the message that a struct holds: 13, then 8.
pub fn ostrogosz_ucp_write_control(message: &[u8; 24], output: &mut [u8]) -> OstrogoszWritten
    ensures { WritesStructBody control_format (held control_struct message.now) output.old result output.new }
{
    c_lent::written_numbers(write(message, output), 18)
}

// ---- sending

// Octets 2 to 9 of the body.
fn first_word(message: &[u8]) -> u64
    requires { (length message.now ≡ 24) × (get_or message.now 5 0 < 4) }
    ensures { octets_up 8 result ≡ take 8 (drop 2 (body_of control_format (held control_struct message.now))) }
{
    let state = state(message);
    field_words::word_of(
        state,
        message[8],
        message[9],
        message[10],
        message[11],
        message[12],
        message[13],
        message[14],
    )
}

// Puts the frame at the start of buffer. The body is never whole in one place: it is two octets, and two words, the second of which
// stands in the struct.
fn put_frame(message: &[u8], buffer: &mut [u8]) -> usize
    requires { (length message.now ≡ 24) × (get_or message.now 5 0 < 4) × (length (frame (body_of control_format (held control_struct message.now))) ≤ length buffer.old) }
    ensures { (result ≡ length (frame (body_of control_format (held control_struct message.now)))) × (buffer.new ≡ frame (body_of control_format (held control_struct message.now)) ++ drop result buffer.old) }
{
    let word = first_word(message);
    buffer[0] = 0x7E;
    let next = ucp_stuffing::put_pair(buffer, 1, 45, 1);
    let head = crc_gdl90::next_check_pair(0, 45, 1);
    let check = crc_gdl90::next_check_eight(head, field_words::turned(word));
    let at = ucp_stuffing::put_eight(buffer, next, word);
    ucp_writer::fill_words(&message[15..23], buffer, 0, check, at)
}

fn send(message: &[u8], buffer: &mut [u8]) -> Written
    requires { (length message.now ≡ 24) × (length buffer.old ≡ 878) }
    ensures { SendsBody (fits control_format (held control_struct message.now)) (body_of control_format (held control_struct message.now)) buffer.old result buffer.new }
{
    if !(numbers_fit(message) & field_texts::pairs::is_padded_at(message, 15)) {
        return Err(Refusal::Field);
    }
    Ok(put_frame(message, buffer))
}

// Writes the frame of the message that a struct holds at the start of buffer, and leaves what is behind it: 13.
pub fn ostrogosz_ucp_send_control(message: &[u8; 24], buffer: &mut FrameBuffer) -> OstrogoszWritten
    ensures { SendsStruct control_format (held control_struct message.now) buffer.old result buffer.new }
{
    OstrogoszWritten::from(send(message, buffer))
}
