// Writes a MAVLink version 1 frame around a payload.
ghost use Rattle.std.specs.Prelude.{◌≡◌, [], ◌∷◌, ◌++◌, ◌+◌, ◌≤◌, length, drop};
ghost use Rattle.std.proofs.lemmas.List.Edits.{sets};
ghost use Rattle.output_writing.specs.Writing.{Writing};
ghost use Rattle.field_words.specs.Words.{octets_up};
ghost use Rattle.crc_x25.specs.Check.{x25};
ghost use Rattle.mavlink_frame.specs.Frame.{header_octets, covered, mavlink_frame};
ghost use Rattle.mavlink_frame.specs.Reader.{payload_at};
ghost use Rattle.mavlink_frame.specs.Writer.{frame_write_due, write_of, frame_of};
ghost use Rattle.mavlink_frame.specs.Steps.{low_first, closed};

use super::{Header, Kind};
use output_writing::Written;
use refusals::Refusal;

// Stays: kind and header are two arguments. A struct of both is no plainer: the table gives one and the caller the other, and each
// clause would take them apart again for `mavlink_frame`.

// Writes the frame of a payload at the start of output. On a refusal nothing is written.
pub fn write_frame(id: u8, header: Header, payload: &[u8], output: &mut [u8]) -> Written
    ensures { Writing (frame_write_due id payload.now output.old) (frame_of id header payload.now) output.old result output.new }
{
    let kind = super::kind_of(id).ok_or(Refusal::MavlinkField)?;
    write_kind(kind, header, payload, output)
}

// The same for the kind that a caller knows.
#[tactic(auto, unfolding(crate::specs::Writer::write_of))]
pub fn write_kind(kind: Kind, header: Header, payload: &[u8], output: &mut [u8]) -> Written
    ensures { Writing (write_of kind payload.now output.old) (mavlink_frame kind header payload.now) output.old result output.new }
{
    let n = payload.len();
    if n != kind.length as usize {
        return Err(Refusal::MavlinkField);
    }
    if output.len() < n + 8 {
        return Err(Refusal::OutputLength);
    }
    fill(kind, header, payload, output);
    Ok(n + 8)
}

// The same for a kind whose payload has one octet.
// Stays: apart from `write_six`. One function of both lengths is no plainer: it would choose by the length how the payload is put
// and in how many words the check goes over it, which is all that they do.
#[tactic(auto, unfolding(crate::specs::Writer::write_of))]
pub fn write_one(kind: Kind, header: Header, octet: u8, output: &mut [u8]) -> Written
    requires { kind.length ≡ 1 }
    ensures { Writing (write_of kind (octet ∷ []) output.old) (mavlink_frame kind header (octet ∷ [])) output.old result output.new }
{
    if output.len() < 9 {
        return Err(Refusal::OutputLength);
    }
    let check = check_of_one(kind, header, octet);
    output[6] = octet;
    put_around(kind, header, check, output);
    Ok(9)
}

// For one whose payload has six: they are put as one word, whose last two octets the check goes over.
#[tactic(auto, unfolding(crate::specs::Writer::write_of))]
pub fn write_six(kind: Kind, header: Header, payload: &[u8], output: &mut [u8]) -> Written
    requires { (kind.length ≡ 6) × (length payload.now ≡ 6) }
    ensures { Writing (write_of kind payload.now output.old) (mavlink_frame kind header payload.now) output.old result output.new }
{
    if output.len() < 14 {
        return Err(Refusal::OutputLength);
    }
    let check = check_of_six(kind, header, payload);
    field_words::put_64(output, 6, six(payload));
    put_around(kind, header, check, output);
    Ok(14)
}

// Six octets and two zeros.
fn six(payload: &[u8]) -> u64
    requires { length payload.now ≡ 6 }
    ensures { octets_up 8 result ≡ payload.now ++ 0 ∷ 0 ∷ [] }
{
    field_words::word_of(
        payload[0], payload[1], payload[2], payload[3], payload[4], payload[5], 0, 0,
    )
}

// Writes the frame of a payload at the start of an output that has room for it.
fn fill(kind: Kind, header: Header, payload: &[u8], output: &mut [u8])
    requires { (length payload.now ≡ kind.length) × (length payload.now + 8 ≤ length output.old) }
    ensures { output.new ≡ mavlink_frame kind header payload.now ++ drop (length payload.now + 8) output.old }
{
    let check = check_of(kind, header, payload);
    field_words::copies::copy(payload, output, 6);
    put_around(kind, header, check, output);
}

// Puts header and check around a payload that stands in the output already, from 6 on.
pub fn surround(kind: Kind, header: Header, output: &mut [u8])
    requires { kind.length + 8 ≤ length output.old }
    ensures { output.new ≡ mavlink_frame kind header (payload_at kind.length output.old) ++ drop (kind.length + 8) output.old }
{
    let check = check_of(kind, header, &output[6..kind.length as usize + 6]);
    put_around(kind, header, check, output);
}

// The check of a frame, from what its octets come from: octets that were just stored in other pieces are slow to load. Header and
// three octets of the payload are one word, so that those behind are as many as in reading.
fn check_of(kind: Kind, header: Header, payload: &[u8]) -> u16
    ensures { result ≡ x25 (covered kind header payload.now) }
{
    let n = payload.len();
    if n < 3 {
        return check_of_few(kind, header, payload);
    }
    let head = crc_x25::x25_eight(field_words::word_of(
        kind.length,
        header.sequence,
        header.system,
        header.component,
        kind.id,
        payload[0],
        payload[1],
        payload[2],
    ));
    crc_x25::x25_after(head, &payload[3..n], kind.extra)
}

// The same where the payload may be too short for that.
fn check_of_few(kind: Kind, header: Header, payload: &[u8]) -> u16
    ensures { result ≡ x25 (covered kind header payload.now) }
{
    let head = crc_x25::x25_five(
        kind.length,
        header.sequence,
        header.system,
        header.component,
        kind.id,
    );
    crc_x25::x25_after(head, payload, kind.extra)
}

// Header, one octet and extra: seven octets in one word.
// Stays: apart from `check_of_six`, as `write_one` from `write_six`.
fn check_of_one(kind: Kind, header: Header, octet: u8) -> u16
    ensures { result ≡ x25 (covered kind header (octet ∷ [])) }
{
    crc_x25::x25_seven(field_words::word_of(
        kind.length,
        header.sequence,
        header.system,
        header.component,
        kind.id,
        octet,
        kind.extra,
        0,
    ))
}

// Header, six octets and extra: twelve octets in two words.
fn check_of_six(kind: Kind, header: Header, payload: &[u8]) -> u16
    requires { length payload.now ≡ 6 }
    ensures { result ≡ x25 (covered kind header payload.now) }
{
    let first = field_words::word_of(
        kind.length,
        header.sequence,
        header.system,
        header.component,
        0,
        0,
        0,
        0,
    );
    let others = field_words::word_of(
        kind.id, payload[0], payload[1], payload[2], payload[3], payload[4], payload[5], kind.extra,
    );
    crc_x25::x25_twelve(first, others)
}

// Puts the header before the payload, and behind it a check.
fn put_around(kind: Kind, header: Header, check: u16, output: &mut [u8])
    requires { kind.length + 8 ≤ length output.old }
    ensures { output.new ≡ closed kind header (payload_at kind.length output.old) check ++ drop (kind.length + 8) output.old }
{
    put_header(kind, header, output);
    put_check(check, kind.length as usize + 6, output);
}

fn put_header(kind: Kind, header: Header, output: &mut [u8])
    requires { 6 ≤ length output.old }
    ensures { output.new ≡ sets output.old 0 (header_octets kind header) }
{
    output[0] = 0xFE;
    output[1] = kind.length;
    output[2] = header.sequence;
    output[3] = header.system;
    output[4] = header.component;
    output[5] = kind.id;
}

// Puts a check, low octet first.
fn put_check(check: u16, at: usize, output: &mut [u8])
    requires { at + 2 ≤ length output.old }
    ensures { output.new ≡ sets output.old at (low_first check) }
{
    output[at..at + 2].copy_from_slice(&check.to_le_bytes());
}
