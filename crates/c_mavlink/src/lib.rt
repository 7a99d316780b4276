// The MAVLink messages for C: a message and the header of its frame lie in the caller's structs, which are lent as their octets;
// include/ostrogosz.h says the same in C.
#![tactic(auto)]

pub mod data_stream;
pub mod dynamic;
mod frames;
pub mod static_data;
pub mod status;
pub mod traffic;

ghost use Rattle.std.specs.Prelude.{◌≡◌};
ghost use Rattle.refusals.specs.Refusals.{refusal_number};
ghost use Rattle.mavlink_messages.specs.Failures.{failures_in};
ghost use Rattle.c_mavlink.specs.Ids.{id_answer, mavlink_id_due};
ghost use Rattle.c_mavlink.specs.Failures.{failure_numbers};

use refusals::Refusal;

// What kind of frame stands at the start of an input.
// Stays: numbers side by side. It is the struct of the C header, and C has no `Result`.
#[repr(C)]
#[derive(Clone, Copy)]
pub struct OstrogoszMavlinkId {
    // 0, or a refusal's number: 20 to 23. On a refusal all else is 0.
    pub refusal: u32,
    // 66, 201, 202, 203 or 246.
    pub id: u32,
    // How many octets the frame has.
    pub used: usize,
}

// The failures that a status reports.
// Stays: 0 where no failure is set. It is the struct of the C header, and C has no `Option`.
#[repr(C)]
#[derive(Clone, Copy)]
pub struct OstrogoszMavlinkFailures {
    // How many of the failure bits 1 to 4 are set.
    pub count: u32,
    // The lowest of them; 0 where none is.
    pub lowest: u32,
}

fn refused(refusal: Refusal) -> OstrogoszMavlinkId
    ensures { result ≡ record { refusal = refusal_number refusal; id = 0; used = 0 } }
{
    OstrogoszMavlinkId {
        refusal: refusal.number() as u32,
        id: 0,
        used: 0,
    }
}

// The message ID of the frame at the start of input, by a reader's tests up to the check.
#[tactic(auto, unfolding(mavlink_frame::specs::Reader::found, mavlink_frame::specs::Reader::found_of))]
fn id_of(input: &[u8]) -> Result<OstrogoszMavlinkId, Refusal>
    ensures { id_answer result ≡ mavlink_id_due input.now }
{
    let n = input.len();
    if n == 0 {
        return Err(Refusal::MavlinkShort);
    }
    let first = input[0];
    if first != 0xFE {
        return Err(Refusal::MavlinkStart);
    }
    if n < 6 {
        return Err(Refusal::MavlinkShort);
    }
    let kind = mavlink_frame::kind_of(input[5]).ok_or(Refusal::MavlinkUnknownId)?;
    let length = input[1];
    if length != kind.length {
        return Err(Refusal::MavlinkLength);
    }
    let used = length as usize + 8;
    if n < used {
        return Err(Refusal::MavlinkShort);
    }
    Ok(OstrogoszMavlinkId {
        refusal: 0,
        id: input[5] as u32,
        used,
    })
}

// The message ID of the frame at the start of input, and how many octets the frame has. Neither its check nor its fields are
// looked at.
pub fn ostrogosz_mavlink_read_id(input: &[u8]) -> OstrogoszMavlinkId
    ensures { result ≡ mavlink_id_due input.now }
{
    match id_of(input) {
        Ok(id) => id,
        Err(refusal) => refused(refusal),
    }
}

// The failure bits of a status.
#[tactic(auto, unfolding(mavlink_messages::specs::Failures::failures_in))]
pub fn ostrogosz_mavlink_count_failures(status: u8) -> OstrogoszMavlinkFailures
    ensures { result ≡ failure_numbers (failures_in status) }
{
    OstrogoszMavlinkFailures {
        count: mavlink_messages::failure_bits::count_failures(status),
        lowest: mavlink_messages::failure_bits::lowest_failure(status).unwrap_or(0),
    }
}
