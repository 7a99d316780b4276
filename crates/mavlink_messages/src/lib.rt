// The five kinds of MAVLink messages, typed: read from a frame, and written as one.
#![tactic(auto)]

mod data_stream_66;
mod dynamic_202;
pub mod failure_bits;
pub mod ranges;
mod static_201;
mod status_203;
mod traffic_246;

ghost use Rattle.std.specs.Prelude.{◌≡◌, true, length};
ghost use Rattle.output_writing.specs.Writing.{Writing};
ghost use Rattle.mavlink_messages.specs.Failures.{failure_answer, failures_in};
ghost use Rattle.mavlink_messages.specs.Messages.{in_range, failures_of, mavlink_answer, judged_by, payload_read, read_due, of_its_kind, write_due, message_frame};

use field_layout::Text;
use mavlink_frame::{Found, Header};
use output_writing::Written;
use refusals::Refusal;

// 66: a request for a data stream.
#[repr(C)]
#[derive(Clone, Copy)]
pub struct DataStream {
    pub req_message_rate: u16,
    pub target_system: u8,
    pub target_component: u8,
    pub req_stream_id: u8,
    pub start_stop: u8,
}

// 201: the static data of an aircraft.
#[repr(C)]
#[derive(Clone, Copy)]
pub struct Static {
    pub icao: u32,
    pub integrity: u8,
    pub stall_speed: u16,
    pub callsign: Text,
    pub capability: u8,
    pub emitter: u8,
    pub alw_encode: u8,
    pub gps_lat_offs: u8,
    pub gps_lon_offs: u8,
}

// 202: the dynamic data of an aircraft.
#[repr(C)]
#[derive(Clone, Copy)]
pub struct Dynamic {
    pub utc_time: u32,
    pub latitude: i32,
    pub longitude: i32,
    pub alt_pres: i32,
    pub alt_gnss: i32,
    pub acc_horiz: u32,
    pub acc_vert: u16,
    pub acc_vel: u16,
    pub vel_vert: i16,
    pub ns_vog: i16,
    pub ew_vog: i16,
    pub state: u16,
    pub squawk: u16,
    pub fix_type: u8,
    pub num_sats: u8,
    pub em_status: u8,
    pub control: u8,
}

// 203: the status of a transponder.
#[repr(C)]
#[derive(Clone, Copy)]
pub struct Status {
    pub status: u8,
}

// 246: a report of traffic.
#[repr(C)]
#[derive(Clone, Copy)]
pub struct Traffic {
    pub icao_address: u32,
    pub lat: i32,
    pub lon: i32,
    pub altitude: i32,
    pub heading: u16,
    pub hor_velocity: u16,
    pub ver_velocity: i16,
    pub valid_flags: u16,
    pub squawk: u16,
    pub altitude_type: u8,
    pub callsign: Text,
    pub callsign_ninth: u8,
    pub emitter_type: u8,
    pub tslc: u8,
}

// A message of one of the five kinds.
#[derive(Clone, Copy)]
pub enum Message {
    DataStream(DataStream),
    Static(Static),
    Dynamic(Dynamic),
    Status(Status),
    Traffic(Traffic),
}

// The failure bits of a status, 1 to 4: how many are set, and the lowest.
#[derive(Clone, Copy)]
pub struct Failures {
    pub count: u32,
    pub lowest: Option<u32>,
}

// A message in a right frame, at the start of an input.
#[derive(Clone, Copy)]
pub struct Framed {
    // The frame's.
    pub header: Header,
    // How many octets the frame has.
    pub used: usize,
    pub message: Message,
    // Those that the message reports, which are none where it is no status.
    pub failures: Failures,
}

// ---- ranges and failures

fn in_range(message: Message) -> bool
    ensures { result ≡ in_range message }
{
    match message {
        Message::DataStream(_) => true,
        Message::Static(static_data) => static_201::in_range(static_data),
        Message::Dynamic(dynamic) => dynamic_202::in_range(dynamic),
        Message::Status(_) => true,
        Message::Traffic(traffic) => traffic_246::in_range(traffic),
    }
}

// The failures that a status reports.
#[tactic(auto, unfolding(crate::specs::Failures::failures_in))]
fn failures_of(status: u8) -> Failures
    ensures { failure_answer result ≡ failures_in status }
{
    Failures {
        count: failure_bits::count_failures(status),
        lowest: failure_bits::lowest_failure(status),
    }
}

// The failures that a message reports.
fn message_failures(message: Message) -> Failures
    ensures { failure_answer result ≡ failures_of message }
{
    if let Message::Status(status) = message {
        return failures_of(status.status);
    }
    Failures {
        count: 0,
        lowest: None,
    }
}

// ---- writing: 25 for a field outside its range, then 8. On a refusal nothing is written.

pub fn write_message(message: Message, header: Header, output: &mut [u8]) -> Written
    ensures { Writing (write_due message output.old) (message_frame message header) output.old result output.new }
{
    if !in_range(message) {
        return Err(Refusal::MavlinkField);
    }
    match message {
        Message::DataStream(data_stream) => {
            let payload = data_stream_66::octets(data_stream);
            mavlink_frame::writer::write_kind(mavlink_frame::DATA_STREAM, header, &payload, output)
        }
        Message::Static(static_data) => {
            let payload = static_201::octets(static_data);
            mavlink_frame::writer::write_kind(mavlink_frame::STATIC, header, &payload, output)
        }
        Message::Dynamic(dynamic) => {
            let payload = dynamic_202::octets(dynamic);
            mavlink_frame::writer::write_kind(mavlink_frame::DYNAMIC, header, &payload, output)
        }
        Message::Status(status) => {
            let payload = status_203::octets(status);
            mavlink_frame::writer::write_kind(mavlink_frame::STATUS, header, &payload, output)
        }
        Message::Traffic(traffic) => {
            let payload = traffic_246::octets(traffic);
            mavlink_frame::writer::write_kind(mavlink_frame::TRAFFIC, header, &payload, output)
        }
    }
}

// ---- reading

// Reads the message in the frame at the start of input. Octets behind the frame are left.
pub fn read_message(input: &[u8]) -> Result<Framed, Refusal>
    ensures { mavlink_answer result ≡ read_due input.now }
{
    let found = mavlink_frame::reader::read_frame(input)?;
    let end = found.used - 2;
    read_payload(found, &input[6..end])
}

// Reads a payload, which is of the length that its kind has. That the length is tested here once more spares a test for each
// octet.
// Stays: IDs and lengths as numbers. The new form is no plainer: a pattern takes no field of `mavlink_frame::STATIC`, so five tests of
// two parts each would stand in place of this match.
#[tactic(auto, unfolding(mavlink_frame::specs::Frame::mavlink_kind))]
fn read_payload(found: Found, payload: &[u8]) -> Result<Framed, Refusal>
    requires { of_its_kind found.id (length payload.now) ≡ true }
    ensures { mavlink_answer result ≡ payload_read found.id found.header found.used payload.now }
{
    match (found.id, payload.len()) {
        (66, 6) => judge(
            true,
            found,
            Message::DataStream(data_stream_66::read(payload)),
        ),
        (201, 19) => {
            let static_data = static_201::read(payload);
            let fits = static_201::in_range(static_data);
            judge(fits, found, Message::Static(static_data))
        }
        (202, 42) => {
            let dynamic = dynamic_202::read(payload);
            let fits = dynamic_202::in_range(dynamic);
            judge(fits, found, Message::Dynamic(dynamic))
        }
        (203, 1) => judge(true, found, Message::Status(status_203::read(payload))),
        (246, 38) => {
            let traffic = traffic_246::read(payload);
            let fits = traffic_246::in_range(traffic);
            judge(fits, found, Message::Traffic(traffic))
        }
        _ => Err(Refusal::MavlinkUnknownId),
    }
}

// 25 for a message with a field outside its range. (Each kind's test stands with its reader: it then works on registers.)
fn judge(fits: bool, found: Found, message: Message) -> Result<Framed, Refusal>
    ensures { mavlink_answer result ≡ judged_by fits found.header found.used message }
{
    if !fits {
        return Err(Refusal::MavlinkField);
    }
    Ok(Framed {
        header: found.header,
        used: found.used,
        message,
        failures: message_failures(message),
    })
}
