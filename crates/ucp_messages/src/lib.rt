// The messages of the UCP line: what a body means, and the body of a message. A module for each kind has its fields from a body,
// and a body from the fields. Messages 0, 7, 10, 11 and 20 are those of the GDL90 public ICD, 44 and 45 of document 003, 117 of
// document 000.
#![tactic(auto)]

mod control_45;
mod geometric_altitude_11;
mod heartbeat_0;
mod initialization_117;
mod report_10;
mod request_44;
pub mod uplink_7;

ghost use Rattle.std.specs.Prelude.{◌≡◌};
ghost use Rattle.ucp_answers.specs.Writes.{WritesBody};
ghost use Rattle.ucp_messages.specs.Kinds.{is_known, NamedBy};
ghost use Rattle.ucp_messages.specs.Messages.{Reads, GivesPayload, message_fits, message_body};

use field_layout::Text;
use output_writing::Written;
use refusals::Refusal;

// Message 0, Heartbeat: all bits carried as they are.
#[repr(C)]
#[derive(Clone, Copy)]
pub struct Heartbeat {
    pub status_1: u8,
    pub status_2: u8,
    // Seconds since midnight, bits 0 to 15; status_2 has bit 16.
    pub time_stamp: u16,
    pub counts: u16,
}

// Messages 10 and 20, Ownship and Traffic report. Every number is raw; the crate ucp_meanings says what it means.
#[repr(C)]
#[derive(Clone, Copy)]
pub struct Report {
    // 4 bits each.
    pub alert: u8,
    pub address_type: u8,
    // 24 bits each.
    pub address: u32,
    pub latitude: i32,
    pub longitude: i32,
    // 12 bits, and 4.
    pub altitude: u16,
    pub miscellaneous: u8,
    // 4 bits each.
    pub nic: u8,
    pub nacp: u8,
    // 12 bits each.
    pub speed: u16,
    pub vertical_rate: i16,
    pub track: u8,
    pub emitter: u8,
    pub callsign: Text,
    // 4 bits each.
    pub emergency: u8,
    pub spare: u8,
}

// Message 11, Ownship geometric altitude: in steps of 5 feet, and its metrics.
#[repr(C)]
#[derive(Clone, Copy)]
pub struct GeometricAltitude {
    pub altitude: i16,
    pub metrics: u16,
}

// Message 44, Message Request.
#[repr(C)]
#[derive(Clone, Copy)]
pub struct Request {
    pub requested_id: u8,
}

// Message 45, Control.
#[repr(C)]
#[derive(Clone, Copy)]
pub struct Control {
    // 1090ES transmission enabled; replies enabled for modes S, C and A; the ident button.
    pub es_enabled: bool,
    pub mode_s: bool,
    pub mode_c: bool,
    pub mode_a: bool,
    pub ident: bool,
    // 2 bits.
    pub air_ground: u8,
    pub baro_checked: bool,
    // Pressure altitude in millimetres.
    pub altitude: i32,
    pub squawk: u16,
    pub emergency: u8,
    pub identity: Text,
}

// Message 117, Initialization.
#[repr(C)]
#[derive(Clone, Copy)]
pub struct Initialization {
    pub version: u8,
    // 24 bits.
    pub address: u32,
    pub emitter: u8,
    pub callsign: Text,
    pub stall_speed: u8,
    pub size: u8,
    // The antenna's offsets: 3 bits, and 5.
    pub lateral: u8,
    pub longitudinal: u8,
}

// The kinds of message. An ID that is none of theirs is of an unknown kind.
// Stays: the definitions have `Unknown` as a kind: `kind_row` of specs/Kinds.antt has a row for it, and `kind_in` gives it to a body
// without an octet.
#[derive(Clone, Copy)]
pub enum Kind {
    Heartbeat,
    Uplink,
    Ownship,
    GeometricAltitude,
    Traffic,
    Request,
    Control,
    Initialization,
    Unknown,
}

// A message with its fields. An uplink's payload stays in a slice beside it.
#[derive(Clone, Copy)]
pub enum Message {
    Heartbeat(Heartbeat),
    Uplink,
    Ownship(Report),
    GeometricAltitude(GeometricAltitude),
    Traffic(Report),
    Request(Request),
    Control(Control),
    Initialization(Initialization),
}

// The kind of a message, by its ID.
pub fn kind_of(id: u8) -> Kind
    ensures { NamedBy id result }
{
    match id {
        0 => Kind::Heartbeat,
        7 => Kind::Uplink,
        10 => Kind::Ownship,
        11 => Kind::GeometricAltitude,
        20 => Kind::Traffic,
        44 => Kind::Request,
        45 => Kind::Control,
        117 => Kind::Initialization,
        _ => Kind::Unknown,
    }
}

// Whether a kind is a known one.
pub fn is_known(kind: Kind) -> bool
    ensures { result ≡ is_known kind }
{
    match kind {
        Kind::Heartbeat => true,
        Kind::Uplink => true,
        Kind::Ownship => true,
        Kind::GeometricAltitude => true,
        Kind::Traffic => true,
        Kind::Request => true,
        Kind::Control => true,
        Kind::Initialization => true,
        Kind::Unknown => false,
    }
}

// What a body means: the message, of an uplink without its payload, which is the body behind its first octet. Refusals: 10, an
// unknown ID or no octet; 11, another length than the kind's; 12, a wrong version, signature or subtype; 13, a field outside its
// range. The choice is by the number, as in `kind_of`: so each arm is found by its kind's law in proofs/Formats.antt, and needs no
// proof of its own.
#[tactic(auto, using(crate::proofs::Formats::kinds_due, crate::proofs::BodyKind::no_octet, crate::proofs::BodyKind::no_kind))]
pub fn read_message(body: &[u8]) -> Result<Message, Refusal>
    ensures { Reads body.now result }
{
    if body.len() == 0 {
        return Err(Refusal::UnknownId);
    }
    match body[0] {
        0 => heartbeat_0::read(body).map(Message::Heartbeat),
        7 => uplink_7::read(body).and(Ok(Message::Uplink)),
        10 => report_10::read(body).map(Message::Ownship),
        11 => geometric_altitude_11::read(body).map(Message::GeometricAltitude),
        20 => report_10::read(body).map(Message::Traffic),
        44 => request_44::read(body).map(Message::Request),
        45 => control_45::read(body).map(Message::Control),
        117 => initialization_117::read(body).map(Message::Initialization),
        _ => Err(Refusal::UnknownId),
    }
}

// The payload of an uplink, which is a part of its body. Of another message, and of a body that is refused, there is none.
pub fn uplink_payload(body: &[u8]) -> &[u8]
    ensures { GivesPayload body.now result.now }
{
    if body.len() != 436 {
        return &body[..0];
    }
    if body[0] != 7 {
        return &body[..0];
    }
    &body[1..]
}

// Writes a message's body at the start of output. Only an uplink takes the payload. Refusals: 13, a field outside its range or
// too wide for its bits; 8, an output shorter than the body. On a refusal nothing is written.
pub fn write_message(message: Message, payload: &[u8], output: &mut [u8]) -> Written
    ensures { WritesBody (message_fits message payload.now) (message_body message payload.now) output.old result output.new }
{
    match message {
        Message::Heartbeat(heartbeat) => heartbeat_0::write(heartbeat, output),
        Message::Uplink => uplink_7::write(payload, output),
        Message::Ownship(report) => report_10::write(10, report, output),
        Message::GeometricAltitude(geometric) => geometric_altitude_11::write(geometric, output),
        Message::Traffic(report) => report_10::write(20, report, output),
        Message::Request(request) => request_44::write(request, output),
        Message::Control(control) => control_45::write(control, output),
        Message::Initialization(initialization) => initialization_117::write(
            initialization,
            output,
        ),
    }
}
