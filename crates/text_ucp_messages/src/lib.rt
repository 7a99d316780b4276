// The kinds of message on the UCP line, each by its template: its name, and its fields in users' units.
#![tactic(auto)]

ghost use Rattle.std.specs.Prelude.{◌≡◌, [], ◌++◌, drop};
ghost use Rattle.ucp_messages.specs.declared.Message.TheVariants.{Heartbeat as HeartbeatMessage, Uplink as UplinkMessage, GeometricAltitude as GeometricMessage, Request as RequestMessage, Control as ControlMessage, Initialization as InitializationMessage};
ghost use Rattle.text_output.specs.Pages.{Appends};
ghost use Rattle.text_fields.specs.Fields.{fields_shown};
ghost use Rattle.text_ucp_messages.specs.Reports.{report_fields};
ghost use Rattle.text_ucp_messages.specs.Messages.{message_shown};

use text_fields::{Values, put_fields, put_named};
use text_output::Printing;
use text_output::page::Page;
use ucp_messages::{
    Control, GeometricAltitude, Heartbeat, Initialization, Message, Report, Request,
};

#[tactic(auto, unfolding(crate::specs::Messages::message_shown, text_fields::specs::Fields::fields_shown, text_fields::specs::Templates::filled))]
fn put_heartbeat(page: &mut Page, message: Heartbeat)
    ensures { Appends page.old (message_shown (HeartbeatMessage message) []) page.new }
{
    let naturals = [
        message.status_1 as u32,
        message.status_2 as u32,
        message.time_stamp as u32 + message.status_2 as u32 / 128 * 65536,
        message.counts as u32,
    ];
    put_fields(
        page,
        b" heartbeat first status %x2. second status %x2. time %s0. counts %x4.",
        Values {
            naturals: &naturals,
            ..Values::default()
        },
    );
}

// A body without its ID.
fn behind_id(body: &[u8]) -> &[u8]
    ensures { result.now ≡ drop 1 body.now }
{
    body.get(1..).unwrap_or(&[])
}

fn put_uplink(page: &mut Page, body: &[u8])
    ensures { Appends page.old (message_shown UplinkMessage body.now) page.new }
{
    page.put_word(b" uplink payload");
    page.put_printed(Printing::Hex, behind_id(body));
}

// Ownship and traffic are told apart by the name. A track's step is 65536 of an angle's.
fn put_report(page: &mut Page, name: &[u8], message: Report)
    ensures { Appends page.old (name.now ++ fields_shown (report_fields message)) page.new }
{
    let naturals = [
        message.alert as u32,
        message.address_type as u32,
        message.address,
        message.altitude as u32,
        message.miscellaneous as u32,
        message.nic as u32,
        message.nacp as u32,
        message.speed as u32,
        message.emitter as u32,
        message.emergency as u32,
        message.spare as u32,
    ];
    let steps = message.track as u32 * 65536;
    let longs = [message.latitude, message.longitude, steps as i32];
    let shorts = [message.vertical_rate];
    let callsign = message.callsign;
    page.put_word(name);
    put_named(
        page,
        b" alert %n0. address type %n0. address %x6. latitude $a7. longitude $a7. altitude %a0. \
        miscellaneous %n0. nic %n0. nacp %n0. speed %k0k vertical rate &r0. track $a7. emitter %n0. \
        callsign @ emergency %n0. spare %n0.",
        Values {
            naturals: &naturals,
            shorts: &shorts,
            longs: &longs,
            ..Values::default()
        },
        callsign,
    );
}

fn put_geometric(page: &mut Page, message: GeometricAltitude)
    ensures { Appends page.old (message_shown (GeometricMessage message) []) page.new }
{
    let naturals = [message.metrics as u32];
    let shorts = [message.altitude];
    put_fields(
        page,
        b" geometric altitude altitude &g0. metrics %x4.",
        Values {
            naturals: &naturals,
            shorts: &shorts,
            ..Values::default()
        },
    );
}

#[tactic(auto, unfolding(crate::specs::Messages::message_shown, text_fields::specs::Fields::fields_shown, text_fields::specs::Templates::filled))]
fn put_request(page: &mut Page, message: Request)
    ensures { Appends page.old (message_shown (RequestMessage message) []) page.new }
{
    let naturals = [message.requested_id as u32];
    put_fields(
        page,
        b" request requested %n0.",
        Values {
            naturals: &naturals,
            ..Values::default()
        },
    );
}

fn put_control(page: &mut Page, message: Control)
    ensures { Appends page.old (message_shown (ControlMessage message) []) page.new }
{
    let naturals = [
        message.es_enabled as u32,
        message.mode_s as u32,
        message.mode_c as u32,
        message.mode_a as u32,
        message.ident as u32,
        message.air_ground as u32,
        message.baro_checked as u32,
        message.squawk as u32,
        message.emergency as u32,
    ];
    let longs = [message.altitude];
    let identity = message.identity;
    put_named(
        page,
        b" control 1090es %y0. mode s %y0. mode c %y0. mode a %y0. ident %y0. air ground %n0. \
        barometer checked %y0. altitude $m3m squawk %q4. emergency %n0. identity @",
        Values {
            naturals: &naturals,
            longs: &longs,
            ..Values::default()
        },
        identity,
    );
}

#[tactic(auto, unfolding(crate::specs::Messages::message_shown, text_fields::specs::Fields::fields_shown, text_fields::specs::Templates::filled))]
fn put_initialization(page: &mut Page, message: Initialization)
    ensures { Appends page.old (message_shown (InitializationMessage message) []) page.new }
{
    let naturals = [
        message.version as u32,
        message.address,
        message.emitter as u32,
        message.stall_speed as u32,
        message.size as u32,
        message.lateral as u32,
        message.longitudinal as u32,
    ];
    let callsign = message.callsign;
    put_named(
        page,
        b" initialization version %n0. address %x6. emitter %n0. callsign @ stall speed %k0k size %n0. \
        lateral %n0. longitudinal %n0.",
        Values {
            naturals: &naturals,
            ..Values::default()
        },
        callsign,
    );
}

// A message by its kind's name and its fields. An uplink's payload stands in its body.
#[tactic(auto, unfolding(crate::specs::Messages::message_shown))]
pub fn put_message(page: &mut Page, message: Message, body: &[u8])
    ensures { Appends page.old (message_shown message body.now) page.new }
{
    match message {
        Message::Heartbeat(heartbeat) => put_heartbeat(page, heartbeat),
        Message::Uplink => put_uplink(page, body),
        Message::Ownship(report) => put_report(page, b" ownship", report),
        Message::GeometricAltitude(geometric) => put_geometric(page, geometric),
        Message::Traffic(report) => put_report(page, b" traffic", report),
        Message::Request(request) => put_request(page, request),
        Message::Control(control) => put_control(page, control),
        Message::Initialization(initialization) => put_initialization(page, initialization),
    }
}
