// The MAVLink kinds, each by its template: its name, its frame's header and its fields in users' units.
#![tactic(auto)]

ghost use Rattle.std.specs.Prelude.{◌++◌};
ghost use Rattle.text_output.specs.Pages.{Appends};
ghost use Rattle.text_fields.specs.Fields.{fields_shown};
ghost use Rattle.mavlink_messages.specs.Failures.{failure_answer};
ghost use Rattle.text_mavlink_messages.specs.Dynamic202.{dynamic_fields};
ghost use Rattle.text_mavlink_messages.specs.Traffic246.{traffic_fields};
ghost use Rattle.text_mavlink_messages.specs.Messages.{header_fields, data_stream_fields, static_fields, status_fields, mavlink_shown};

use mavlink_frame::Header;
use mavlink_messages::{DataStream, Dynamic, Failures, Framed, Message, Static, Status, Traffic};
use text_fields::{Values, put_fields, put_named};
use text_output::page::Page;

fn put_heading(page: &mut Page, name: &[u8], header: Header)
    ensures { Appends page.old (name.now ++ fields_shown (header_fields header)) page.new }
{
    let naturals = [
        header.sequence as u32,
        header.system as u32,
        header.component as u32,
    ];
    page.put_word(name);
    put_fields(
        page,
        b" sequence %n0. system %n0. component %n0.",
        Values {
            naturals: &naturals,
            ..Values::default()
        },
    );
}

fn put_data_stream(page: &mut Page, message: DataStream)
    ensures { Appends page.old (fields_shown (data_stream_fields message)) page.new }
{
    let naturals = [
        message.req_message_rate as u32,
        message.target_system as u32,
        message.target_component as u32,
        message.req_stream_id as u32,
        message.start_stop as u32,
    ];
    put_fields(
        page,
        b" rate %c0. target system %n0. target component %n0. stream %n0. start %n0.",
        Values {
            naturals: &naturals,
            ..Values::default()
        },
    );
}

fn put_static(page: &mut Page, message: Static)
    ensures { Appends page.old (fields_shown (static_fields message)) page.new }
{
    let naturals = [
        message.icao,
        message.integrity as u32,
        message.stall_speed as u32,
        message.capability as u32,
        message.emitter as u32,
        message.alw_encode as u32,
        message.gps_lat_offs as u32,
        message.gps_lon_offs as u32,
    ];
    let callsign = message.callsign;
    put_named(
        page,
        b" address %x6. integrity %x2. stall speed %v2. callsign @ capability %x2. emitter %n0. \
        size %n0. lateral %n0. longitudinal %n0.",
        Values {
            naturals: &naturals,
            ..Values::default()
        },
        callsign,
    );
}

fn put_dynamic(page: &mut Page, message: Dynamic)
    ensures { Appends page.old (fields_shown (dynamic_fields message)) page.new }
{
    let naturals = [
        message.utc_time,
        message.acc_horiz,
        message.acc_vert as u32,
        message.acc_vel as u32,
        message.state as u32,
        message.squawk as u32,
        message.fix_type as u32,
        message.num_sats as u32,
        message.em_status as u32,
        message.control as u32,
    ];
    let shorts = [message.vel_vert, message.ns_vog, message.ew_vog];
    let longs = [
        message.latitude,
        message.longitude,
        message.alt_pres,
        message.alt_gnss,
    ];
    put_fields(
        page,
        b" utc time %s0m latitude $d7m longitude $d7m pressure altitude $m3m gnss altitude $m3m \
        horizontal accuracy %m3m vertical accuracy %m2w velocity accuracy %v3w vertical speed &v2m \
        north velocity &v2m east velocity &v2m state %x4. squawk %q4. fix %n0. satellites %c0b \
        emergency %n0. control %x2.",
        Values {
            naturals: &naturals,
            shorts: &shorts,
            longs: &longs,
            ..Values::default()
        },
    );
}

fn put_status(page: &mut Page, message: Status, failures: Failures)
    ensures { Appends page.old (fields_shown (status_fields message (failure_answer failures))) page.new }
{
    match failures.lowest {
        Some(bit) => {
            let naturals = [message.status as u32, failures.count, bit];
            put_fields(
                page,
                b" status %x2. failures %c0. lowest %c0.",
                Values {
                    naturals: &naturals,
                    ..Values::default()
                },
            );
        }
        None => {
            let naturals = [message.status as u32, failures.count];
            put_fields(
                page,
                b" status %x2. failures %c0. lowest none",
                Values {
                    naturals: &naturals,
                    ..Values::default()
                },
            );
        }
    }
}

fn put_traffic(page: &mut Page, message: Traffic)
    ensures { Appends page.old (fields_shown (traffic_fields message)) page.new }
{
    let naturals = [
        message.icao_address,
        message.heading as u32,
        message.hor_velocity as u32,
        message.valid_flags as u32,
        message.squawk as u32,
        message.altitude_type as u32,
        message.emitter_type as u32,
        message.tslc as u32,
    ];
    let shorts = [message.ver_velocity];
    let longs = [message.lat, message.lon, message.altitude];
    let name = message.callsign;
    let callsign = [
        name.c0,
        name.c1,
        name.c2,
        name.c3,
        name.c4,
        name.c5,
        name.c6,
        name.c7,
        message.callsign_ninth,
    ];
    put_fields(
        page,
        b" address %x8. latitude $d7. longitude $d7. altitude $m3. heading %d2. \
        horizontal velocity %v2. vertical velocity &v2. valid %x4. squawk %q4w altitude type %n0. \
        callsign @ emitter %n0. age %s0.",
        Values {
            naturals: &naturals,
            shorts: &shorts,
            longs: &longs,
            octets: &callsign,
        },
    );
}

// A message behind the octets that its frame has.
pub fn put_message(page: &mut Page, framed: Framed)
    ensures { Appends page.old (mavlink_shown framed.header framed.message (failure_answer framed.failures)) page.new }
{
    let header = framed.header;
    match framed.message {
        Message::DataStream(data_stream) => {
            put_heading(page, b" data stream request", header);
            put_data_stream(page, data_stream);
        }
        Message::Static(static_data) => {
            put_heading(page, b" static", header);
            put_static(page, static_data);
        }
        Message::Dynamic(dynamic_data) => {
            put_heading(page, b" dynamic", header);
            put_dynamic(page, dynamic_data);
        }
        Message::Status(status) => {
            put_heading(page, b" status", header);
            put_status(page, status, framed.failures);
        }
        Message::Traffic(report) => {
            put_heading(page, b" traffic report", header);
            put_traffic(page, report);
        }
    }
}
