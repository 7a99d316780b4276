// Messages 10 and 20, Ownship and Traffic report: they differ in the ID alone.
ghost use Rattle.std.specs.Prelude.{◌≡◌, length, ◌+◌, ◌*◌, ◌<◌};
ghost use Rattle.field_signed.specs.Signed.{complement};
ghost use Rattle.field_format.specs.Format.{value_in, body_of, fits, Fitting};
ghost use Rattle.ucp_messages.specs.Report10.{report_format};
ghost use Rattle.ucp_messages.specs.Steps.{ReadsValue};
ghost use Rattle.ucp_answers.specs.Writes.{WritesBody};

use super::Report;
use output_writing::Written;
use refusals::Refusal;

fn fields(body: &[u8]) -> Report
    requires { length body.now ≡ 28 }
    ensures { result ≡ value_in (report_format 10) body.now }
{
    let first = field_layout::octet(body, 1);
    let height = field_layout::big_16(body, 11);
    let integrity = field_layout::octet(body, 13);
    let motion = field_layout::big_32(body, 14);
    let last = field_layout::octet(body, 27);
    let rate = motion % 1048576 / 256;
    Report {
        alert: first / 16,
        address_type: first % 16,
        address: field_layout::big_24(body, 2),
        latitude: field_signed::signed_24(field_layout::big_24(body, 5)),
        longitude: field_signed::signed_24(field_layout::big_24(body, 8)),
        altitude: height / 16,
        miscellaneous: (height % 16) as u8,
        nic: integrity / 16,
        nacp: integrity % 16,
        speed: (motion / 1048576) as u16,
        vertical_rate: field_signed::signed_12(rate as u16),
        track: (motion % 1048576 % 256) as u8,
        emitter: field_layout::octet(body, 18),
        callsign: field_layout::text_at(body, 19),
        emergency: last / 16,
        spare: last % 16,
    }
}

// What a body that has one of the two IDs means.
pub fn read(body: &[u8]) -> Result<Report, Refusal>
    ensures { ReadsValue (report_format 10) body.now result }
{
    if body.len() != 28 {
        return Err(Refusal::MessageLength);
    }
    Ok(fields(body))
}

// Whether each field has no more bits than the body has for it.
fn fits(report: Report) -> bool
    ensures { result ≡ fits (report_format 10) report }
{
    let latitude = field_signed::holds_24(report.latitude);
    let longitude = field_signed::holds_24(report.longitude);
    let rate = field_signed::holds_12(report.vertical_rate);
    (report.alert < 16)
        & (report.address_type < 16)
        & (report.address < 16777216)
        & latitude
        & longitude
        & (report.altitude < 4096)
        & (report.miscellaneous < 16)
        & (report.nic < 16)
        & (report.nacp < 16)
        & (report.speed < 4096)
        & rate
        & (report.emergency < 16)
        & (report.spare < 16)
}

// ---- runs of fields as octets, most significant first

// Two fields of 4 bits.
fn halves(high: u8, low: u8) -> u8
    requires { (high < 16) × (low < 16) }
    ensures { result ≡ high * 16 + low }
{
    high * 16 + low
}

fn octets(id: u8, report: Report) -> [u8; 28]
    requires { Fitting (report_format id) report }
    ensures { result ≡ body_of (report_format id) report }
{
    let address = report.address.to_be_bytes();
    let latitude = field_signed::bits_24(report.latitude).to_be_bytes();
    let longitude = field_signed::bits_24(report.longitude).to_be_bytes();
    let height = (report.altitude * 16 + report.miscellaneous as u16).to_be_bytes();
    let rate = field_signed::bits_12(report.vertical_rate) as u32;
    let motion = (report.speed as u32 * 1048576 + (rate * 256 + report.track as u32)).to_be_bytes();
    [
        id,
        halves(report.alert, report.address_type),
        address[1],
        address[2],
        address[3],
        latitude[1],
        latitude[2],
        latitude[3],
        longitude[1],
        longitude[2],
        longitude[3],
        height[0],
        height[1],
        halves(report.nic, report.nacp),
        motion[0],
        motion[1],
        motion[2],
        motion[3],
        report.emitter,
        report.callsign.c0,
        report.callsign.c1,
        report.callsign.c2,
        report.callsign.c3,
        report.callsign.c4,
        report.callsign.c5,
        report.callsign.c6,
        report.callsign.c7,
        halves(report.emergency, report.spare),
    ]
}

// Writes the body of an ID, which is to be 10 or 20.
pub fn write(id: u8, report: Report, output: &mut [u8]) -> Written
    ensures { WritesBody (fits (report_format id) report) (body_of (report_format id) report) output.old result output.new }
{
    if !fits(report) {
        return Err(Refusal::Field);
    }
    let body = octets(id, report);
    ucp_answers::put(&body, output)
}
