// Message 45, Control.
ghost use Rattle.std.specs.Prelude.{◌≡◌, length, get_or};
ghost use Rattle.field_format.specs.Format.{value_in, body_of, fits, Fitting};
ghost use Rattle.ucp_messages.specs.Steps.{ReadsValue};
ghost use Rattle.ucp_messages.specs.Control45.{control_format};
ghost use Rattle.ucp_answers.specs.Writes.{WritesBody};

use super::Control;
use output_writing::Written;
use refusals::Refusal;

fn fields(body: &[u8]) -> Control
    requires { length body.now ≡ 18 }
    ensures { result ≡ value_in control_format body.now }
{
    let state = field_layout::octet(body, 2);
    let from_6 = state % 128;
    let from_5 = from_6 % 64;
    let from_4 = from_5 % 32;
    let from_3 = from_4 % 16;
    let from_2 = from_3 % 8;
    Control {
        es_enabled: state / 128 == 1,
        mode_s: from_6 / 64 == 1,
        mode_c: from_5 / 32 == 1,
        mode_a: from_4 / 16 == 1,
        ident: from_3 / 8 == 1,
        air_ground: from_2 / 2,
        baro_checked: from_2 % 2 == 1,
        altitude: field_signed::signed_32(field_layout::little_32(body, 3)),
        squawk: field_layout::little_16(body, 7),
        emergency: field_layout::octet(body, 9),
        identity: field_layout::text_at(body, 10),
    }
}

// What a body that has the kind's ID means.
pub fn read(body: &[u8]) -> Result<Control, Refusal>
    ensures { ReadsValue control_format body.now result }
{
    if body.len() != 18 {
        return Err(Refusal::MessageLength);
    }
    if field_layout::octet(body, 1) != 1 {
        return Err(Refusal::Fixed);
    }
    let fields = fields(body);
    if !in_range(fields) {
        return Err(Refusal::Field);
    }
    Ok(fields)
}

// Whether each field is in its range.
fn in_range(control: Control) -> bool
    ensures { result ≡ control_format.ranges control }
{
    let identity = field_layout::text_octets(control.identity);
    field_codes::is_squawk(control.squawk) & field_texts::is_padded(&identity)
}

// Whether it also has no more bits than the body has for it.
#[tactic(auto, unfolding(field_format::specs::Format::fits))]
fn fits(control: Control) -> bool
    ensures { result ≡ fits control_format control }
{
    in_range(control) & (control.air_ground < 4)
}

// Bits 7 to 0 of the octet at 2.
#[tactic(auto, unfolding(field_format::specs::Format::body_of))]
fn state(control: Control) -> u8
    requires { Fitting control_format control }
    ensures { result ≡ get_or (body_of control_format control) 2 0 }
{
    let es_enabled = field_layout::bit(control.es_enabled);
    let mode_s = field_layout::bit(control.mode_s);
    let mode_c = field_layout::bit(control.mode_c);
    let mode_a = field_layout::bit(control.mode_a);
    let ident = field_layout::bit(control.ident);
    let baro_checked = field_layout::bit(control.baro_checked);
    let low = ident * 8 + (control.air_ground * 2 + baro_checked);
    es_enabled * 128 + (mode_s * 64 + (mode_c * 32 + (mode_a * 16 + low)))
}

#[tactic(auto, using(std::proofs::lemmas::Int::ints), unfolding(field_format::specs::Format::body_of))]
fn octets(control: Control) -> [u8; 18]
    requires { Fitting control_format control }
    ensures { result ≡ body_of control_format control }
{
    let state = state(control);
    let altitude = field_signed::bits_32(control.altitude).to_le_bytes();
    let squawk = control.squawk.to_le_bytes();
    let text = control.identity;
    [
        45,
        1,
        state,
        altitude[0],
        altitude[1],
        altitude[2],
        altitude[3],
        squawk[0],
        squawk[1],
        control.emergency,
        text.c0,
        text.c1,
        text.c2,
        text.c3,
        text.c4,
        text.c5,
        text.c6,
        text.c7,
    ]
}

pub fn write(control: Control, output: &mut [u8]) -> Written
    ensures { WritesBody (fits control_format control) (body_of control_format control) output.old result output.new }
{
    if !fits(control) {
        return Err(Refusal::Field);
    }
    let body = octets(control);
    ucp_answers::put(&body, output)
}
