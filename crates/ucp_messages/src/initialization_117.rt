// Message 117, Initialization.
ghost use Rattle.std.specs.Prelude.{◌≡◌, length};
ghost use Rattle.field_format.specs.Format.{value_in, body_of, fits, Fitting};
ghost use Rattle.ucp_messages.specs.Steps.{ReadsValue};
ghost use Rattle.ucp_messages.specs.Initialization117.{initialization_format};
ghost use Rattle.ucp_answers.specs.Writes.{WritesBody};

use super::Initialization;
use output_writing::Written;
use refusals::Refusal;

fn fields(body: &[u8]) -> Initialization
    requires { length body.now ≡ 19 }
    ensures { result ≡ value_in initialization_format body.now }
{
    let offsets = field_layout::octet(body, 18);
    Initialization {
        version: field_layout::octet(body, 3),
        address: field_layout::little_24(body, 4),
        emitter: field_layout::octet(body, 7),
        callsign: field_layout::text_at(body, 8),
        stall_speed: field_layout::octet(body, 16),
        size: field_layout::octet(body, 17),
        lateral: offsets / 32,
        longitudinal: offsets % 32,
    }
}

// What a body that has the kind's ID means.
pub fn read(body: &[u8]) -> Result<Initialization, Refusal>
    ensures { ReadsValue initialization_format body.now result }
{
    if body.len() != 19 {
        return Err(Refusal::MessageLength);
    }
    if field_layout::octet(body, 1) != 65 {
        return Err(Refusal::Fixed);
    }
    if field_layout::octet(body, 2) != 1 {
        return Err(Refusal::Fixed);
    }
    let fields = fields(body);
    if !in_range(fields) {
        return Err(Refusal::Field);
    }
    Ok(fields)
}

// Whether each field is in its range.
fn in_range(initialization: Initialization) -> bool
    ensures { result ≡ initialization_format.ranges initialization }
{
    let callsign = field_layout::text_octets(initialization.callsign);
    field_codes::is_emitter(initialization.emitter)
        & field_texts::is_spaced(&callsign)
        & field_codes::is_size_code(initialization.size)
}

// Whether it also has no more bits than the body has for it.
#[tactic(auto, unfolding(field_format::specs::Format::fits))]
fn fits(initialization: Initialization) -> bool
    ensures { result ≡ fits initialization_format initialization }
{
    in_range(initialization)
        & (initialization.address < 16777216)
        & (initialization.lateral < 8)
        & (initialization.longitudinal < 32)
}

#[tactic(auto, unfolding(field_format::specs::Format::body_of))]
fn octets(initialization: Initialization) -> [u8; 19]
    requires { Fitting initialization_format initialization }
    ensures { result ≡ body_of initialization_format initialization }
{
    let address = initialization.address.to_le_bytes();
    let text = initialization.callsign;
    [
        117,
        65,
        1,
        initialization.version,
        address[0],
        address[1],
        address[2],
        initialization.emitter,
        text.c0,
        text.c1,
        text.c2,
        text.c3,
        text.c4,
        text.c5,
        text.c6,
        text.c7,
        initialization.stall_speed,
        initialization.size,
        initialization.lateral * 32 + initialization.longitudinal,
    ]
}

pub fn write(initialization: Initialization, output: &mut [u8]) -> Written
    ensures { WritesBody (fits initialization_format initialization) (body_of initialization_format initialization) output.old result output.new }
{
    if !fits(initialization) {
        return Err(Refusal::Field);
    }
    let body = octets(initialization);
    ucp_answers::put(&body, output)
}
