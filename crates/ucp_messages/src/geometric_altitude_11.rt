// Message 11, Ownship geometric altitude.
ghost use Rattle.std.specs.Prelude.{◌≡◌, length};
ghost use Rattle.field_format.specs.Format.{value_in, body_of, fits};
ghost use Rattle.ucp_messages.specs.Steps.{ReadsValue};
ghost use Rattle.ucp_messages.specs.GeometricAltitude11.{geometric_format};
ghost use Rattle.ucp_answers.specs.Writes.{WritesBody};

use super::GeometricAltitude;
use output_writing::Written;
use refusals::Refusal;

fn fields(body: &[u8]) -> GeometricAltitude
    requires { length body.now ≡ 5 }
    ensures { result ≡ value_in geometric_format body.now }
{
    GeometricAltitude {
        altitude: field_signed::signed_16(field_layout::big_16(body, 1)),
        metrics: field_layout::big_16(body, 3),
    }
}

// What a body that has the kind's ID means.
pub fn read(body: &[u8]) -> Result<GeometricAltitude, Refusal>
    ensures { ReadsValue geometric_format body.now result }
{
    if body.len() != 5 {
        return Err(Refusal::MessageLength);
    }
    Ok(fields(body))
}

#[tactic(auto, using(std::proofs::lemmas::Int::ints), unfolding(field_format::specs::Format::body_of))]
fn octets(geometric: GeometricAltitude) -> [u8; 5]
    ensures { result ≡ body_of geometric_format geometric }
{
    let altitude = field_signed::bits_16(geometric.altitude).to_be_bytes();
    let metrics = geometric.metrics.to_be_bytes();
    [11, altitude[0], altitude[1], metrics[0], metrics[1]]
}

#[tactic(auto, unfolding(field_format::specs::Format::fits))]
pub fn write(geometric: GeometricAltitude, output: &mut [u8]) -> Written
    ensures { WritesBody (fits geometric_format geometric) (body_of geometric_format geometric) output.old result output.new }
{
    let body = octets(geometric);
    ucp_answers::put(&body, output)
}
