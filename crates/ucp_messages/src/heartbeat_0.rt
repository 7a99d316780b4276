// Message 0, Heartbeat.
ghost use Rattle.std.specs.Prelude.{◌≡◌, length};
ghost use Rattle.field_format.specs.Format.{value_in, body_of, fits};
ghost use Rattle.ucp_messages.specs.Steps.{ReadsValue};
ghost use Rattle.ucp_messages.specs.Heartbeat0.{heartbeat_format};
ghost use Rattle.ucp_answers.specs.Writes.{WritesBody};

use super::Heartbeat;
use output_writing::Written;
use refusals::Refusal;

fn fields(body: &[u8]) -> Heartbeat
    requires { length body.now ≡ 7 }
    ensures { result ≡ value_in heartbeat_format body.now }
{
    Heartbeat {
        status_1: field_layout::octet(body, 1),
        status_2: field_layout::octet(body, 2),
        time_stamp: field_layout::little_16(body, 3),
        counts: field_layout::big_16(body, 5),
    }
}

// What a body that has the kind's ID means.
pub fn read(body: &[u8]) -> Result<Heartbeat, Refusal>
    ensures { ReadsValue heartbeat_format body.now result }
{
    if body.len() != 7 {
        return Err(Refusal::MessageLength);
    }
    Ok(fields(body))
}

#[tactic(auto, unfolding(field_format::specs::Format::body_of))]
fn octets(heartbeat: Heartbeat) -> [u8; 7]
    ensures { result ≡ body_of heartbeat_format heartbeat }
{
    let time_stamp = heartbeat.time_stamp.to_le_bytes();
    let counts = heartbeat.counts.to_be_bytes();
    [
        0,
        heartbeat.status_1,
        heartbeat.status_2,
        time_stamp[0],
        time_stamp[1],
        counts[0],
        counts[1],
    ]
}

#[tactic(auto, unfolding(field_format::specs::Format::fits))]
pub fn write(heartbeat: Heartbeat, output: &mut [u8]) -> Written
    ensures { WritesBody (fits heartbeat_format heartbeat) (body_of heartbeat_format heartbeat) output.old result output.new }
{
    let body = octets(heartbeat);
    ucp_answers::put(&body, output)
}
