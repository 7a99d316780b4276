// Message 203, the status of a transponder.
ghost use Rattle.std.specs.Prelude.{◌≡◌, length};
ghost use Rattle.field_format.specs.Format.{body_of, value_in};
ghost use Rattle.mavlink_messages.specs.Status203.{status_format};

use super::Status;

pub fn read(payload: &[u8]) -> Status
    requires { length payload.now ≡ 1 }
    ensures { result ≡ value_in status_format payload.now }
{
    Status {
        status: field_layout::octet(payload, 0),
    }
}

#[tactic(auto, unfolding(field_format::specs::Format::body_of))]
pub fn octets(status: Status) -> [u8; 1]
    ensures { result ≡ body_of status_format status }
{
    [status.status]
}
