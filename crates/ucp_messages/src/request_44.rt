// Message 44, Message Request.
ghost use Rattle.std.specs.Prelude.{◌≡◌, length};
ghost use Rattle.field_format.specs.Format.{value_in, body_of, fits};
ghost use Rattle.ucp_messages.specs.Steps.{ReadsValue};
ghost use Rattle.ucp_messages.specs.Request44.{request_format};
ghost use Rattle.ucp_answers.specs.Writes.{WritesBody};

use super::Request;
use output_writing::Written;
use refusals::Refusal;

fn fields(body: &[u8]) -> Request
    requires { length body.now ≡ 3 }
    ensures { result ≡ value_in request_format body.now }
{
    Request {
        requested_id: field_layout::octet(body, 2),
    }
}

// What a body that has the kind's ID means.
pub fn read(body: &[u8]) -> Result<Request, Refusal>
    ensures { ReadsValue request_format body.now result }
{
    if body.len() != 3 {
        return Err(Refusal::MessageLength);
    }
    if field_layout::octet(body, 1) != 2 {
        return Err(Refusal::Fixed);
    }
    Ok(fields(body))
}

#[tactic(auto, unfolding(field_format::specs::Format::body_of))]
fn octets(request: Request) -> [u8; 3]
    ensures { result ≡ body_of request_format request }
{
    [44, 2, request.requested_id]
}

#[tactic(auto, unfolding(field_format::specs::Format::fits))]
pub fn write(request: Request, output: &mut [u8]) -> Written
    ensures { WritesBody (fits request_format request) (body_of request_format request) output.old result output.new }
{
    let body = octets(request);
    ucp_answers::put(&body, output)
}
