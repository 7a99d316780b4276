// Message 7, Uplink: the payload stays in the caller's slice.
ghost use Rattle.ucp_messages.specs.Uplink7.{uplink_fits, uplink_body};
ghost use Rattle.ucp_messages.specs.Steps.{ReadsUplinkBody};
ghost use Rattle.ucp_answers.specs.Writes.{WritesBody};

use output_writing::Written;
use refusals::Refusal;

// Whether a body that has the kind's ID is accepted: all octets behind the first are carried.
pub(crate) fn read(body: &[u8]) -> Result<(), Refusal>
    ensures { ReadsUplinkBody body.now result }
{
    if body.len() != 436 {
        return Err(Refusal::MessageLength);
    }
    Ok(())
}

pub fn write(payload: &[u8], output: &mut [u8]) -> Written
    ensures { WritesBody (uplink_fits payload.now) (uplink_body payload.now) output.old result output.new }
{
    if payload.len() != 435 {
        return Err(Refusal::Field);
    }
    if output.len() < 436 {
        return Err(Refusal::OutputLength);
    }
    output[0] = 7;
    field_layout::store(payload, &mut output[1..]);
    Ok(436)
}
