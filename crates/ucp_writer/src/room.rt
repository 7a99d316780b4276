// Whether a body may become a frame in an output: tested before anything is written.
ghost use Rattle.std.specs.Prelude.{◌≡◌, ◌≤◌, length};
ghost use Rattle.ucp_frame.specs.Frame.{frame, longest_body};
ghost use Rattle.ucp_writer.specs.Refusals.{AdmitsLength, Admits};

use refusals::Refusal;

// Whether a body may have so many octets. Refusal: 7, 0 or more than 436.
pub fn admit_length(n: usize) -> Result<(), Refusal>
    ensures { AdmitsLength n result }
{
    if n == 0 {
        return Err(Refusal::BodyLength);
    }
    if ucp_frame::LONGEST_BODY < n {
        return Err(Refusal::BodyLength);
    }
    Ok(())
}

// Whether the body may become a frame in the output. Refusals: 7, a body of 0 or more than 436 octets; 8, an output shorter than the
// frame.
pub fn admit(body: &[u8], output: &[u8]) -> Result<(), Refusal>
    ensures { Admits body.now output.now result }
{
    let n = body.len();
    admit_length(n)?;
    // The most that a frame of n octets takes. Only where that is too much is this very frame measured.
    let most = 2 * n + 6;
    if output.len() < most {
        let exact = frame_length(body);
        if output.len() < exact {
            return Err(Refusal::OutputLength);
        }
    }
    Ok(())
}

// How many octets the frame of body has.
fn frame_length(body: &[u8]) -> usize
    requires { length body.now ≤ longest_body }
    ensures { result ≡ length (frame body.now) }
{
    let check = crc_gdl90::frame_check(body);
    let around = 2
        + ucp_stuffing::escaped_length((check % 256) as u8)
        + ucp_stuffing::escaped_length((check / 256) as u8);
    around + ucp_stuffing::stuffed_length(body)
}
