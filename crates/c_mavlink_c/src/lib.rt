// The calls of `c_mavlink` as symbols for C and Rust. scripts/exports writes these files.
#![tactic(auto)]

mod data_stream;
mod dynamic;
mod static_data;
mod status;
mod traffic;

ghost use Rattle.std.specs.Prelude.{◌≡◌};
ghost use Rattle.mavlink_messages.specs.Failures.{failures_in};
ghost use Rattle.c_mavlink.specs.Ids.{mavlink_id_due};
ghost use Rattle.c_mavlink.specs.Failures.{failure_numbers};

use c_mavlink::{OstrogoszMavlinkFailures, OstrogoszMavlinkId};

// The message ID of the frame at the start of input, and how many octets the frame has. Neither its check nor its fields are
// looked at.
#[unsafe(no_mangle)]
pub extern "C" fn ostrogosz_mavlink_read_id(input: &[u8]) -> OstrogoszMavlinkId
    ensures { result ≡ mavlink_id_due input.now }
{
    c_mavlink::ostrogosz_mavlink_read_id(input)
}

// The failure bits of a status.
#[unsafe(no_mangle)]
pub extern "C" fn ostrogosz_mavlink_count_failures(status: u8) -> OstrogoszMavlinkFailures
    ensures { result ≡ failure_numbers (failures_in status) }
{
    c_mavlink::ostrogosz_mavlink_count_failures(status)
}
