// The calls of `c_ucp_frames` as symbols for C and Rust. scripts/exports writes these files.
#![tactic(auto)]

ghost use Rattle.std.specs.Prelude.{◌≡◌};
ghost use Rattle.crc_gdl90.specs.Check.{frame_check};
ghost use Rattle.c_ucp_frames.specs.Frames.{WritesFrameNumbers};

use output_writing::OstrogoszWritten;

// The frame check sequence of a body of any length.
#[unsafe(no_mangle)]
pub extern "C" fn ostrogosz_ucp_frame_check(body: &[u8]) -> u16
    ensures { result ≡ frame_check body.now }
{
    c_ucp_frames::ostrogosz_ucp_frame_check(body)
}

// Writes the frame of body at the start of output. Refusals: 7, then 8. On a refusal nothing is written.
#[unsafe(no_mangle)]
pub extern "C" fn ostrogosz_ucp_write_frame(body: &[u8], output: &mut [u8]) -> OstrogoszWritten
    ensures { WritesFrameNumbers body.now output.old result output.new }
{
    c_ucp_frames::ostrogosz_ucp_write_frame(body, output)
}
