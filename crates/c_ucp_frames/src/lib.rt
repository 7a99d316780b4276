// The frame check and the frame writer for C and Rust; include/ostrogosz.h says the same in C.
#![tactic(auto)]

ghost use Rattle.std.specs.Prelude.{◌≡◌};
ghost use Rattle.crc_gdl90.specs.Check.{frame_check};
ghost use Rattle.c_ucp_frames.specs.Frames.{WritesFrameNumbers};

use output_writing::OstrogoszWritten;

// The frame check sequence of a body of any length.
pub fn ostrogosz_ucp_frame_check(body: &[u8]) -> u16
    ensures { result ≡ frame_check body.now }
{
    crc_gdl90::frame_check(body)
}

// Writes the frame of body at the start of output. Refusals: 7, then 8. On a refusal nothing is written.
pub fn ostrogosz_ucp_write_frame(body: &[u8], output: &mut [u8]) -> OstrogoszWritten
    ensures { WritesFrameNumbers body.now output.old result output.new }
{
    OstrogoszWritten::from(ucp_writer::write_frame(body, output))
}
