// The frame's format on the line: definitions in specs/, their laws in proofs/. Of code it holds the sizes alone.

// Octets of the longest body, and of the longest frame: two flags around the longest body and its check, each octet escaped.
#![tactic(auto)]

pub const LONGEST_BODY: usize = 436;

pub const LONGEST_FRAME: usize = 878;

// A room for any body, and a buffer for any frame.
pub type BodyRoom = [u8; LONGEST_BODY];

pub type FrameBuffer = [u8; LONGEST_FRAME];
