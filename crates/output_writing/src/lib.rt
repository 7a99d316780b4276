// What a writer answers: of frames, of bodies and of MAVLink frames.
#![tactic(auto)]

ghost use Rattle.output_writing.specs.Writing.{IsWrittenInNumbers};

use refusals::Refusal;

// A writer's answer: how many octets were written, or why the call was refused. `writer_answer` of specs/Writing.antt gives the
// paper's number and values of each case.
pub type Written = Result<usize, Refusal>;

// The same as two numbers, for C.
// Stays: a number for a refusal. It is the struct of the C header, and C has no `Result`.
#[repr(C)]
#[derive(Clone, Copy)]
pub struct OstrogoszWritten {
    // 0, or a refusal's number.
    pub refusal: u32,
    // How many octets were written; 0 on a refusal.
    pub length: usize,
}

impl From<Written> for OstrogoszWritten {
    ghost from_gives = { IsWrittenInNumbers };

    fn from(written: Written) -> OstrogoszWritten {
        match written {
            Ok(octets) => OstrogoszWritten {
                refusal: 0,
                length: octets,
            },
            Err(refusal) => OstrogoszWritten {
                refusal: refusal.number() as u32,
                length: 0,
            },
        }
    }
}
