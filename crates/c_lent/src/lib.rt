// What the calls of one kind answer and leave in what they are lent: definitions, and what more than one kind's calls do.
#![tactic(auto)]

ghost use Rattle.std.specs.Prelude.{◌≡◌, Ok};
ghost use Rattle.std.specs.Result.{result_and};
ghost use Rattle.output_writing.specs.Writing.{writer_answer, written_numbers};
ghost use Rattle.c_lent.specs.Sends.{FramesWritten, FramesIfWritten};
ghost use Rattle.c_lent.specs.Steps.{first_refusal, number_in, numbered_answer};

use output_writing::{OstrogoszWritten, Written};
use refusals::Refusal;
use ucp_frame::FrameBuffer;

// A refusal's number as C has it.
pub const OUTPUT_LENGTH: u32 = Refusal::OutputLength as u32;

// A reader's first two tests: 10, then 11.
pub fn first_refusal(body: &[u8], id: u8, size: usize) -> Result<(), Refusal>
    ensures { number_in result ≡ first_refusal id size body.now }
{
    let n = body.len();
    if n == 0 {
        return Err(Refusal::UnknownId);
    }
    if body[0] != id {
        return Err(Refusal::UnknownId);
    }
    if n != size {
        return Err(Refusal::MessageLength);
    }
    Ok(())
}

// What a reader answers in C: 0, or the refusal's number.
pub fn read_number(read: Result<(), Refusal>) -> u32
    ensures { result ≡ number_in read }
{
    match read {
        Ok(()) => 0,
        Err(refusal) => refusal.number() as u32,
    }
}

// What a writer answers in C, from a refusal's number, or 0 and so many octets.
pub fn numbered(refusal: u32, length: usize) -> OstrogoszWritten
    ensures { result ≡ numbered_answer refusal length }
{
    if refusal == 0 {
        return OstrogoszWritten { refusal: 0, length };
    }
    OstrogoszWritten { refusal, length: 0 }
}

// The same from its refusal or so many octets. A writer hands on whether it wrote, and not how much: that goes in registers, where a
// `Written` would go by way of memory.
pub fn written_numbers(written: Result<(), Refusal>, octets: usize) -> OstrogoszWritten
    ensures { result ≡ written_numbers (writer_answer (result_and written (Ok octets))) }
{
    numbered(read_number(written), octets)
}

// The second half of a send: what a kind's writer gave, and the buffer that it wrote so many octets to. A refusal is handed on, and
// nothing is framed.
pub fn frame_if_written(
    written: Result<(), Refusal>,
    octets: usize,
    buffer: &mut FrameBuffer,
) -> Written
    ensures { FramesIfWritten written octets buffer.old result buffer.new }
{
    written?;
    ucp_writer::frame_in_place(buffer, octets)
}

// The same of what a writer gave in numbers: a refusal has no length, so that nothing is framed and the refusal is handed on.
pub fn frame_written(written: OstrogoszWritten, buffer: &mut FrameBuffer) -> OstrogoszWritten
    ensures { FramesWritten written buffer.old result buffer.new }
{
    OstrogoszWritten {
        refusal: written.refusal,
        length: ucp_writer::frame_in_place(buffer, written.length).unwrap_or(0),
    }
}
