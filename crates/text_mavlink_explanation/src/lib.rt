// MAVLink frames explained: for the frame at the start of an input a line of text, with its message's fields by name and in
// users' units.
#![tactic(auto)]

ghost use Rattle.mavlink_messages.specs.Failures.{failure_answer};
ghost use Rattle.mavlink_messages.specs.Messages.{means, refused as refused_read};
ghost use Rattle.refusals.specs.Refusals.{refusal_number};
ghost use Rattle.text_output.specs.Pages.{Appends};
ghost use Rattle.text_mavlink_explanation.specs.Explanation.{frame_line, frames_line};
ghost use Rattle.text_mavlink_explanation.specs.Calls.{WholeLine, ExplainsFrame};

use mavlink_messages::Framed;
use refusals::Refusal;
use text_output::page::Page;

fn put_frame(page: &mut Page, framed: Framed)
    ensures { Appends page.old (frame_line (means framed.header framed.used framed.message (failure_answer framed.failures))) page.new }
{
    page.put_word(b"ok ");
    page.put_natural(framed.used as u64);
    text_mavlink_messages::put_message(page, framed);
    page.put_octet(b'\n');
}

fn put_refused(page: &mut Page, refusal: Refusal)
    ensures { Appends page.old (frame_line (refused_read (refusal_number refusal))) page.new }
{
    text_refusals::put_refusal(page, refusal.number());
    page.put_octet(b'\n');
}

// Explains the frame at the start of input, and puts its line at the start of the page: how many octets the frame has, or None where
// it is refused. Octets behind the frame are left.
pub fn explain_frame(input: &[u8], page: &mut Page) -> Option<usize>
    ensures { ExplainsFrame input.now page.old result page.new }
{
    page.clear();
    match mavlink_messages::read_message(input) {
        Ok(framed) => {
            put_frame(page, framed);
            Some(framed.used)
        }
        Err(refusal) => {
            put_refused(page, refusal);
            None
        }
    }
}

// The last line.
pub fn put_closing(page: &mut Page, frames: u64, bytes: u64)
    ensures { WholeLine page.old (frames_line frames bytes) page.new }
{
    page.clear();
    page.put_word(b"frames ");
    page.put_natural(frames);
    page.put_word(b" bytes ");
    page.put_natural(bytes);
    page.put_octet(b'\n');
}
