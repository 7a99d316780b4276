// A line explained: for each answer of the receiver a line of text, with a message's fields by name and in users' units.
#![tactic(auto)]

ghost use Rattle.std.specs.Prelude.{◌≡◌, length};
ghost use Rattle.ucp_receiver.specs.Answers.{verdict_of};
ghost use Rattle.text_ucp_listing.specs.Listing.{body_room};
ghost use Rattle.text_ucp_listing.specs.Steps.{BodyWithin};
ghost use Rattle.ucp_frame.specs.Stretch.{refused};
ghost use Rattle.ucp_messages.specs.Messages.{message_due, means, refused as unread};
ghost use Rattle.refusals.specs.Refusals.{refusal_number};
ghost use Rattle.text_output.specs.Pages.{Appends};
ghost use Rattle.text_ucp_explanation.specs.Explanation.{read_line, explanation};
ghost use Rattle.text_ucp_explanation.specs.Calls.{ExplainsAnswer};

use refusals::Refusal;
use text_output::Printing;
use text_output::page::Page;
use ucp_frame::BodyRoom;
use ucp_messages::Message;
use ucp_receiver::{Answer, Record, Store, Taken};

fn put_refused(page: &mut Page, why: Refusal)
    ensures { Appends page.old (explanation (refused (refusal_number why))) page.new }
{
    text_refusals::put_refusal(page, why.number());
    page.put_octet(b'\n');
}

fn put_unread(page: &mut Page, why: Refusal, body: &[u8])
    ensures { Appends page.old (read_line (unread (refusal_number why)) body.now) page.new }
{
    text_refusals::put_refusal(page, why.number());
    page.put_word(b" body ");
    page.put_natural(body.len() as u64);
    page.put_printed(Printing::Hex, body);
    page.put_octet(b'\n');
}

fn put_read(page: &mut Page, message: Message, body: &[u8])
    ensures { Appends page.old (read_line (means message) body.now) page.new }
{
    page.put_word(b"ok ");
    page.put_natural(body.len() as u64);
    text_ucp_messages::put_message(page, message, body);
    page.put_octet(b'\n');
}

fn put_body(page: &mut Page, body: &[u8])
    ensures { Appends page.old (read_line (message_due body.now) body.now) page.new }
{
    match ucp_messages::read_message(body) {
        Ok(message) => put_read(page, message, body),
        Err(why) => put_unread(page, why, body),
    }
}

// The line of an answer, where there is one. A body stands at the start of room.
fn put_answer(page: &mut Page, answer: Answer, room: &[u8])
    requires { (length room.now ≡ body_room) × BodyWithin answer body_room }
    ensures { Appends page.old (explanation (verdict_of answer room.now)) page.new }
{
    match answer {
        None => page.put_nothing(),
        Some(Ok(n)) => put_body(page, &room[..n]),
        Some(Err(why)) => put_refused(page, why),
    }
}

// Takes line octets up to the next answer, or all of them, and puts the line of the answer at the start of the page: what the receiver
// gave.
pub fn explain_next(
    receiver: Record,
    store: &mut Store,
    room: &mut BodyRoom,
    line: &[u8],
    page: &mut Page,
) -> Taken
    ensures { ExplainsAnswer receiver store.old room.old line.now page.old result store.new room.new page.new }
{
    let taken = ucp_receiver::slice::receive_slice(receiver, store, line, room);
    page.clear();
    put_answer(page, taken.answer, room);
    taken
}
