// A refusal by its number and in words.
#![tactic(auto, unfolding(crate::specs::Refusals::reason))]

ghost use Rattle.std.specs.Prelude.{◌≡◌};
ghost use Rattle.refusals.specs.Refusals.{refusal_number};
ghost use Rattle.text_output.specs.Pages.{Appends};
ghost use Rattle.text_refusals.specs.Refusals.{reason, refusal};

use refusals::Refusal;
use text_output::page::Page;

// The words of the row of `rows` (specs/Refusals) that a refusal has. A writer's refusals are never read from a line, and have no row.
fn words_of(refusal: Refusal) -> &'static [u8]
    ensures { result.now ≡ reason (refusal_number refusal) }
{
    match refusal {
        Refusal::BadEscape => b" bad escape",
        Refusal::EscapeBeforeFlag => b" escape before the flag",
        Refusal::TooLong => b" too long",
        Refusal::TooShort => b" too short",
        Refusal::WrongCheck => b" check wrong",
        Refusal::Room => b" no room for the body",
        Refusal::UnknownId => b" unknown message",
        Refusal::MessageLength => b" wrong length",
        Refusal::Fixed => b" wrong version, signature or subtype",
        Refusal::Field => b" field outside its range",
        Refusal::MavlinkShort => b" too few bytes",
        Refusal::MavlinkStart => b" first byte not fe",
        Refusal::MavlinkUnknownId => b" unknown message",
        Refusal::MavlinkLength => b" wrong length",
        Refusal::MavlinkWrongCheck => b" check wrong",
        Refusal::MavlinkField => b" field outside its range",
        Refusal::BodyLength | Refusal::OutputLength => b" refused",
    }
}

fn put_reason(page: &mut Page, number: u8)
    ensures { Appends page.old (reason number) page.new }
{
    match Refusal::try_from(number) {
        Ok(refusal) => page.put_word(words_of(refusal)),
        Err(_) => page.put_word(b" refused"),
    }
}

// Stays: a number, since `refusal` of specs/Refusals.antt has words for any, and this says so of each.
pub fn put_refusal(page: &mut Page, number: u8)
    ensures { Appends page.old (refusal number) page.new }
{
    page.put_word(b"no ");
    page.put_natural(number as u64);
    put_reason(page, number);
}
