// The receiver by the octet. The store is lent, so that a frame's octets rest in one place; the record besides it goes in and
// comes back by value.
ghost use Rattle.std.specs.Prelude.{◌≡◌, length};
ghost use Rattle.ucp_receiver.specs.Closing.{Closes};
ghost use Rattle.ucp_receiver.specs.Octet.{Receives, storing, advanced_in, closed_in, counted_by, fresh_record, state_of};
ghost use Rattle.ucp_receiver.specs.Steps.{Advances};

use super::{Answer, Counts, Phase, Received, Record, Rest, Store};
use refusals::Refusal;

// ---- an octet other than the flag

// An unstuffed octet is stored behind the others; the 439th is a fault.
#[tactic(auto, unfolding(crate::specs::Octet::storing))]
fn put(rest: Rest, store: &mut Store, octet: u8) -> Rest
    ensures { state_of result store.new ≡ storing octet (state_of rest store.old) }
{
    let at = rest.stored;
    if at < super::STORE_OCTETS {
        store[at] = octet;
        Rest {
            phase: Phase::Reading,
            stored: at + 1,
        }
    } else {
        Rest {
            phase: Phase::TooLong,
            ..rest
        }
    }
}

// The octet behind an escape.
fn unescape(rest: Rest, store: &mut Store, octet: u8) -> Rest
    ensures { state_of result store.new ≡ advanced_in Phase.Escape octet (state_of rest store.old) }
{
    match octet {
        0x5E => put(rest, store, 0x7E),
        0x5D => put(rest, store, 0x7D),
        _ => Rest {
            phase: Phase::BadEscape,
            ..rest
        },
    }
}

// Any octet other than the flag.
fn advance(rest: Rest, store: &mut Store, octet: u8) -> Rest
    ensures { state_of result store.new ≡ advanced_in rest.phase octet (state_of rest store.old) }
{
    match rest.phase {
        Phase::Reading => {
            if octet == 0x7D {
                Rest {
                    phase: Phase::Escape,
                    ..rest
                }
            } else {
                put(rest, store, octet)
            }
        }
        Phase::Escape => unescape(rest, store, octet),
        Phase::Hunting | Phase::BadEscape | Phase::TooLong => rest,
    }
}

// ---- the flag

// The answer, in every phase, with the body put out where one is due.
fn close(rest: Rest, store: &Store, output: &mut [u8]) -> Answer
    ensures { Closes result store.now output.old output.new (closed_in rest.phase (state_of rest store.now) (length output.old)) }
{
    match rest.phase {
        Phase::Hunting => None,
        Phase::Reading => super::closing::close_stretch(store, rest.stored, output),
        Phase::Escape => Some(Err(Refusal::EscapeBeforeFlag)),
        Phase::BadEscape => Some(Err(Refusal::BadEscape)),
        Phase::TooLong => Some(Err(Refusal::TooLong)),
    }
}

// ---- the byte account

// n octets other than the flag, by the phase that they meet. An arm for each, so that compiled the phase is told apart once, here and in
// `advance`.
pub(crate) fn count_octets(counts: Counts, phase: Phase, n: usize) -> Counts
    ensures { result ≡ counted_by phase n counts }
{
    match phase {
        Phase::Hunting => super::account::count_skipped(counts, n),
        Phase::Reading => super::account::count_open(counts, n),
        Phase::Escape => super::account::count_open(counts, n),
        Phase::BadEscape => super::account::count_open(counts, n),
        Phase::TooLong => super::account::count_open(counts, n),
    }
}

// ---- one octet

// The flag: the answer is due, the store is cleared, and the next stretch begins. Inlined, since the record would go to a call and
// back by way of memory, and what comes behind would wait for it.
#[inline(always)]
fn receive_flag(receiver: Record, store: &mut Store, output: &mut [u8]) -> Received
    ensures { Receives receiver store.old 0x7E output.old result store.new output.new }
{
    let answer = close(receiver.rest, store, output);
    *store = [0; super::STORE_OCTETS];
    Received {
        receiver: Record {
            rest: Rest {
                phase: Phase::Reading, // whatever the last one was
                stored: 0,
            },
            counts: super::account::count_flag(receiver.counts, answer),
        },
        answer,
    }
}

// Any other octet brings no answer.
fn receive_other(receiver: Record, store: &mut Store, octet: u8) -> Received
    ensures { Advances receiver store.old octet result store.new }
{
    let Record { rest, counts } = receiver;
    Received {
        receiver: Record {
            rest: advance(rest, store, octet),
            counts: count_octets(counts, rest.phase, 1),
        },
        answer: None,
    }
}

// One octet of the line, from any value of the record. Inlined, since a call to it costs by the octet and by the slice alike.
#[inline(always)]
pub fn receive(receiver: Record, store: &mut Store, octet: u8, output: &mut [u8]) -> Received
    ensures { Receives receiver store.old octet output.old result store.new output.new }
{
    if octet == 0x7E {
        receive_flag(receiver, store, output)
    } else {
        receive_other(receiver, store, octet)
    }
}

// ---- the record at the start: this, and the store [0; 438]

pub fn fresh_record() -> Record
    ensures { result ≡ fresh_record }
{
    Record {
        rest: Rest {
            phase: Phase::Hunting,
            stored: 0,
        },
        counts: super::account::zero_counts(),
    }
}
