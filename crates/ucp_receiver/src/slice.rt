// The receiver by the slice: what `receive` does octet by octet, up to and including the octet that brings the next answer.
ghost use Rattle.std.specs.Prelude.{◌≡◌, ℕ, ◌+◌, ◌<◌, ◌≤◌, List, length};
ghost use Rattle.ucp_frame.specs.Stretch.{store_octets};
ghost use Rattle.ucp_receiver.specs.Slice.{Takes};
ghost use Rattle.ucp_receiver.specs.Steps.{StoresPlain, NoFlag, Ignores, Passes, Turns};

use super::{Phase, Record, Rest, Store, Taken};

// How many octets at the start of a line were passed without a full step.
#[derive(Clone, Copy)]
struct Passed {
    receiver: Record,
    taken: usize,
}

// The octets that are stored as they are, eight at a time, up to eight of which one may be a flag or an escape: how many.
fn put_words(store: &mut Store, stored: usize, line: &[u8]) -> usize
    requires { stored + length line.now ≤ store_octets }
    ensures { StoresPlain store.old stored line.now result store.new }
{
    for i in 0..line.len() / 8 {
        let word = field_words::little_64(line, i * 8);
        if !ucp_stuffing::is_plain(word) {
            return i * 8;
        }
        field_words::put_64(store, stored + i * 8, word);
    }
    line.len() / 8 * 8
}

// The same, up to the next flag or escape, or as far as the store has room.
fn put_plain(store: &mut Store, stored: usize, line: &[u8]) -> usize
    requires { stored ≤ store_octets }
    ensures { StoresPlain store.old stored line.now result store.new }
{
    let part = &line[..line.len().min(super::STORE_OCTETS - stored)];
    let words = put_words(store, stored, part);
    for i in words..part.len() {
        let octet = part[i];
        if ucp_stuffing::is_escaped(octet) {
            return i;
        }
        store[stored + i] = octet;
    }
    part.len()
}

// How many octets there are before the next flag, or the end.
fn to_flag(line: &[u8]) -> usize
    ensures { NoFlag line.now result }
{
    line.iter().take_while(|octet| **octet != 0x7E).count()
}

// The octets that a phase only counts.
fn pass_ignored(receiver: Record, line: &[u8]) -> Passed
    requires { Ignores receiver.rest.phase }
    ensures { (store : List ℕ) → Passes receiver store line.now result store }
{
    let n = to_flag(line);
    Passed {
        receiver: Record {
            counts: super::octet::count_octets(receiver.counts, receiver.rest.phase, n),
            ..receiver
        },
        taken: n,
    }
}

// The octets that a stretch without a fault only stores, as they are.
fn pass_plain(receiver: Record, store: &mut Store, line: &[u8]) -> Passed
    requires { receiver.rest.phase ≡ Phase.Reading }
    ensures { Passes receiver store.old line.now result store.new }
{
    let Record { rest, counts } = receiver;
    if super::STORE_OCTETS < rest.stored {
        return Passed { receiver, taken: 0 };
    }
    let n = put_plain(store, rest.stored, line);
    Passed {
        receiver: Record {
            rest: Rest {
                stored: rest.stored + n,
                ..rest
            },
            counts: super::account::count_open(counts, n),
        },
        taken: n,
    }
}

// Octets that need no full step, as many as the line begins with.
fn pass(receiver: Record, store: &mut Store, line: &[u8]) -> Passed
    ensures { Passes receiver store.old line.now result store.new }
{
    match receiver.rest.phase {
        Phase::Hunting => pass_ignored(receiver, line),
        Phase::Reading => pass_plain(receiver, store, line),
        Phase::Escape => Passed { receiver, taken: 0 },
        Phase::BadEscape => pass_ignored(receiver, line),
        Phase::TooLong => pass_ignored(receiver, line),
    }
}

// One turn: what needs no full step, and then one octet more.
fn turn(receiver: Record, store: &mut Store, line: &[u8], output: &mut [u8]) -> Taken
    requires { 0 < length line.now }
    ensures { Turns receiver store.old line.now output.old result store.new output.new }
{
    let passed = pass(receiver, store, line);
    let receiver = passed.receiver;
    let at = passed.taken;
    if at < line.len() {
        let received = super::octet::receive(receiver, store, line[at], output);
        Taken {
            receiver: received.receiver,
            answer: received.answer,
            taken: at + 1,
        }
    } else {
        Taken {
            receiver,
            answer: None,
            taken: at,
        }
    }
}

// Octets of the line up to and including the one that brings the next answer.
pub fn receive_slice(receiver: Record, store: &mut Store, line: &[u8], output: &mut [u8]) -> Taken
    ensures { Takes receiver store.old line.now output.old result store.new output.new }
{
    let mut receiver = receiver;
    let mut rest = line;
    while !rest.is_empty() {
        let turned = turn(receiver, store, rest, output);
        receiver = turned.receiver;
        rest = &rest[turned.taken..];
        if turned.answer.is_some() {
            return Taken {
                taken: line.len() - rest.len(),
                ..turned
            };
        }
    }
    Taken {
        receiver,
        answer: None,
        taken: line.len(),
    }
}
