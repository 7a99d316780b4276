// The text of a listing: a line for each answer of the receiver, and a last line with its counts.
#![tactic(auto)]

ghost use Rattle.std.specs.Prelude.{◌≡◌, [], ◌∷◌, ◌+◌, ◌<◌, ◌≤◌, length};
ghost use Rattle.output_writing.specs.Puts.{Puts};
ghost use Rattle.ucp_receiver.specs.Answers.{receiver_answer};
ghost use Rattle.text_output.specs.Text.{hex_digit};
ghost use Rattle.text_ucp_listing.specs.Listing.{body_room, longest_line, decimal, hex_octets, newline, ok_line, no_line, counted, bytes_received, closing_line};
ghost use Rattle.text_ucp_listing.specs.Lists.{Lists, PutsClosing};
ghost use Rattle.text_ucp_listing.specs.Steps.{BodyWithin, PutsLine, line_of_answer};

use ucp_frame::BodyRoom;
use ucp_receiver::{Answer, Counts, Record, Store};

// ---- numbers

// By arithmetic: an index into a constant table copies the table each time, and a test of d < 10 is guessed wrong often.
fn hex_digit(d: u8) -> u8
    requires { d < 16 }
    ensures { result ≡ hex_digit d }
{
    d + 48 + (d + 6) / 16 * 39
}

fn put_three(text: &mut [u8], at: usize, first: u8, second: u8, third: u8) -> usize
    requires { at + 3 ≤ length text.old }
    ensures { Puts text.old at (first ∷ second ∷ third ∷ []) result text.new }
{
    text[at] = first;
    text[at + 1] = second;
    text[at + 2] = third;
    at + 3
}

// Octets as they are.
fn put_word(text: &mut [u8], at: usize, word: &[u8]) -> usize
    requires { at + length word.now ≤ length text.old }
    ensures { Puts text.old at word.now result text.new }
{
    let end = at + word.len();
    text[at..end].copy_from_slice(word);
    end
}

// Each octet of a body in hexadecimal, with a space before it.
fn put_octets(text: &mut [u8], at: usize, body: &[u8]) -> usize
    requires { at + length (hex_octets body.now) ≤ length text.old }
    ensures { Puts text.old at (hex_octets body.now) result text.new }
{
    let mut at = at;
    for octet in body {
        at = put_three(text, at, b' ', hex_digit(octet / 16), hex_digit(octet % 16));
    }
    at
}

fn put_decimal(text: &mut [u8], at: usize, n: usize) -> usize
    requires { at + length (decimal n) ≤ length text.old }
    ensures { Puts text.old at (decimal n) result text.new }
{
    if n < 10 {
        text[at] = 48 + n as u8;
        return at + 1;
    }
    let last = put_decimal(text, at, n / 10);
    text[last] = 48 + (n % 10) as u8;
    last + 1
}

// ---- a line for an answer

fn put_newline(text: &mut [u8], at: usize) -> usize
    requires { at < length text.old }
    ensures { Puts text.old at newline result text.new }
{
    text[at] = b'\n';
    at + 1
}

fn put_ok(text: &mut [u8], at: usize, body: &[u8]) -> usize
    requires { at + length (ok_line body.now) ≤ length text.old }
    ensures { Puts text.old at (ok_line body.now) result text.new }
{
    let at = put_word(text, at, b"ok ");
    let at = put_decimal(text, at, body.len());
    let at = put_octets(text, at, body);
    put_newline(text, at)
}

fn put_no(text: &mut [u8], at: usize, number: u8) -> usize
    requires { at + length (no_line number) ≤ length text.old }
    ensures { Puts text.old at (no_line number) result text.new }
{
    let at = put_word(text, at, b"no ");
    let at = put_decimal(text, at, number as usize);
    put_newline(text, at)
}

// The line of an answer, where there is one. A body stands at the start of room.
fn put_answer(text: &mut [u8], at: usize, answer: Answer, room: &[u8]) -> usize
    requires { (at + longest_line ≤ length text.old) × (length room.now ≡ body_room) × BodyWithin answer body_room }
    ensures { PutsLine text.old at (line_of_answer (receiver_answer answer) room.now) result text.new }
{
    match answer {
        None => at,
        Some(Ok(n)) => put_ok(text, at, &room[..n]),
        Some(Err(why)) => put_no(text, at, why.number()),
    }
}

// What a call of list_some gives back: `taken` octets of the line were taken, and `written` octets of text are at its start.
#[derive(Clone, Copy, Debug, PartialEq, Eq)]
pub struct Listed {
    pub receiver: Record,
    pub taken: usize,
    pub written: usize,
}

// Takes line octets and puts a line at the start of text for each answer. It stops at the end of line, or where the longest
// line, 1317 octets, might not fit behind the last one: the caller then writes the text out and calls again.
pub fn list_some(
    receiver: Record,
    store: &mut Store,
    room: &mut BodyRoom,
    line: &[u8],
    text: &mut [u8],
) -> Listed
    ensures { Lists receiver store.old room.old line.now text.old result store.new room.new text.new }
{
    let mut receiver = receiver;
    let mut rest = line;
    let mut at = 0;
    while !rest.is_empty() && 1317 <= text.len() - at {
        let t = ucp_receiver::slice::receive_slice(receiver, store, rest, room);
        receiver = t.receiver;
        rest = &rest[t.taken..];
        at = put_answer(text, at, t.answer, room);
    }
    Listed {
        receiver,
        taken: line.len() - rest.len(),
        written: at,
    }
}

// ---- the closing line

fn put_count(text: &mut [u8], at: usize, word: &[u8], n: u32) -> usize
    requires { at + length (counted word.now n) ≤ length text.old }
    ensures { Puts text.old at (counted word.now n) result text.new }
{
    let at = put_word(text, at, word);
    put_decimal(text, at, n as usize)
}

// The octets received, modulo 2^32.
fn received(counts: Counts) -> u32
    ensures { result ≡ bytes_received counts }
{
    counts
        .flags
        .wrapping_add(counts.delivered)
        .wrapping_add(counts.refused)
        .wrapping_add(counts.skipped)
        .wrapping_add(counts.unclosed)
}

fn put_counts(text: &mut [u8], at: usize, counts: Counts) -> usize
    requires { at + length (closing_line counts) ≤ length text.old }
    ensures { Puts text.old at (closing_line counts) result text.new }
{
    let at = put_count(text, at, b"bytes ", received(counts));
    let at = put_count(text, at, b" flags ", counts.flags);
    let at = put_count(text, at, b" delivered ", counts.delivered);
    let at = put_count(text, at, b" refused ", counts.refused);
    let at = put_count(text, at, b" skipped ", counts.skipped);
    let at = put_count(text, at, b" open ", counts.unclosed);
    put_newline(text, at)
}

// Puts the closing line at a place of text, and gives the place behind it. Where the longest closing line, 109 octets, does
// not fit there nothing is written, and the same place comes back.
pub fn put_closing(text: &mut [u8], at: usize, counts: Counts) -> usize
    ensures { PutsClosing text.old at counts result text.new }
{
    if text.len() < 109 || text.len() - 109 < at {
        return at;
    }
    put_counts(text, at, counts)
}
