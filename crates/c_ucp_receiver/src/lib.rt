// The receiver for C and Rust: the store, the line and the output are the caller's. `line` is the rest of the record as seven
// numbers, in the order of `record_numbers` of specs/Numbers.antt.
#![tactic(auto)]

ghost use Rattle.std.specs.Prelude.{◌≡◌, ℕ, ◌^◌, ◌<◌, List, ◌≢◌, slice_index};
ghost use Rattle.c_ucp_receiver.specs.Numbers.{phase_of, phase_number, rest_in, counts_in, record_in, record_numbers, answer_kind, answer_value, ReceivesFitting, TakesFitting, ReceivesNumbers, TakesNumbers, StartsNumbers};

use ucp_receiver::{Answer, Counts, Phase, Received, Record, Rest, Store, Taken};

// The record besides the store, as C has it: phase, octets stored, and the five counts.
pub type RecordNumbers = [u32; 7];

// The store's size, as wide as the numbers of the record.
const STORE_OCTETS: u32 = ucp_receiver::STORE_OCTETS as u32;

// kind: 0 nothing, 1 delivered, 2 refused. value: how many octets were delivered, or the refusal's number.
// Stays: numbers, as `OstrogoszTaken` below. They are structs of the C header, and C has no enum with values.
#[repr(C)]
#[derive(Clone, Copy, Debug, PartialEq, Eq)]
pub struct OstrogoszAnswer {
    pub kind: u32,
    pub value: u32,
}

// The same, and how many octets of the slice were taken.
#[repr(C)]
#[derive(Clone, Copy, Debug, PartialEq, Eq)]
pub struct OstrogoszTaken {
    pub kind: u32,
    pub value: u32,
    pub taken: usize,
}

// ---- the line

fn phase_of(number: u32) -> Phase
    ensures { result ≡ phase_of number }
{
    match number {
        0 => Phase::Hunting,
        1 => Phase::Reading,
        2 => Phase::Escape,
        3 => Phase::BadEscape,
        _ => Phase::TooLong,
    }
}

fn phase_number(phase: Phase) -> u32
    ensures { result ≡ phase_number phase }
{
    phase as u32
}

fn rest_in(line: &RecordNumbers) -> Rest
    ensures { (result ≡ rest_in line.now) × (result.stored < 2 ^ 32) }
{
    Rest {
        phase: phase_of(line[0]),
        stored: line[1] as usize,
    }
}

fn counts_in(line: &RecordNumbers) -> Counts
    ensures { result ≡ counts_in line.now }
{
    Counts {
        flags: line[2],
        delivered: line[3],
        refused: line[4],
        skipped: line[5],
        unclosed: line[6],
    }
}

fn record_in(line: &RecordNumbers) -> Record
    ensures { (result ≡ record_in line.now) × (result.rest.stored < 2 ^ 32) }
{
    Record {
        rest: rest_in(line),
        counts: counts_in(line),
    }
}

fn put_line(line: &mut RecordNumbers, receiver: Record)
    requires { receiver.rest.stored < 2 ^ 32 }
    ensures { line.new ≡ record_numbers receiver }
{
    let Record { rest, counts } = receiver;
    *line = [
        phase_number(rest.phase),
        rest.stored as u32,
        counts.flags,
        counts.delivered,
        counts.refused,
        counts.skipped,
        counts.unclosed,
    ];
}

// Only what an octet other than the flag can change: the others are not even loaded.
fn put_open_line(line: &mut RecordNumbers, receiver: Record)
    requires { (receiver.rest.stored < 2 ^ 32) × (receiver.counts.flags ≡ slice_index line.old 2) × (receiver.counts.delivered ≡ slice_index line.old 3) × (receiver.counts.refused ≡ slice_index line.old 4) }
    ensures { line.new ≡ record_numbers receiver }
{
    let Record { rest, counts } = receiver;
    line[0] = phase_number(rest.phase);
    line[1] = rest.stored as u32;
    line[5] = counts.skipped;
    line[6] = counts.unclosed;
}

// ---- the answer

fn in_numbers(answer: Answer) -> OstrogoszAnswer
    requires { answer_value answer < 2 ^ 32 }
    ensures kind { result.kind ≡ answer_kind answer }
    ensures value { result.value ≡ answer_value answer }
{
    match answer {
        None => OstrogoszAnswer { kind: 0, value: 0 },
        Some(Ok(octets)) => OstrogoszAnswer {
            kind: 1,
            value: octets as u32,
        },
        Some(Err(why)) => OstrogoszAnswer {
            kind: 2,
            value: why.number() as u32,
        },
    }
}

// ---- the calls

// A fresh receiver.
pub fn ostrogosz_ucp_start(store: &mut Store, line: &mut RecordNumbers)
    ensures { StartsNumbers store.new line.new }
{
    *store = [0; ucp_receiver::STORE_OCTETS];
    put_line(line, ucp_receiver::octet::fresh_record());
}

// The call on the record that the line stands for.
fn received_by(store: &mut Store, line: &RecordNumbers, octet: u8, output: &mut [u8]) -> Received
    ensures { ReceivesFitting store.old line.now octet output.old result store.new output.new }
{
    ucp_receiver::octet::receive(record_in(line), store, octet, output)
}

// Not inlined, so that the call with any other octet doesn't carry it.
#[inline(never)]
fn receive_flag(store: &mut Store, line: &mut RecordNumbers, output: &mut [u8]) -> OstrogoszAnswer
    ensures { ReceivesNumbers store.old line.old 0x7E output.old result.kind result.value store.new line.new output.new }
{
    let received = received_by(store, line, 0x7E, output);
    put_line(line, received.receiver);
    in_numbers(received.answer)
}

// An octet that a stretch without a fault only stores: the commonest, so it touches as little as there is to change.
fn receive_plain(store: &mut Store, line: &mut RecordNumbers, octet: u8) -> OstrogoszAnswer
    requires { (slice_index line.old 0 ≡ 1) × (slice_index line.old 1 < 438) × (octet ≢ 0x7E) × (octet ≢ 0x7D) }
    ensures { (output : List ℕ) → ReceivesNumbers store.old line.old octet output result.kind result.value store.new line.new output }
{
    let stored = line[1];
    let unclosed = line[6].wrapping_add(1);
    store[stored as usize] = octet;
    line[1] = stored + 1;
    line[6] = unclosed;
    OstrogoszAnswer { kind: 0, value: 0 }
}

// An octet behind a fault, which is only counted.
fn receive_ignored(line: &mut RecordNumbers, octet: u8) -> OstrogoszAnswer
    requires { (2 < slice_index line.old 0) × (slice_index line.old 0 < 5) × (octet ≢ 0x7E) }
    ensures { (store output : List ℕ) → ReceivesNumbers store line.old octet output result.kind result.value store line.new output }
{
    line[6] = line[6].wrapping_add(1);
    OstrogoszAnswer { kind: 0, value: 0 }
}

// Any other octet but the flag.
fn receive_other(
    store: &mut Store,
    line: &mut RecordNumbers,
    octet: u8,
    output: &mut [u8],
) -> OstrogoszAnswer
    requires { octet ≢ 0x7E }
    ensures { ReceivesNumbers store.old line.old octet output.old result.kind result.value store.new line.new output.new }
{
    let received = received_by(store, line, octet, output);
    put_open_line(line, received.receiver);
    in_numbers(received.answer)
}

// One octet of the line. The flag is apart, so that a call with any other octet touches little.
pub fn ostrogosz_ucp_receive(
    store: &mut Store,
    line: &mut RecordNumbers,
    octet: u8,
    output: &mut [u8],
) -> OstrogoszAnswer
    ensures { ReceivesNumbers store.old line.old octet output.old result.kind result.value store.new line.new output.new }
{
    if octet == 0x7E {
        return receive_flag(store, line, output);
    }
    let phase = line[0];
    if phase == 1 && line[1] < STORE_OCTETS && octet != 0x7D {
        return receive_plain(store, line, octet);
    }
    if 2 < phase && phase < 5 {
        return receive_ignored(line, octet);
    }
    receive_other(store, line, octet, output)
}

// The call with a slice on the record that the line stands for.
fn taken_by(store: &mut Store, line: &RecordNumbers, octets: &[u8], output: &mut [u8]) -> Taken
    ensures { TakesFitting store.old line.now octets.now output.old result store.new output.new }
{
    ucp_receiver::slice::receive_slice(record_in(line), store, octets, output)
}

// Octets of the line up to and including the one that brings the next answer.
pub fn ostrogosz_ucp_receive_slice(
    store: &mut Store,
    line: &mut RecordNumbers,
    octets: &[u8],
    output: &mut [u8],
) -> OstrogoszTaken
    ensures { TakesNumbers store.old line.old octets.now output.old result.kind result.value result.taken store.new line.new output.new }
{
    let taken = taken_by(store, line, octets, output);
    put_line(line, taken.receiver);
    let answer = in_numbers(taken.answer);
    OstrogoszTaken {
        kind: answer.kind,
        value: answer.value,
        taken: taken.taken,
    }
}
