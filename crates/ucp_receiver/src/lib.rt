// The receiver of the UCP line: by the octet, by the slice, with its byte account. The store is lent, so that a frame's octets
// rest in one place; the record besides it goes in and comes back by value.
#![tactic(auto)]

mod account;
mod closing;
pub mod octet;
pub mod slice;

use refusals::Refusal;

// The store: unstuffed octets of the open stretch, a body of 436 and its check at most.
pub const STORE_OCTETS: usize = 438;

pub type Store = [u8; STORE_OCTETS];

// Where the line stands.
#[derive(Clone, Copy, Debug, PartialEq, Eq)]
pub enum Phase {
    // No flag yet: nothing is stored.
    Hunting,
    // In a stretch without a fault so far.
    Reading,
    // The last octet was an escape.
    Escape,
    // A bad escape was met: what follows up to the flag is ignored.
    BadEscape,
    // A 439th octet was met: what follows up to the flag is ignored.
    TooLong,
}

// The record besides the store and the counts: where the line stands, and how many octets of the open stretch are stored.
#[derive(Clone, Copy, Debug, PartialEq, Eq)]
pub struct Rest {
    pub phase: Phase,
    pub stored: usize,
}

// The record besides the store. What counts there are is `account`'s alone: all others hand them on.
#[derive(Clone, Copy, Debug, PartialEq, Eq)]
pub struct Record {
    pub rest: Rest,
    pub counts: Counts,
}

// What a call gives back.
#[derive(Clone, Copy, Debug, PartialEq, Eq)]
pub struct Received {
    pub receiver: Record,
    pub answer: Answer,
}

// The receiver's answer to a call, where one is due: a body of so many octets stands at the start of the output, or why there is
// none. `receiver_answer` of specs/Answers.antt gives the paper's number and values of each case.
pub type Answer = Option<Result<usize, Refusal>>;

// The byte account, in line octets; each count runs round at 2^32 on purpose. `unclosed` is the paper's "open".
#[derive(Clone, Copy, Debug, PartialEq, Eq)]
pub struct Counts {
    pub flags: u32,
    pub delivered: u32,
    pub refused: u32,
    pub skipped: u32,
    pub unclosed: u32,
}

// What a call with a slice of the line gives back: `taken` octets were taken.
#[derive(Clone, Copy, Debug, PartialEq, Eq)]
pub struct Taken {
    pub receiver: Record,
    pub answer: Answer,
    pub taken: usize,
}
