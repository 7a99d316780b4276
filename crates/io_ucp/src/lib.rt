// What the programs that read the UCP line share, over the standard streams: the receiver's record from block to block, the
// closing line, and clearing what was lent.
#![tactic(auto)]

ghost use Rattle.std.specs.Prelude.{◌≡◌, length};
ghost use Rattle.io_streams.specs.Blocks.{Zeroed};
ghost use Rattle.io_ucp.specs.Records.{Closed, Ends, block_done, Follows};

use io_streams::{Input, StreamError, Streams, Turn};
use ucp_frame::BodyRoom;
use ucp_receiver::{Counts, Record, Store};

// The receiver's record besides its store, from block to block.
#[derive(Clone, Copy, Debug, PartialEq, Eq)]
pub struct Progress {
    pub receiver: Record,
    pub input: Input,
}

// What a block came to, and how many octets of text went out for it, modulo 2^64: so far a contract can say what is written.
#[derive(Clone, Copy, Debug, PartialEq, Eq)]
pub struct BlockDone {
    pub progress: Progress,
    pub written: usize,
}

// A block is done where all of its text went out.
pub fn block_done(receiver: Record, output: Result<usize, StreamError>) -> BlockDone
    ensures { result ≡ block_done receiver output }
{
    let (input, written) = match output {
        Ok(n) => (Input::More, n),
        Err(_) => (Input::Failed, 0),
    };
    BlockDone {
        progress: Progress { receiver, input },
        written,
    }
}

// What a turn came to: the receiver's record behind its block, the turn that follows, and how many octets of text went out,
// modulo 2^64.
#[derive(Clone, Copy)]
pub struct TurnDone {
    pub receiver: Record,
    pub turn: Turn,
    pub written: usize,
}

// The turn that follows a block, by what the block came to. Nothing of it is held.
pub fn follow(streams: Streams, done: BlockDone, block: &mut [u8], left: u64) -> TurnDone
    ensures { Follows done left (length block.old) result }
{
    let Progress { receiver, input } = done.progress;
    TurnDone {
        receiver,
        turn: io_streams::next_turn(streams, input, block, 0, left),
        written: done.written,
    }
}

// What a run came to: whether the input was read to its end and all was written; how many of its octets were worked on, and how
// many of text went out before the closing line, both modulo 2^64.
#[derive(Clone, Copy, Debug, PartialEq, Eq)]
pub struct Run {
    pub whole: bool,
    pub octets: usize,
    pub written: usize,
}

// The closing line, where text has room for it, and whether what was put there was written.
pub fn write_closing(streams: Streams, text: &mut [u8], counts: Counts) -> bool
    ensures { Closed counts text.old result text.new }
{
    let n = text_ucp_listing::put_closing(text, 0, counts);
    io_streams::write_out(streams, &text[..n]).is_ok()
}

// The closing line stands only behind an input that was read to its end: whether it was, and the line was written.
pub fn write_ending(streams: Streams, input: Input, text: &mut [u8], counts: Counts) -> bool
    ensures { Ends input counts text.old result text.new }
{
    match input {
        Input::Ended => write_closing(streams, text, counts),
        Input::More | Input::Failed => false,
    }
}

// Frames passed through all of these.
pub fn clear_lent(store: &mut Store, room: &mut BodyRoom, block: &mut [u8], text: &mut [u8])
    ensures zeroed { Zeroed store.old store.new }
    ensures zeroed_2 { Zeroed room.old room.new }
    ensures zeroed_3 { Zeroed block.old block.new }
    ensures zeroed_4 { Zeroed text.old text.new }
{
    io_streams::clear(store);
    io_streams::clear(room);
    io_streams::clear(block);
    io_streams::clear(text);
}
