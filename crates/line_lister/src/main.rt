// The line lister: reads standard input to its end, and writes a line for each answer of the receiver and a last line with
// the counts. `text_ucp_listing` has the text; here are only the reading and the writing. What a block leaves of the receiver's record
// is proved (`Leaves`), that as many octets went out as its lines have (`WritesLines`), and that each turn goes on from the record and
// the store that the one before left (`WorksTurn`). So a run works on one line from a fresh record, in whatever blocks it came: the
// closing line is its account, and as many octets went out as its lines have (`RunsLine`). That this line is the input, that the octets
// that went out are the text's, and that a failed read is no end is tested.
//
// Where a read fails, what was listed so far has been written out already, the failure is said on standard error, and no
// closing line follows: one stands only behind an input that was read to its end. Where a write fails the failure is said and
// nothing more is written. Where the output is a pipe that is closed behind the program, nothing more is written and nothing said.
#![tactic(auto)]

ghost use Rattle.std.specs.Prelude.{◌≤◌, length};
ghost use Rattle.text_ucp_listing.specs.Listing.{longest_line};
ghost use Rattle.ucp_receiver.specs.Account.{zero_counts};
ghost use Rattle.ucp_receiver.specs.Octet.{state_of, fresh_rest};
ghost use Rattle.text_ucp_listing.specs.Lists.{behind_all, every_line};
ghost use Rattle.io_ucp.specs.Records.{Leaves, WritesLines, WorksTurn, RunsLine};

use io_streams::{Streams, Turn};
use io_ucp::{BlockDone, Run, TurnDone};
use ucp_frame::BodyRoom;
use ucp_receiver::{Record, Store};

// Lists the octets of a block, and writes the text out each time that it is full, and at the block's end.
fn list_block(
    streams: Streams,
    receiver: Record,
    store: &mut Store,
    room: &mut BodyRoom,
    block: &[u8],
    text: &mut [u8],
) -> BlockDone
    requires { longest_line ≤ length text.old }
    ensures leaves { Leaves result.progress.input (state_of result.progress.receiver.rest store.new) result.progress.receiver.counts (behind_all (state_of receiver.rest store.old) receiver.counts block.now) block.now }
    ensures writes_lines { WritesLines result.progress.input result.written (every_line (state_of receiver.rest store.old) receiver.counts block.now) }
{
    let mut receiver = receiver;
    let mut rest = block;
    let mut written: usize = 0;
    while !rest.is_empty() {
        let listed = text_ucp_listing::list_some(receiver, store, room, rest, text);
        receiver = listed.receiver;
        rest = &rest[listed.taken..];
        match io_streams::write_lines(streams, text, listed.written) {
            Ok(n) => written = written.wrapping_add(n),
            Err(error) => return io_ucp::block_done(receiver, Err(error)),
        }
    }
    io_ucp::block_done(receiver, Ok(written))
}

// A turn: lists its octets of the block, and reads on.
fn list_turn(
    streams: Streams,
    receiver: Record,
    store: &mut Store,
    room: &mut BodyRoom,
    block: &mut [u8],
    text: &mut [u8],
    turn: Turn,
) -> TurnDone
    requires { (longest_line ≤ length text.old) × (turn.octets ≤ length block.old) }
    ensures { WorksTurn every_line receiver store.old block.old turn result store.new }
{
    let done = list_block(streams, receiver, store, room, &block[..turn.octets], text);
    io_ucp::follow(streams, done, block, turn.left)
}

// Lists all of the input, turn by turn from a fresh record.
fn list_input(
    streams: Streams,
    store: &mut Store,
    room: &mut BodyRoom,
    block: &mut [u8],
    text: &mut [u8],
) -> Run
    requires { longest_line ≤ length text.old }
    ensures { RunsLine every_line (state_of fresh_rest store.old) zero_counts result text.new }
{
    let mut receiver = ucp_receiver::octet::fresh_record();
    let mut turn = io_streams::first_turn(streams, block);
    let mut octets: usize = 0;
    let mut written: usize = 0;
    while turn.left > 0 {
        octets = octets.wrapping_add(turn.octets);
        let done = list_turn(streams, receiver, store, room, block, text, turn);
        receiver = done.receiver;
        turn = done.turn;
        written = written.wrapping_add(done.written);
    }
    Run {
        whole: io_ucp::write_ending(streams, turn.input, text, receiver.counts),
        octets,
        written,
    }
}

fn main(rt: HostRuntime) {
    let streams = Streams {
        input: rt.stdin(),
        output: rt.stdout(),
        errors: rt.stderr(),
    };
    let mut store = [0u8; ucp_receiver::STORE_OCTETS];
    let mut room = [0u8; ucp_frame::LONGEST_BODY];
    let mut block = [0u8; 65536];
    let mut text = [0u8; 65536];
    let run = list_input(streams, &mut store, &mut room, &mut block, &mut text);
    io_ucp::clear_lent(&mut store, &mut room, &mut block, &mut text);
    io_streams::clear_stack();
    if run.whole {
        io_streams::close_output(&rt, streams);
    }
}
