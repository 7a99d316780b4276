// The line explainer: reads standard input to its end, and writes a line for each answer of the receiver that says what it
// means, and a last line with the counts. `text_ucp_explanation` has the text, `io_streams` the reading and the writing. What is
// proved of a block, a turn and a run, and what is tested, is as in the line lister.
//
// Lines wait in a buffer, and go out where the next one does not fit, and at the end of every block that a read brought: so
// whoever waits for a line sees it as soon as its octets are read.
//
// Where a read or a write fails the line lister's rules hold: what was explained has been written out, the failure is said on
// standard error, and no closing line follows.
#![tactic(auto)]

ghost use Rattle.std.specs.Prelude.{◌≡◌, ◌≤◌, length};
ghost use Rattle.text_output.specs.Clips.{text_room};
ghost use Rattle.ucp_receiver.specs.Account.{zero_counts};
ghost use Rattle.ucp_receiver.specs.Octet.{state_of, fresh_rest};
ghost use Rattle.text_ucp_listing.specs.Lists.{behind_all};
ghost use Rattle.text_ucp_explanation.specs.Explanation.{every_explanation};
ghost use Rattle.io_ucp.specs.Records.{Leaves, WritesLines, WorksTurn, RunsLine};
ghost use Rattle.io_streams.specs.Blocks.{Zeroed};

use io_streams::{Streams, Turn};
use io_ucp::{BlockDone, Run, TurnDone};
use text_output::page::Page;
use ucp_frame::BodyRoom;
use ucp_receiver::{Record, Store};

// Explains the octets of a block, and writes the lines out.
fn explain_block(
    streams: Streams,
    receiver: Record,
    store: &mut Store,
    room: &mut BodyRoom,
    block: &[u8],
    page: &mut Page,
    buffer: &mut [u8],
) -> BlockDone
    requires { text_room ≤ length buffer.old }
    ensures leaves { Leaves result.progress.input (state_of result.progress.receiver.rest store.new) result.progress.receiver.counts (behind_all (state_of receiver.rest store.old) receiver.counts block.now) block.now }
    ensures writes_lines { WritesLines result.progress.input result.written (every_explanation (state_of receiver.rest store.old) receiver.counts block.now) }
{
    let mut receiver = receiver;
    let mut rest = block;
    let mut waiting = 0;
    let mut written: usize = 0;
    while !rest.is_empty() {
        let taken = text_ucp_explanation::explain_next(receiver, store, room, rest, page);
        receiver = taken.receiver;
        rest = &rest[taken.taken..];
        match io_streams::gather(streams, buffer, waiting, &page.room, page.end) {
            Ok(gathered) => {
                waiting = gathered.octets;
                written = written.wrapping_add(gathered.written);
            }
            Err(error) => return io_ucp::block_done(receiver, Err(error)),
        }
    }
    let output = io_streams::write_waiting(streams, buffer, waiting, written);
    io_ucp::block_done(receiver, output)
}

// A turn: explains its octets of the block, and reads on.
fn explain_turn(
    streams: Streams,
    receiver: Record,
    store: &mut Store,
    room: &mut BodyRoom,
    block: &mut [u8],
    page: &mut Page,
    buffer: &mut [u8],
    turn: Turn,
) -> TurnDone
    requires { (text_room ≤ length buffer.old) × (turn.octets ≤ length block.old) }
    ensures { WorksTurn every_explanation receiver store.old block.old turn result store.new }
{
    let octets = &block[..turn.octets];
    let done = explain_block(streams, receiver, store, room, octets, page, buffer);
    io_ucp::follow(streams, done, block, turn.left)
}

// Explains all of the input, turn by turn from a fresh record.
fn explain_input(
    streams: Streams,
    store: &mut Store,
    room: &mut BodyRoom,
    block: &mut [u8],
    page: &mut Page,
    buffer: &mut [u8],
) -> Run
    requires { text_room ≤ length buffer.old }
    ensures { RunsLine every_explanation (state_of fresh_rest store.old) zero_counts result page.new.room }
{
    let mut receiver = ucp_receiver::octet::fresh_record();
    let mut turn = io_streams::first_turn(streams, block);
    let mut octets: usize = 0;
    let mut written: usize = 0;
    while turn.left > 0 {
        octets = octets.wrapping_add(turn.octets);
        let done = explain_turn(streams, receiver, store, room, block, page, buffer, turn);
        receiver = done.receiver;
        turn = done.turn;
        written = written.wrapping_add(done.written);
    }
    Run {
        whole: io_ucp::write_ending(streams, turn.input, &mut page.room, receiver.counts),
        octets,
        written,
    }
}

// Frames, and what they say, passed through all of these.
fn clear_lent(
    store: &mut Store,
    room: &mut BodyRoom,
    block: &mut [u8],
    page: &mut Page,
    buffer: &mut [u8],
)
    ensures zeroed { Zeroed store.old store.new }
    ensures zeroed_2 { Zeroed room.old room.new }
    ensures zeroed_3 { Zeroed block.old block.new }
    ensures zeroed_4 { Zeroed page.old.room page.new.room × (page.new.end ≡ 0) }
    ensures zeroed_5 { Zeroed buffer.old buffer.new }
{
    io_ucp::clear_lent(store, room, block, &mut page.room);
    page.clear();
    io_streams::clear(buffer);
}

// The call of `explain_block` with the cleared block, which brings no line, is there for its place: a function with two callers
// is compiled as one of its own, and all that it leaves on the stack lies below main's part, where `clear_stack` clears.
fn main(rt: HostRuntime) {
    let streams = Streams {
        input: rt.stdin(),
        output: rt.stdout(),
        errors: rt.stderr(),
    };
    let mut store = [0u8; ucp_receiver::STORE_OCTETS];
    let mut room = [0u8; ucp_frame::LONGEST_BODY];
    let mut block = [0u8; 65536];
    let mut page = Page::new();
    let mut buffer = [0u8; 65536];
    let run = explain_input(
        streams,
        &mut store,
        &mut room,
        &mut block,
        &mut page,
        &mut buffer,
    );
    clear_lent(&mut store, &mut room, &mut block, &mut page, &mut buffer);
    let none = ucp_receiver::octet::fresh_record();
    explain_block(
        streams,
        none,
        &mut store,
        &mut room,
        &block,
        &mut page,
        &mut buffer,
    );
    io_streams::clear_stack();
    if run.whole {
        io_streams::close_output(&rt, streams);
    }
}
