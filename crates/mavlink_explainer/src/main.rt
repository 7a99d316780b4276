// The MAVLink explainer: reads standard input, frames back to back, to its end or to the first frame that is refused, and writes
// a line for each frame that says what it means. It closes with how many frames were explained and the octets that they used.
// `text_mavlink_explanation` has the text, `io_streams` the reading and the writing. What the frames of one block are is proved
// (`Explores`), that as many octets went out as their lines have, and of a turn that the octets behind its frames are carried over
// and read on behind (`WorksFrames`); a run is such turns, one after the other, and its closing line has their counts (`RunsFrames`).
//
// Lines wait in a buffer, and go out where the next one does not fit, and at the end of every block that a read brought.
//
// Where a read or a write fails the line lister's rules hold: what was explained has been written out, the failure is said on
// standard error, and no closing line follows.
#![tactic(auto)]

ghost use Rattle.std.specs.Prelude.{◌≡◌, ◌-◌, ◌≤◌, length, drop, if◌then◌else◌};
ghost use Rattle.std.proofs.Math.Seq.{paste};
ghost use Rattle.io_streams.specs.declared.Input.TheVariants.{More, Ended, Failed};
ghost use Rattle.io_streams.specs.Blocks.{Zeroed};
ghost use Rattle.text_output.specs.Clips.{text_room};
ghost use Rattle.text_mavlink_explanation.specs.Decided.{frame_room};
ghost use Rattle.mavlink_explainer.specs.Blocks.{input_of, octets_out, explains, Explores, WorksFrames, FramesClosed, RunsFrames};

use io_streams::{Input, StreamError, Streams, Turn};
use text_output::page::Page;

// How far the frames are explained: how many, the octets that they used, and how many octets behind them are left of the block.
// The input has ended where it is at its end or a frame was refused. So many octets of text went out for the block, modulo
// 2^64: so far a contract can say what is written.
#[derive(Clone, Copy)]
struct Progress {
    frames: u64,
    bytes: u64,
    left: usize,
    input: Input,
    written: usize,
}

// How many octets decide a frame: 50 do, and all that there are where the input has ended.
fn least_octets(last: bool) -> usize
    ensures { result ≡ (if last then 1 else frame_room) }
{
    if last {
        return 1;
    }
    mavlink_frame::LONGEST_FRAME
}

fn goes_on(last: bool) -> Input
    ensures { result ≡ (if last then Ended else More) }
{
    if last {
        return Input::Ended;
    }
    Input::More
}

// So many frames more, of so many octets, and what writing their lines came to.
fn progressed(
    frames: u64,
    bytes: u64,
    count: usize,
    used: usize,
    left: usize,
    input: Input,
    output: Result<usize, StreamError>,
) -> Progress
    ensures { result ≡ explains frames bytes count used left (input_of output input) (octets_out output) }
{
    let frames = frames.wrapping_add(count as u64);
    let bytes = bytes.wrapping_add(used as u64);
    match output {
        Ok(written) => Progress {
            frames,
            bytes,
            left,
            input,
            written,
        },
        Err(StreamError) => Progress {
            frames,
            bytes,
            left,
            input: Input::Failed,
            written: 0,
        },
    }
}

// The same where a write failed before the block's end.
fn stopped(frames: u64, bytes: u64, count: usize, used: usize, left: usize) -> Progress
    ensures { result ≡ explains frames bytes count used left Failed 0 }
{
    progressed(
        frames,
        bytes,
        count,
        used,
        left,
        Input::Failed,
        Err(StreamError),
    )
}

// Explains the frames of a block, and writes their lines out. A frame is decided where 50 octets are there, or the input has
// ended (`last`).
fn explain_block(
    streams: Streams,
    frames: u64,
    bytes: u64,
    last: bool,
    block: &[u8],
    page: &mut Page,
    buffer: &mut [u8],
) -> Progress
    requires { text_room ≤ length buffer.old }
    ensures { Explores last block.now frames bytes result }
{
    let mut count = 0;
    let mut left = block.len();
    let mut waiting = 0;
    let mut written: usize = 0;
    let least = least_octets(last);
    while least <= left {
        let used = block.len() - left;
        let explained = text_mavlink_explanation::explain_frame(&block[used..], page);
        let gathered = io_streams::gather(streams, buffer, waiting, &page.room, page.end);
        let Ok(next) = gathered else {
            return stopped(frames, bytes, count, used, left);
        };
        waiting = next.octets;
        written = written.wrapping_add(next.written);
        let Some(octets) = explained else {
            let output = io_streams::write_waiting(streams, buffer, waiting, written);
            return progressed(frames, bytes, count, used, left, Input::Ended, output);
        };
        count += 1;
        left -= octets;
    }
    let output = io_streams::write_waiting(streams, buffer, waiting, written);
    let used = block.len() - left;
    progressed(frames, bytes, count, used, left, goes_on(last), output)
}

// Moves the octets from a place of the block up to another to its start.
fn carry(block: &mut [u8], from: usize, end: usize)
    requires { (from ≤ end) × (end ≤ length block.old) }
    ensures { block.new ≡ paste block.old 0 (drop from block.old) (end - from) }
{
    block.copy_within(from..end, 0);
}

// The closing line, and whether it was written.
fn write_closing(streams: Streams, page: &mut Page, frames: u64, bytes: u64) -> bool
    ensures { FramesClosed frames bytes page.old page.new }
{
    text_mavlink_explanation::put_closing(page, frames, bytes);
    io_streams::write_first(streams, &page.room, page.end).is_ok()
}

// What a turn came to, and the turn that follows.
#[derive(Clone, Copy)]
struct TurnDone {
    progress: Progress,
    turn: Turn,
}

// A turn: explains the frames in its octets of the block, carries over those that do not decide a frame yet, and reads on
// behind them.
fn explain_turn(
    streams: Streams,
    frames: u64,
    bytes: u64,
    block: &mut [u8],
    page: &mut Page,
    buffer: &mut [u8],
    turn: Turn,
) -> TurnDone
    requires { (text_room ≤ length buffer.old) × (turn.octets ≤ length block.old) }
    ensures { WorksFrames frames bytes block.old turn result block.new }
{
    let end = turn.octets;
    let input = turn.input;
    let last = io_streams::has_ended(input);
    let progress = explain_block(streams, frames, bytes, last, &block[..end], page, buffer);
    let held = progress.left;
    carry(block, end - held, end);
    let input = progress.input;
    let next = io_streams::next_turn(streams, input, block, held, turn.left);
    TurnDone {
        progress,
        turn: next,
    }
}

// Explains all of the input, and answers whether it came to its end or to a refused frame, and all was written.
fn explain_input(streams: Streams, block: &mut [u8], page: &mut Page, buffer: &mut [u8]) -> bool
    requires { text_room ≤ length buffer.old }
    ensures { RunsFrames result page.new }
{
    let mut frames: u64 = 0;
    let mut bytes: u64 = 0;
    let mut turn = io_streams::first_turn(streams, block);
    while turn.left > 0 {
        let done = explain_turn(streams, frames, bytes, block, page, buffer, turn);
        let progress = done.progress;
        frames = progress.frames;
        bytes = progress.bytes;
        turn = done.turn;
    }
    let input = turn.input;
    if io_streams::has_ended(input) {
        return write_closing(streams, page, frames, bytes);
    }
    false
}

// Frames, and what they say, passed through all of these. What was carried over stood in the block.
fn clear_lent(block: &mut [u8], page: &mut Page, buffer: &mut [u8])
    ensures zeroed { Zeroed block.old block.new }
    ensures zeroed_2 { Zeroed page.old.room page.new.room × (page.new.end ≡ 0) }
    ensures zeroed_3 { Zeroed buffer.old buffer.new }
{
    io_streams::clear(block);
    io_streams::clear(&mut page.room);
    page.clear();
    io_streams::clear(buffer);
}

// The call of `explain_block` with no octets, which brings no line, is there for its place: a function with two callers is
// compiled as one of its own, and all that it leaves on the stack lies below main's part, where `clear_stack` clears.
fn main(rt: HostRuntime) {
    let streams = Streams {
        input: rt.stdin(),
        output: rt.stdout(),
        errors: rt.stderr(),
    };
    let mut block = [0u8; 65536];
    let mut page = Page::new();
    let mut buffer = [0u8; 65536];
    let whole = explain_input(streams, &mut block, &mut page, &mut buffer);
    clear_lent(&mut block, &mut page, &mut buffer);
    explain_block(streams, 0, 0, whole, &[], &mut page, &mut buffer);
    io_streams::clear_stack();
    if whole {
        io_streams::close_output(&rt, streams);
    }
}
