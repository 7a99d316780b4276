// What the programs share: standard input by the block, standard output, and clearing what was lent. A contract speaks of what
// is lent and answered, and the files of the system are neither; the library's says of a read or a write only how many octets
// it moved. So no contract can say which octets were read, that any reached the output, or that it was kept: a function that
// writes or keeps nothing would meet all that can be said. Each function is safe, ends, and fixes what it can; tests/streams
// shows the rest on the built programs.
#![tactic(auto)]

ghost use Rattle.std.specs.Prelude.{◌≡◌, ◌<◌, ◌≤◌, min, length, take};
ghost use Rattle.io_streams.specs.Blocks.{Zeroed, WithinBlock, WrittenIfEmpty, WritesSome, WritesFirst};
ghost use Rattle.io_streams.specs.Gathering.{Gathers, WritesWaiting};
ghost use Rattle.io_streams.specs.Turns.{Behind, KeepsHeld, over, has_ended, AtEnd, ReadsBlock, BlockTurns};

use std::fs::{Files, OpenFile, OpenOptions};
use std::io::{Cursor, Error, ErrorKind, Print, Read, Stderr, Stdin, Stdout, Write};
use std::{fs, str};

// The standard streams, by the handles that `main` has of them.
#[derive(Clone, Copy)]
pub struct Streams {
    pub input: Stdin,
    pub output: Stdout,
    pub errors: Stderr,
}

// A read or a write failed. It is said on standard error by then, but where the output is a pipe that is closed behind the program.
#[derive(Clone, Copy, Debug, PartialEq, Eq)]
pub struct StreamError;

// The words for an error. `Display` puts the system's number behind them, which is left out.
fn words_of(text: &str) -> &str {
    match text.split_once(" (os error ") {
        Some((words, _)) => words,
        None => text,
    }
}

// Says on standard error what failed, and the system's words for why. Where nothing can be said there, nothing is said.
fn fail(streams: Streams, what: &str, error: Error) -> StreamError {
    let mut room = [0u8; 320];
    let mut text = Cursor::new(&mut room[..]);
    let _ = write!(text, "{error}");
    let n = (text.position() as usize).min(320);
    let said = match str::from_utf8(&room[..n]) {
        Ok(said) => words_of(said),
        Err(_) => "",
    };
    let _ = streams.errors.println(format_args!("{what}: {said}"));
    StreamError
}

// Whether there is more of the input.
#[derive(Clone, Copy, Debug, PartialEq, Eq)]
pub enum Input {
    More,
    Ended,
    Failed,
}

// Reads into a block: how many octets stand at its start, or None where the input has ended.
pub fn read_block(streams: Streams, block: &mut [u8]) -> Result<Option<usize>, StreamError>
    ensures { WithinBlock result (length block.new) }
{
    let mut input = streams.input;
    match input.read(block) {
        Ok(0) => Ok(None),
        Ok(octets) => Ok(Some(octets)),
        Err(error) => Err(fail(streams, "read", error)),
    }
}

// ---- turns

// How the reading stands: so many octets at the start of the block are there to be worked on, the input goes on or has ended
// behind them, and so many turns are left: none where there is nothing more to do. A proved loop has to end, and nothing says
// that an input does: the turns are counted down from a number that no run uses up.
#[derive(Clone, Copy)]
pub struct Turn {
    pub octets: usize,
    pub input: Input,
    pub left: u64,
}

fn last_turn(input: Input) -> Turn
    ensures { result ≡ over input }
{
    Turn {
        octets: 0,
        input,
        left: 0,
    }
}

// The input has ended behind the octets that are held: they are worked on, where there are any.
fn end_turn(held: usize, left: u64) -> Turn
    requires { 0 < left }
    ensures { AtEnd held left result }
{
    if held == 0 {
        return last_turn(Input::Ended);
    }
    Turn {
        octets: held,
        input: Input::Ended,
        left: left - 1,
    }
}

fn read_behind(
    streams: Streams,
    block: &mut [u8],
    held: usize,
) -> Result<Option<usize>, StreamError>
    requires { held ≤ length block.old }
    ensures behind { Behind result held (length block.old) }
    ensures keeps_held { KeepsHeld held block.old block.new }
{
    read_block(streams, &mut block[held..])
}

fn read_turn(streams: Streams, block: &mut [u8], held: usize, left: u64) -> Turn
    ensures reads_block { ReadsBlock result.input left (length block.old) held result }
    ensures keeps_held { KeepsHeld held block.old block.new }
{
    if left == 0 {
        return last_turn(Input::Failed);
    }
    if block.len() < held {
        return last_turn(Input::Failed);
    }
    match read_behind(streams, block, held) {
        Ok(None) => end_turn(held, left),
        Ok(Some(octets)) => Turn {
            octets: held + octets,
            input: Input::More,
            left: left - 1,
        },
        Err(_) => last_turn(Input::Failed),
    }
}

// Of the block's octets nothing is said: none is held, and what a read brings is open.
pub fn first_turn(streams: Streams, block: &mut [u8]) -> Turn
    ensures { ReadsBlock result.input 18446744073709551615 (length block.old) 0 result }
{
    read_turn(streams, block, 0, u64::MAX)
}

// The turn that follows one whose work came to this: the octets held at the start of the block stay, and what is read stands
// behind them. Nothing is read where the work is at its end or has failed.
pub fn next_turn(streams: Streams, input: Input, block: &mut [u8], held: usize, left: u64) -> Turn
    ensures block_turns { BlockTurns input left (length block.old) held result }
    ensures keeps_held { KeepsHeld held block.old block.new }
{
    match input {
        Input::More => read_turn(streams, block, held, left),
        Input::Ended => last_turn(Input::Ended),
        Input::Failed => last_turn(Input::Failed),
    }
}

pub fn has_ended(input: Input) -> bool
    ensures { result ≡ has_ended input }
{
    input == Input::Ended
}

// ---- writing

// Writes some of text, and answers how many octets went out. That it failed is said on standard error, but of a pipe that was
// closed behind the program: who reads no more wants to hear no more.
fn write_some(streams: Streams, text: &[u8]) -> Result<usize, StreamError>
    ensures { WritesSome (length text.now) result }
{
    let mut output = streams.output;
    match output.write(text) {
        Ok(0) => Err(fail(streams, "write", Error::from(ErrorKind::WriteZero))),
        Ok(octets) => Ok(octets),
        Err(error) => {
            if error.kind() == ErrorKind::BrokenPipe {
                return Err(StreamError);
            }
            Err(fail(streams, "write", error))
        }
    }
}

// Writes all of text. The octets of a frame stay in the memory that main lends.
pub fn write_out(streams: Streams, text: &[u8]) -> Result<(), StreamError>
    ensures { WrittenIfEmpty (length text.now) result }
{
    let mut rest = text;
    while !rest.is_empty() {
        let octets = write_some(streams, rest)?;
        rest = &rest[octets..];
    }
    Ok(())
}

// Writes the first octets of text, or all of it where there are no more.
pub fn write_first(streams: Streams, text: &[u8], n: usize) -> Result<(), StreamError>
    ensures { WrittenIfEmpty (min n (length text.now)) result }
{
    write_out(streams, &text[..n.min(text.len())])
}

// The same, and says how many octets went out.
pub fn write_lines(streams: Streams, text: &[u8], octets: usize) -> Result<usize, StreamError>
    ensures { WritesFirst (min octets (length text.now)) result }
{
    let n = octets.min(text.len());
    write_out(streams, &text[..n])?;
    Ok(n)
}

// ---- lines that wait: one call of the system for many of them

// A line was put behind those that wait: so many octets wait then, and so many went out.
#[derive(Clone, Copy, Debug, PartialEq, Eq)]
pub struct Waiting {
    pub octets: usize,
    pub written: usize,
}

fn put_behind(
    streams: Streams,
    buffer: &mut [u8],
    waiting: usize,
    line: &[u8],
) -> Result<Waiting, StreamError>
    requires { (waiting ≤ length buffer.old) × (length line.now ≤ length buffer.old) }
    ensures { Gathers buffer.old waiting line.now result buffer.new }
{
    if line.len() <= buffer.len() - waiting {
        field_words::copies::copy(line, buffer, waiting);
        return Ok(Waiting {
            octets: waiting + line.len(),
            written: 0,
        });
    }
    write_out(streams, &buffer[..waiting])?;
    field_words::copies::copy(line, buffer, 0);
    Ok(Waiting {
        octets: line.len(),
        written: waiting,
    })
}

// Puts the first octets of text behind those that wait at the start of the buffer, and writes those that wait out first where
// both do not fit. What the whole buffer does not hold is left out.
pub fn gather(
    streams: Streams,
    buffer: &mut [u8],
    waiting: usize,
    text: &[u8],
    octets: usize,
) -> Result<Waiting, StreamError>
    ensures { Gathers buffer.old (min waiting (length buffer.old)) (take (min octets (length buffer.old)) text.now) result buffer.new }
{
    let waits = waiting.min(buffer.len());
    let most = octets.min(buffer.len());
    let n = most.min(text.len());
    put_behind(streams, buffer, waits, &text[..n])
}

// Writes out what waits at the start of the buffer, behind so many octets that went out before.
pub fn write_waiting(
    streams: Streams,
    buffer: &[u8],
    waiting: usize,
    written: usize,
) -> Result<usize, StreamError>
    ensures { WritesWaiting written (min waiting (length buffer.now)) result }
{
    let octets = write_lines(streams, buffer, waiting)?;
    Ok(written.wrapping_add(octets))
}

// ---- clearing

fn zero(memory: &mut [u8])
    ensures { Zeroed memory.old memory.new }
{
    memory.fill(0);
}

// Clears memory that was lent. A compiler drops stores to memory that nothing reads again, and this language has no way to
// forbid that. C may read what it is handed, so the stores before such a call stay: there is no descriptor -1, and nothing is
// written.
pub fn clear(memory: &mut [u8])
    ensures { Zeroed memory.old memory.new }
{
    zero(memory);
    io::write_all(-1, memory);
}

fn clear_below(above: &mut [u8], times: u8)
    ensures { Zeroed above.old above.new }
{
    if times > 0 {
        let mut here = [0u8; 4096];
        clear_below(&mut here, times - 1);
    }
    clear(above);
}

// Clears 65536 octets of the stack below its caller's part, where the functions that worked have left copies. The arrays
// stand one below the other because `clear_below` calls itself, and needs its array when the call is back: so no compiler
// makes one of them, or puts them into the caller's part.
pub fn clear_stack() {
    let mut here = [0u8; 4096];
    clear_below(&mut here, 15);
}

// Some file systems say only late that a write failed. Where the output is a file, has the system write out what it still
// holds of it; a failure is said on standard error.
pub fn close_output<R: Files>(rt: &R, streams: Streams) {
    if let Err(error) = settle(rt) {
        fail(streams, "write", error);
    }
}

fn settle<R: Files>(rt: &R) -> std::io::Result<()> {
    let name = "/dev/stdout";
    let Ok(what) = fs::metadata(rt, name) else {
        return Ok(());
    };
    if !what.is_file() {
        return Ok(());
    }
    let Ok(file) = OpenOptions::new().write(true).open(rt, name) else {
        return Ok(());
    };
    file.sync_data()
}
