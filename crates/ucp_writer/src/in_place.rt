// A body made into its frame where it lies, from the back to the front: an octet's place in the frame is behind its place in the
// body, so that none is overwritten before it is read.
ghost use Rattle.std.specs.Prelude.{◌≡◌, ◌++◌, ◌+◌, ◌≤◌, length, take};
ghost use Rattle.std.proofs.lemmas.List.Edits.{sets};
ghost use Rattle.ucp_frame.specs.Frame.{stuffed, frame, longest_body, longest_frame};
ghost use Rattle.ucp_writer.specs.Writes.{FramesInPlace};
ghost use Rattle.ucp_writer.specs.Steps.{Moves, ToMove};

use output_writing::Written;

// Makes of the first octets of buffer their frame, where a body may have so many.
pub fn frame_front(buffer: &mut [u8], octets: usize) -> Written
    requires { length buffer.old ≡ longest_frame }
    ensures { FramesInPlace buffer.old octets result buffer.new }
{
    super::room::admit_length(octets)?;
    let end = 1 + ucp_stuffing::stuffed_length(&buffer[..octets]);
    let check = crc_gdl90::frame_check_by_shifts(&buffer[..octets]);
    move_words(buffer, octets, end);
    buffer[0] = 0x7E;
    Ok(super::close(buffer, end, check))
}

// Puts the first octets of buffer, stuffed, behind its first place, so that they end at a place: eight at a time.
fn move_words(buffer: &mut [u8], octets: usize, end: usize)
    requires { Moves buffer.old octets end }
    ensures { buffer.new ≡ sets buffer.old 1 (stuffed (take octets buffer.old)) }
{
    let first = octets % 8;
    let mut end = end;
    for word in (0..octets / 8).rev() {
        end = move_word(buffer, first + word * 8, end);
    }
    move_octets(buffer, 0, first, end);
}

// Of the octets that are left, puts the eight from a place on, and gives where they start: at once where none needs an escape, else
// one by one, so that no octet waits on the stack for its turn.
fn move_word(buffer: &mut [u8], from: usize, end: usize) -> usize
    requires { Moves buffer.old (from + 8) end }
    ensures { ToMove buffer.new from result (sets buffer.old 1 (stuffed (take (from + 8) buffer.old))) }
{
    let word = field_words::little_64(buffer, from);
    if ucp_stuffing::is_plain(word) {
        let at = end - 8;
        field_words::put_64(buffer, at, word);
        return at;
    }
    move_octets(buffer, from, from + 8, end)
}

// Of the octets that are left, puts those from a place on, one by one, and gives where they start.
fn move_octets(buffer: &mut [u8], from: usize, octets: usize, end: usize) -> usize
    requires { (from ≤ octets) × Moves buffer.old octets end }
    ensures { ToMove buffer.new from result (sets buffer.old 1 (stuffed (take octets buffer.old))) }
{
    let mut end = end;
    for at in (from..octets).rev() {
        let octet = buffer[at];
        end -= ucp_stuffing::escaped_length(octet);
        ucp_stuffing::put(buffer, end, octet);
    }
    end
}
