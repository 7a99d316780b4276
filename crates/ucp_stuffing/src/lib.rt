// Stuffing: octets put on the line, a flag and an escape among them each as an escape and another octet. The frame writer and the receiver
// share it.
#![tactic(auto)]

ghost use Rattle.std.specs.Prelude.{◌≡◌, true, ◌||◌, ◌++◌, ◌+◌, ◌≤◌, eqb, length};
ghost use Rattle.field_words.specs.Words.{octets_up};
ghost use Rattle.ucp_frame.specs.Frame.{flag, escape, escaped, stuffed, longest_body};
ghost use Rattle.output_writing.specs.Puts.{Puts};

// Whether an octet is escaped: the flag is, and the escape itself.
pub fn is_escaped(octet: u8) -> bool
    ensures { result ≡ (eqb octet flag || eqb octet escape) }
{
    octet == 0x7E || octet == 0x7D
}

// None of the eight octets needs an escape where it says so. It may say no for octets of 7F: its caller then stuffs octet by octet.
pub fn is_plain(word: u64) -> bool
    ensures { result ≡ true → stuffed (octets_up 8 word) ≡ octets_up 8 word }
{
    // In each octet the top bit becomes 1 where the other seven are 7D or more, and that counts where it was 0 before.
    let near = (word & 0x7F7F7F7F7F7F7F7F) + 0x0303030303030303;
    near & (word ^ 0x8080808080808080) & 0x8080808080808080 == 0
}

// How many octets an octet takes on the line.
pub fn escaped_length(octet: u8) -> usize
    ensures { result ≡ length (escaped octet) }
{
    if is_escaped(octet) { 2 } else { 1 }
}

// How many octets a body takes on the line, stuffed.
pub fn stuffed_length(body: &[u8]) -> usize
    requires { length body.now ≤ longest_body }
    ensures { result ≡ length (stuffed body.now) }
{
    let (words, rest) = body.as_chunks::<8>();
    let mut count = 0;
    for word in words {
        count += word_length(*word);
    }
    count + counted_length(rest)
}

// The same, octet by octet.
fn counted_length(octets: &[u8]) -> usize
    requires { length octets.now ≤ longest_body }
    ensures { result ≡ length (stuffed octets.now) }
{
    let mut count = 0;
    for octet in octets {
        count += escaped_length(*octet);
    }
    count
}

// How many octets eight take on the line.
fn word_length(octets: [u8; 8]) -> usize
    ensures { result ≡ length (stuffed octets) }
{
    if is_plain(field_words::word(octets)) {
        8
    } else {
        counted_length(&octets)
    }
}

// Puts eight octets, stuffed, at a place of output, and gives the next place: at once where none needs an escape.
pub fn put_eight(output: &mut [u8], at: usize, word: u64) -> usize
    requires { at + length (stuffed (octets_up 8 word)) ≤ length output.old }
    ensures { Puts output.old at (stuffed (octets_up 8 word)) result output.new }
{
    if is_plain(word) {
        field_words::put_64(output, at, word);
        at + 8
    } else {
        put_octets(output, at, &word.to_le_bytes())
    }
}

// Puts octets, stuffed, at a place of output, one by one, and gives the next place.
fn put_octets(output: &mut [u8], at: usize, octets: &[u8]) -> usize
    requires { at + length (stuffed octets.now) ≤ length output.old }
    ensures { Puts output.old at (stuffed octets.now) result output.new }
{
    let mut at = at;
    for octet in octets {
        at = put(output, at, *octet);
    }
    at
}

// Puts two octets, stuffed, at a place of output, and gives the next place.
pub fn put_pair(output: &mut [u8], at: usize, first: u8, second: u8) -> usize
    requires { at + length (escaped first ++ escaped second) ≤ length output.old }
    ensures { Puts output.old at (escaped first ++ escaped second) result output.new }
{
    let next = put(output, at, first);
    put(output, next, second)
}

// Puts the octet, stuffed, at a place of output, and gives the next place.
pub fn put(output: &mut [u8], at: usize, octet: u8) -> usize
    requires { at + length (escaped octet) ≤ length output.old }
    ensures { Puts output.old at (escaped octet) result output.new }
{
    if is_escaped(octet) {
        output[at] = 0x7D;
        output[at + 1] = octet ^ 0x20;
        at + 2
    } else {
        output[at] = octet;
        at + 1
    }
}
