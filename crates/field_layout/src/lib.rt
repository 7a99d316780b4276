// Numbers at a place of a slice of octets. A place past the end reads as 0, so that no function asks anything.
#![tactic(auto)]

ghost use Rattle.std.specs.Prelude.{◌≡◌, cond, ◌++◌, ◌<◌, ◌≤◌, leb, length, get_or, drop};
ghost use Rattle.field_layout.specs.Layout.{bit_of, text_at, text_octets, no_text};
ghost use Rattle.field_layout.specs.Steps.{big16, big24, big32, little16, little24, little32};

// A text of eight octets. (An enum can't hold an array, and messages are held in one.)
#[repr(C)]
#[derive(Clone, Copy)]
pub struct Text {
    pub c0: u8,
    pub c1: u8,
    pub c2: u8,
    pub c3: u8,
    pub c4: u8,
    pub c5: u8,
    pub c6: u8,
    pub c7: u8,
}

// The octet at a place.
pub fn octet(octets: &[u8], at: u8) -> u8
    ensures { result ≡ get_or octets.now at 0 }
{
    octet_at(octets, at as usize)
}

fn octet_at(octets: &[u8], at: usize) -> u8
    ensures { result ≡ get_or octets.now at 0 }
{
    octets.get(at).copied().unwrap_or(0)
}

// The text from a place on.
pub fn text_at(octets: &[u8], at: u8) -> Text
    ensures { result ≡ text_at octets.now at }
{
    let i = at as usize;
    Text {
        c0: octet_at(octets, i),
        c1: octet_at(octets, i + 1),
        c2: octet_at(octets, i + 2),
        c3: octet_at(octets, i + 3),
        c4: octet_at(octets, i + 4),
        c5: octet_at(octets, i + 5),
        c6: octet_at(octets, i + 6),
        c7: octet_at(octets, i + 7),
    }
}

// A text as the array of its octets.
pub fn text_octets(text: Text) -> [u8; 8]
    ensures { result ≡ text_octets text }
{
    [
        text.c0, text.c1, text.c2, text.c3, text.c4, text.c5, text.c6, text.c7,
    ]
}

// Eight zeros, for where there is no text.
pub fn no_text() -> Text
    ensures { result ≡ no_text }
{
    Text {
        c0: 0,
        c1: 0,
        c2: 0,
        c3: 0,
        c4: 0,
        c5: 0,
        c6: 0,
        c7: 0,
    }
}

// Stays: the two orders apart, and 16 bits apart from 24 and 32: they differ in the library's method and in their integer's type,
// which no const parameter chooses.

// ---- most significant octet first
pub fn big_16(octets: &[u8], at: u8) -> u16
    ensures { result ≡ big16 octets.now at }
{
    let i = at as usize;
    u16::from_be_bytes([octet_at(octets, i), octet_at(octets, i + 1)])
}

pub fn big_24(octets: &[u8], at: u8) -> u32
    ensures { result ≡ big24 octets.now at }
{
    let i = at as usize;
    u32::from_be_bytes([
        0,
        octet_at(octets, i),
        octet_at(octets, i + 1),
        octet_at(octets, i + 2),
    ])
}

pub fn big_32(octets: &[u8], at: u8) -> u32
    ensures { result ≡ big32 octets.now at }
{
    let i = at as usize;
    u32::from_be_bytes([
        octet_at(octets, i),
        octet_at(octets, i + 1),
        octet_at(octets, i + 2),
        octet_at(octets, i + 3),
    ])
}

// ---- least significant octet first
pub fn little_16(octets: &[u8], at: u8) -> u16
    ensures { result ≡ little16 octets.now at }
{
    let i = at as usize;
    u16::from_le_bytes([octet_at(octets, i), octet_at(octets, i + 1)])
}

pub fn little_24(octets: &[u8], at: u8) -> u32
    ensures { result ≡ little24 octets.now at }
{
    let i = at as usize;
    u32::from_le_bytes([
        octet_at(octets, i),
        octet_at(octets, i + 1),
        octet_at(octets, i + 2),
        0,
    ])
}

pub fn little_32(octets: &[u8], at: u8) -> u32
    ensures { result ≡ little32 octets.now at }
{
    let i = at as usize;
    u32::from_le_bytes([
        octet_at(octets, i),
        octet_at(octets, i + 1),
        octet_at(octets, i + 2),
        octet_at(octets, i + 3),
    ])
}

// ---- writing

// A truth value as a field of one bit.
pub fn bit(value: bool) -> u8
    ensures { (result ≡ bit_of value) × (result ≤ 1) }
{
    if value { 1 } else { 0 }
}

// Stores octets at the start of an output that has room for them, and says whether it had.
// Stays: a loop, since `copy_from_slice` of any length calls C's memmove, and the archive, which stores uplinks by it, calls memcpy and
// memset at most: that is C's interface.
pub fn store(octets: &[u8], output: &mut [u8]) -> bool
    ensures { (result ≡ leb (length octets.now) (length output.old)) × (output.new ≡ cond result (octets.now ++ drop (length octets.now) output.old) output.old) }
{
    if output.len() < octets.len() {
        return false;
    }
    for i in 0..octets.len() {
        output[i] = octets[i];
    }
    true
}
