// Text put into a lent page of 1536 octets. What would stand past its end is left out, so that no function here asks for room:
// `Appends` says so, and where all fits it says that all is there.
#![tactic(auto, using(crate::proofs::Clipped::then))]

pub mod page;

ghost use Rattle.std.specs.Prelude.{◌≡◌, [], ◌∷◌, ◌+◌, ◌/◌, ◌%◌, ◌<◌, ◌≤◌, ◌^◌, length};
ghost use Rattle.field_words.specs.Words.{octets_up};
ghost use Rattle.text_output.specs.Pages.{Appends, Clears, Restarts};
ghost use Rattle.text_output.specs.Text.{hex_digit, hex_pair, is_plain, backslashed, printed_octet, printed, numeral, natural, radix, padded, minus, places, fraction, fixed_point};

use page::Page;
pub use page::{TEXT_ROOM, TextRoom};

// How octets are written: as they are; in a text, escaped where they have to be; in hexadecimal, a space before each.
#[derive(Clone, Copy)]
pub enum Printing {
    Plain,
    Escaped,
    Hex,
}

// The base of a numeral.
#[derive(Clone, Copy)]
pub enum Base {
    Decimal,
    Hexadecimal,
}

// What a number counts: wholes, or parts of one, and then as many digits stand behind the point as it takes.
#[derive(Clone, Copy)]
pub enum Scale {
    Ones,
    Hundredths,
    Thousandths,
    TenMillionths,
}

impl Page {
    // Of zeros, and with no text.
    pub fn new() -> Page
        ensures { Clears result }
    {
        Page {
            room: [0; TEXT_ROOM],
            end: 0,
        }
    }

    // The text begins anew; the octets of the one before stay until they are put over.
    pub fn clear(&mut self)
        ensures { Restarts self.old self.new }
    {
        self.end = 0;
    }

    pub fn put_octet(&mut self, octet: u8)
        ensures { Appends self.old (octet ∷ []) self.new }
    {
        if self.end < TEXT_ROOM {
            self.room[self.end] = octet;
            self.end += 1;
        } else {
            self.end = TEXT_ROOM;
        }
    }

    // No text, from an end that may lie past the room's. It is tested and not stored, since what comes behind would wait for the store.
    pub fn put_nothing(&mut self)
        ensures { Appends self.old [] self.new }
    {
        if TEXT_ROOM < self.end {
            self.end = TEXT_ROOM;
        }
    }

    // In one piece where all of it fits.
    pub fn put_word(&mut self, word: &[u8])
        ensures { Appends self.old word.now self.new }
    {
        if self.end < TEXT_ROOM && word.len() <= TEXT_ROOM - self.end {
            field_words::copies::copy(word, &mut self.room, self.end);
            self.end += word.len();
        } else {
            self.put_printed(Printing::Plain, word);
        }
    }

    pub fn put_printed(&mut self, printing: Printing, octets: &[u8])
        ensures { Appends self.old (printed printing octets.now) self.new }
    {
        self.put_nothing();
        for octet in octets {
            self.put_printed_octet(printing, *octet);
        }
    }

    fn put_printed_octet(&mut self, printing: Printing, octet: u8)
        ensures { Appends self.old (printed_octet printing octet) self.new }
    {
        match printing {
            Printing::Plain => self.put_octet(octet),
            Printing::Escaped => self.put_escaped(octet),
            Printing::Hex => self.put_hex(octet),
        }
    }

    fn put_escaped(&mut self, octet: u8)
        ensures { Appends self.old (backslashed octet) self.new }
    {
        if is_plain(octet) {
            self.put_octet(octet);
        } else {
            self.put_octet(b'\\');
            self.put_octet(b'x');
            self.put_pair(octet);
        }
    }

    // Three at once where there is room, so that the end is stored once.
    fn put_hex(&mut self, octet: u8)
        ensures { Appends self.old (printed_octet Printing.Hex octet) self.new }
    {
        let at = self.end;
        if at < TEXT_ROOM - 2 {
            let n = octet as u64;
            self.room[at] = b' ';
            self.room[at + 1] = digit(n / 16);
            self.room[at + 2] = digit(n % 16);
            self.end = at + 3;
        } else {
            self.put_octet(b' ');
            self.put_pair(octet);
        }
    }

    fn put_pair(&mut self, octet: u8)
        ensures { Appends self.old (hex_pair octet) self.new }
    {
        let n = octet as u64;
        self.put_octet(digit(n / 16));
        self.put_octet(digit(n % 16));
    }

    pub fn put_natural(&mut self, n: u64)
        ensures { Appends self.old (natural n) self.new }
    {
        self.put_numeral(false, 10, 20, n);
    }

    // So many digits, the low ones of the number.
    pub fn put_padded(&mut self, base: Base, digits: u8, n: u64)
        ensures { Appends self.old (padded base digits n) self.new }
    {
        self.put_numeral(true, radix_of(base), digits, n);
    }

    // Two digits a step: a number of many digits calls itself half as often.
    fn put_numeral(&mut self, padded: bool, base: u64, most: u8, n: u64)
        requires { (0 < base) × (base ≤ 16) }
        ensures { Appends self.old (numeral padded base most n) self.new }
    {
        if most == 0 {
            return self.put_nothing();
        }
        if !padded & (n < base) {
            return self.put_octet(digit(n));
        }
        let more = quotient(n, base);
        let last = digit(remainder(n, base));
        if most == 1 {
            return self.put_octet(last);
        }
        if !padded & (more < base) {
            return self.put_two(digit(more), last);
        }
        self.put_numeral(padded, base, most - 2, quotient(more, base));
        self.put_two(digit(remainder(more, base)), last);
    }

    fn put_two(&mut self, first: u8, second: u8)
        ensures { Appends self.old (first ∷ second ∷ []) self.new }
    {
        let at = self.end;
        if at < TEXT_ROOM - 1 {
            self.room[at] = first;
            self.room[at + 1] = second;
            self.end = at + 2;
        } else {
            self.put_octet(first);
            self.put_octet(second);
        }
    }

    // So many small units, in wholes.
    pub fn put_fixed(&mut self, scale: Scale, n: i64)
        ensures { Appends self.old (fixed_point scale n) self.new }
    {
        let small = n.unsigned_abs();
        let whole = whole_of(scale);
        self.put_minus(n);
        self.put_natural(small / whole);
        self.put_fraction(places_of(scale), small % whole);
    }

    fn put_minus(&mut self, n: i64)
        ensures { Appends self.old (minus n) self.new }
    {
        if n < 0 {
            self.put_octet(b'-');
        } else {
            self.put_nothing();
        }
    }

    // Seven places, as angles have, go in one store where there is room.
    fn put_fraction(&mut self, places: u8, n: u64)
        ensures { Appends self.old (fraction places n) self.new }
    {
        if places == 0 {
            return self.put_nothing();
        }
        if places == 7 && self.end < TEXT_ROOM - 7 {
            field_words::put_64(&mut self.room, self.end, seven_places(n));
            self.end += 8;
            return;
        }
        self.put_octet(b'.');
        self.put_numeral(true, 10, places, n);
    }
}

// ---- digits

fn digit(d: u64) -> u8
    requires { d < 16 }
    ensures { result ≡ hex_digit d }
{
    (d + 48 + (d + 6) / 16 * 39) as u8
}

fn is_plain(x: u8) -> bool
    ensures { result ≡ is_plain x }
{
    (0x20 <= x) & (x <= 0x7E) & !(x == 0x22) & !(x == 0x5C)
}

// By a constant where the base is one of ours: a division by a variable takes many times as long.
fn quotient(n: u64, base: u64) -> u64
    requires { 0 < base }
    ensures { result ≡ n / base }
{
    match base {
        10 => n / 10,
        16 => n / 16,
        _ => n / base,
    }
}

fn remainder(n: u64, base: u64) -> u64
    requires { 0 < base }
    ensures { result ≡ n % base }
{
    match base {
        10 => n % 10,
        16 => n % 16,
        _ => n % base,
    }
}

fn radix_of(base: Base) -> u64
    ensures { (result ≡ radix base) × (0 < result) × (result ≤ 16) }
{
    match base {
        Base::Decimal => 10,
        Base::Hexadecimal => 16,
    }
}

// ---- numbers of small units

fn places_of(scale: Scale) -> u8
    ensures { result ≡ places scale }
{
    match scale {
        Scale::Ones => 0,
        Scale::Hundredths => 2,
        Scale::Thousandths => 3,
        Scale::TenMillionths => 7,
    }
}

// How many make a whole.
fn whole_of(scale: Scale) -> u64
    ensures { (result ≡ 10 ^ places scale) × (0 < result) }
{
    match scale {
        Scale::Ones => 1,
        Scale::Hundredths => 100,
        Scale::Thousandths => 1000,
        Scale::TenMillionths => 10000000,
    }
}

fn decimal(n: u64) -> u64
    ensures { (result ≡ hex_digit (n % 10)) × (result < 256) }
{
    n % 10 + 48
}

// The point and seven digits, as one number.
fn seven_places(n: u64) -> u64
    ensures { octets_up 8 result ≡ fraction 7 n }
{
    let from_1 = n / 10;
    let from_2 = from_1 / 10;
    let from_3 = from_2 / 10;
    let from_4 = from_3 / 10;
    let from_5 = from_4 / 10;
    let from_6 = from_5 / 10;
    46 + (decimal(from_6) * 256
        + (decimal(from_5) * 65536
            + (decimal(from_4) * 16777216
                + (decimal(from_3) * 4294967296
                    + (decimal(from_2) * 1099511627776
                        + (decimal(from_1) * 281474976710656 + decimal(n) * 72057594037927936))))))
}
