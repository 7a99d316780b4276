// The X.25 check that MAVLink carries, by shifts.
#![tactic(auto)]

ghost use Rattle.std.specs.Prelude.{◌≡◌, [], ◌∷◌, ◌++◌};
ghost use Rattle.field_words.specs.Words.{octets_up};
ghost use Rattle.crc_x25.specs.Check.{x25, x25_from};

// The check of octets, with the one of those before this octet at hand.
fn next_octet(check: u16, octet: u8) -> u16
    ensures { result ≡ x25_from check (octet ∷ []) }
{
    let met = check ^ octet as u16;
    let low = met % 256;
    let fold = (low ^ (low * 16)) % 256;
    (met / 256) ^ (fold * 256) ^ (fold * 8) ^ (fold / 16)
}

// Two octets at once, sixteen places of the division: the steps of a check wait for each other, and this halves their number.
fn next_pair(check: u16, first: u8, second: u8) -> u16
    ensures { result ≡ x25_from check (first ∷ second ∷ []) }
{
    let met = check as u32 ^ (second as u32 * 256 + first as u32);
    let q = (met ^ (met * 16) ^ (met * 256) ^ (met * 2048) ^ (met * 4096)) % 65536;
    (q ^ (q / 32) ^ (q / 4096)) as u16
}

// Eight octets at once, the least significant first: the same division by shifts of 64 bits.
fn next_eight(check: u16, word: u64) -> u16
    ensures { result ≡ x25_from check (octets_up 8 word) }
{
    let met = word ^ check as u64;
    let a = met ^ (met << 32);
    let b = a ^ (a << 16) ^ (a << 44);
    let c = b ^ (b << 8) ^ (b << 22) ^ (b << 32);
    let q = c ^ (c << 4) ^ (c << 11) ^ (c << 16);
    (((q >> 48) ^ (q >> 53) ^ (q >> 60)) % 65536) as u16
}

// A number's four lowest octets at once: the step of eight over four zeros and them, once they have met the check.
fn next_four(check: u16, word: u64) -> u16
    ensures { result ≡ x25_from check (octets_up 4 word) }
{
    next_eight(0, (word ^ check as u64) << 32)
}

// The check of five octets at once: the step of eight over three zeros and them, from the check that the zeros turn into the start.
pub fn x25_five(first: u8, second: u8, third: u8, fourth: u8, fifth: u8) -> u16
    ensures { result ≡ x25 (first ∷ second ∷ third ∷ fourth ∷ fifth ∷ []) }
{
    let word = field_words::word_of(0, 0, 0, first, second, third, fourth, fifth);
    next_eight(0x8EB4, word)
}

// The check of seven octets at once, a number's lowest: the step of eight over a zero and them.
pub fn x25_seven(word: u64) -> u16
    ensures { result ≡ x25 (octets_up 7 word) }
{
    next_eight(0x3078, word << 8)
}

// The check of eight octets at once.
pub fn x25_eight(word: u64) -> u16
    ensures { result ≡ x25 (octets_up 8 word) }
{
    next_eight(0xFFFF, word)
}

// The check of a number's four lowest octets and eight more: the step of eight over four zeros and the four, then over the eight.
pub fn x25_twelve(first: u64, word: u64) -> u16
    ensures { result ≡ x25 (octets_up 4 first ++ octets_up 8 word) }
{
    next_eight(next_eight(0xEC2A, first << 32), word)
}

// The check of octets and then of one more, the extra that is not sent.
pub fn x25_check(octets: &[u8], extra: u8) -> u16
    ensures { result ≡ x25 (octets.now ++ extra ∷ []) }
{
    x25_after(0xFFFF, octets, extra)
}

// The same of octets that follow others, whose check is given.
pub fn x25_after(check: u16, octets: &[u8], extra: u8) -> u16
    ensures { result ≡ x25_from check (octets.now ++ extra ∷ []) }
{
    let (words, rest) = octets.as_chunks::<8>();
    let mut check = check;
    for word in words {
        check = next_eight(check, field_words::word(*word));
    }
    check_last(check, rest, extra)
}

// Fewer than eight octets, and then the extra: none, which 201 leaves, seven, which 202 leaves, and three, which 246 leaves, in one step.
// The check is that of the octets before.
fn check_last(check: u16, octets: &[u8], extra: u8) -> u16
    ensures { result ≡ x25_from check (octets.now ++ extra ∷ []) }
{
    match *octets {
        [] => next_octet(check, extra),
        [a, b, c, d, e, f, g] => {
            next_eight(check, field_words::word_of(a, b, c, d, e, f, g, extra))
        }
        [a, b, c] => next_four(check, field_words::word_of(a, b, c, extra, 0, 0, 0, 0)),
        _ => check_rest(check, octets, extra),
    }
}

// The octets and then the extra, two by two. The check is that of the octets before.
fn check_rest(check: u16, octets: &[u8], extra: u8) -> u16
    ensures { result ≡ x25_from check (octets.now ++ extra ∷ []) }
{
    let (pairs, rest) = octets.as_chunks::<2>();
    let mut check = check;
    for pair in pairs {
        check = next_pair(check, pair[0], pair[1]);
    }
    match *rest {
        [last] => next_pair(check, last, extra),
        _ => next_octet(check, extra),
    }
}
