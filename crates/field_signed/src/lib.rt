// Signed numbers and their bits, by two's complement. Half is 2 to the number of bits less one.
#![tactic(auto)]

ghost use Rattle.std.specs.Prelude.{◌≡◌, suc, ◌-◌, ◌*◌, ◌<◌, ◌≤◌, negsuc};
ghost use Rattle.std.specs.Int.Signed.{mag};
ghost use Rattle.std.specs.Int.{w16};
ghost use Rattle.std.proofs.Common.{SFits};
ghost use Rattle.field_signed.specs.Signed.{signed, complement, holds};

// n both of n and of -(n + 1).
fn magnitude(number: i32) -> u32
    ensures { result ≡ mag number }
{
    if number < 0 {
        (-1 - number) as u32
    } else {
        number as u32
    }
}

// -(n + 1).
fn below_zero(n: u32) -> i32
    requires { n < 2147483648 }
    ensures { result ≡ negsuc n }
{
    -1 - (n as i32)
}

fn narrowed(number: i32) -> i16
    requires { SFits w16 number }
    ensures { result ≡ number }
{
    number as i16
}

#[tactic(auto, unfolding(crate::specs::Signed::signed))]
fn to_signed(bits: u32, half: u32) -> i32
    requires { half ≤ 2147483648 }
    ensures { result ≡ signed half bits }
{
    if bits < half {
        return bits as i32;
    }
    let over = bits - half;
    if over < half {
        return below_zero(half - 1 - over);
    }
    -1
}

// The bits of -(n + 1).
fn negative_bits(n: u32, half: u32) -> u32
    requires { half ≤ 2147483648 }
    ensures { result ≡ half * 2 - suc n }
{
    if n < half {
        return half - 1 - n + half;
    }
    let over = n - half;
    if over < half {
        return half - 1 - over;
    }
    0
}

fn to_bits(number: i32, half: u32) -> u32
    requires { half ≤ 2147483648 }
    ensures { result ≡ complement half number }
{
    let n = magnitude(number);
    if number < 0 {
        return negative_bits(n, half);
    }
    n
}

// Stays: the new form is no plainer: of 12 and of 24 bits each function is one call of what both share, and a const parameter, as in
// signed::<2048>(bits) as i16, would only move the half and the cast to each caller. Of 16 and of 32 bits
// each is the library's method of its type.
pub fn signed_12(bits: u16) -> i16
    ensures { result ≡ signed 2048 bits }
{
    narrowed(to_signed(bits as u32, 2048))
}

#[tactic(auto, unfolding(crate::specs::Signed::signed))]
pub fn signed_16(bits: u16) -> i16
    ensures { result ≡ signed 32768 bits }
{
    bits.cast_signed()
}

pub fn signed_24(bits: u32) -> i32
    ensures { result ≡ signed 8388608 bits }
{
    to_signed(bits, 8388608)
}

#[tactic(auto, unfolding(crate::specs::Signed::signed))]
pub fn signed_32(bits: u32) -> i32
    ensures { result ≡ signed 2147483648 bits }
{
    bits.cast_signed()
}

// The bits of a number that has too many for the width are of no meaning: `holds_12` and `holds_24` say whether it has.
pub fn bits_12(number: i16) -> u16
    ensures { result ≡ complement 2048 number }
{
    to_bits(i32::from(number), 2048) as u16
}

pub fn bits_16(number: i16) -> u16
    ensures { result ≡ complement 32768 number }
{
    number.cast_unsigned()
}

pub fn bits_24(number: i32) -> u32
    ensures { result ≡ complement 8388608 number }
{
    to_bits(number, 8388608)
}

pub fn bits_32(number: i32) -> u32
    ensures { result ≡ complement 2147483648 number }
{
    number.cast_unsigned()
}

#[tactic(auto, unfolding(crate::specs::Signed::holds))]
pub fn holds_12(number: i16) -> bool
    ensures { result ≡ holds 2048 number }
{
    magnitude(i32::from(number)) < 2048
}

#[tactic(auto, unfolding(crate::specs::Signed::holds))]
pub fn holds_24(number: i32) -> bool
    ensures { result ≡ holds 8388608 number }
{
    magnitude(number) < 8388608
}
