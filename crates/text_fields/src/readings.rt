// What a number reads: by its mark for no data, or by what messages 10, 11 and 20 mean by it. None is no data.
ghost use Rattle.std.specs.Prelude.{◌≡◌};
ghost use Rattle.ucp_meanings.specs.Meanings.{altitude_means, rate_means, geometric_means, degrees_e7};
ghost use Rattle.text_fields.specs.Fields.{unless, meant_reading};
ghost use Rattle.text_fields.specs.Templates.{mark_of, natural_reading, short_reading, long_reading};

fn unless(n: i64, mark: u32) -> Option<i64>
    ensures { result ≡ unless mark n }
{
    if n == i64::from(mark) { None } else { Some(n) }
}

// ---- by the mark's code, of which '.' is for none

fn mark_of(code: u8) -> u32
    ensures { result ≡ mark_of code }
{
    match code {
        b'b' => 255,
        b'k' => 4095,
        b'w' => 65535,
        _ => u32::MAX,
    }
}

pub fn natural_reading(mark: u8, n: u32) -> Option<i64>
    ensures { result ≡ natural_reading mark n }
{
    if mark == b'.' {
        return Some(i64::from(n));
    }
    unless(i64::from(n), mark_of(mark))
}

// The largest number is the mark.
pub fn short_reading(mark: u8, n: i16) -> Option<i64>
    ensures { result ≡ short_reading mark n }
{
    if mark == b'.' {
        return Some(i64::from(n));
    }
    unless(i64::from(n), 32767)
}

pub fn long_reading(mark: u8, n: i32) -> Option<i64>
    ensures { result ≡ long_reading mark n }
{
    if mark == b'.' {
        return Some(i64::from(n));
    }
    unless(i64::from(n), 2147483647)
}

// ---- by what messages 10, 11 and 20 mean

// Stays: apart from `ucp_meanings::altitude_in_feet`, which takes 16 bits. A template's natural has 32, and the rule is over any number.
pub fn altitude(n: u32) -> Option<i64>
    ensures { result ≡ meant_reading (altitude_means n) }
{
    if n == 0xFFF {
        return None;
    }
    let scaled = n as u64 * 25;
    Some(scaled as i64 - 1000)
}

pub fn rate(n: i16) -> Option<i64>
    ensures { result ≡ meant_reading (rate_means n) }
{
    ucp_meanings::rate_in_feet_per_minute(n).map(i64::from)
}

pub fn geometric(n: i16) -> Option<i64>
    ensures { result ≡ Some (geometric_means n) }
{
    Some(i64::from(ucp_meanings::geometric_altitude_in_feet(n)))
}

pub fn angle(n: i32) -> Option<i64>
    ensures { result ≡ Some (degrees_e7 n) }
{
    Some(ucp_meanings::degrees_e7(n))
}
