// What the raw numbers of messages 10, 11 and 20 mean in feet, feet per minute and degrees.
#![tactic(auto)]

ghost use Rattle.std.specs.Prelude.{◌≡◌};
ghost use Rattle.ucp_meanings.specs.Meanings.{meaning_of, altitude_means, rate_means, geometric_means, degrees_e7};

// The pressure altitude that messages 10 and 20 carry as a number; None where they have no data.
pub fn altitude_in_feet(number: u16) -> Option<i32>
    ensures { meaning_of result ≡ altitude_means number }
{
    if number == 0xFFF {
        return None;
    }
    let scaled = number as u32 * 25;
    Some(scaled as i32 - 1000)
}

// The vertical rate that messages 10 and 20 carry as a number; None where they have no data.
pub fn rate_in_feet_per_minute(number: i16) -> Option<i32>
    ensures { meaning_of result ≡ rate_means number }
{
    if number == -2048 {
        return None;
    }
    Some(number as i32 * 64)
}

// The geometric altitude that message 11 carries as a number.
pub fn geometric_altitude_in_feet(number: i16) -> i32
    ensures { result ≡ geometric_means number }
{
    number as i32 * 5
}

// The angle that messages 10 and 20 carry as a number, in whole units of 1E-7 degree, toward zero.
pub fn degrees_e7(number: i32) -> i64
    ensures { result ≡ degrees_e7 number }
{
    number as i64 * 1800000000 / 8388608
}
