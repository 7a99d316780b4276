// What the raw numbers of messages 10, 11 and 20 mean, for C and Rust; include/ostrogosz/ucp.h says the same in C.
#![tactic(auto)]

ghost use Rattle.std.specs.Prelude.{◌≡◌};
ghost use Rattle.ucp_meanings.specs.Meanings.{altitude_means, rate_means, geometric_means, degrees_e7};
ghost use Rattle.c_ucp_meanings.specs.Measures.{measure_of, IsMeasured};

// A value, or no data.
// Stays: a number that says whether there is a value. It is the struct of the C header, and C has no `Option`.
#[repr(C)]
#[derive(Clone, Copy)]
pub struct OstrogoszMeasure {
    // 1, or 0 for no data.
    pub known: u32,
    // 0 for no data.
    pub value: i32,
}

impl From<Option<i32>> for OstrogoszMeasure {
    ghost from_gives = { IsMeasured };

    fn from(known: Option<i32>) -> OstrogoszMeasure {
        match known {
            Some(value) => OstrogoszMeasure { known: 1, value },
            None => OstrogoszMeasure { known: 0, value: 0 },
        }
    }
}

// The pressure altitude of messages 10 and 20, in feet.
pub fn ostrogosz_ucp_altitude_in_feet(altitude: u16) -> OstrogoszMeasure
    ensures { result ≡ measure_of (altitude_means altitude) }
{
    OstrogoszMeasure::from(ucp_meanings::altitude_in_feet(altitude))
}

// The vertical rate of messages 10 and 20, in feet per minute.
pub fn ostrogosz_ucp_rate_in_feet_per_minute(vertical_rate: i16) -> OstrogoszMeasure
    ensures { result ≡ measure_of (rate_means vertical_rate) }
{
    OstrogoszMeasure::from(ucp_meanings::rate_in_feet_per_minute(vertical_rate))
}

// The geometric altitude of message 11, in feet.
pub fn ostrogosz_ucp_geometric_altitude_in_feet(altitude: i16) -> i32
    ensures { result ≡ geometric_means altitude }
{
    ucp_meanings::geometric_altitude_in_feet(altitude)
}

// A latitude or longitude of messages 10 and 20, in whole units of 1E-7 degree, toward zero.
pub fn ostrogosz_ucp_degrees_e7(angle: i32) -> i64
    ensures { result ≡ degrees_e7 angle }
{
    ucp_meanings::degrees_e7(angle)
}
