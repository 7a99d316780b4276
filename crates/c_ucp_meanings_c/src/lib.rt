// The calls of `c_ucp_meanings` as symbols for C and Rust. scripts/exports writes these files.
#![tactic(auto)]

ghost use Rattle.std.specs.Prelude.{◌≡◌};
ghost use Rattle.ucp_meanings.specs.Meanings.{altitude_means, rate_means, geometric_means, degrees_e7};
ghost use Rattle.c_ucp_meanings.specs.Measures.{measure_of};

use c_ucp_meanings::OstrogoszMeasure;

// The pressure altitude of messages 10 and 20, in feet.
#[unsafe(no_mangle)]
pub extern "C" fn ostrogosz_ucp_altitude_in_feet(altitude: u16) -> OstrogoszMeasure
    ensures { result ≡ measure_of (altitude_means altitude) }
{
    c_ucp_meanings::ostrogosz_ucp_altitude_in_feet(altitude)
}

// The vertical rate of messages 10 and 20, in feet per minute.
#[unsafe(no_mangle)]
pub extern "C" fn ostrogosz_ucp_rate_in_feet_per_minute(vertical_rate: i16) -> OstrogoszMeasure
    ensures { result ≡ measure_of (rate_means vertical_rate) }
{
    c_ucp_meanings::ostrogosz_ucp_rate_in_feet_per_minute(vertical_rate)
}

// The geometric altitude of message 11, in feet.
#[unsafe(no_mangle)]
pub extern "C" fn ostrogosz_ucp_geometric_altitude_in_feet(altitude: i16) -> i32
    ensures { result ≡ geometric_means altitude }
{
    c_ucp_meanings::ostrogosz_ucp_geometric_altitude_in_feet(altitude)
}

// A latitude or longitude of messages 10 and 20, in whole units of 1E-7 degree, toward zero.
#[unsafe(no_mangle)]
pub extern "C" fn ostrogosz_ucp_degrees_e7(angle: i32) -> i64
    ensures { result ≡ degrees_e7 angle }
{
    c_ucp_meanings::ostrogosz_ucp_degrees_e7(angle)
}
