// The ranges of the fields of the MAVLink kinds.
ghost use Rattle.std.specs.Prelude.{◌≡◌};
ghost use Rattle.mavlink_messages.specs.Ranges.{static_fits, dynamic_fits, traffic_fits};

use field_layout::Text;

// Whether the fields of 201 are in range.
#[tactic(auto, unfolding(crate::specs::Ranges::static_fits))]
pub fn static_fits(
    address: u32,
    callsign: Text,
    capability: u8,
    emitter: u8,
    size: u8,
    lateral: u8,
    longitudinal: u8,
) -> bool
    ensures { result ≡ static_fits address callsign capability emitter size lateral longitudinal }
{
    let text = field_layout::text_octets(callsign);
    (address < 16777216)
        & field_texts::is_spaced(&text)
        & (capability == 0)
        & field_codes::is_emitter(emitter)
        & field_codes::is_size_code(size)
        & (lateral <= 7)
        & (longitudinal <= 31)
}

// Whether those of 202 are.
#[tactic(auto, unfolding(crate::specs::Ranges::dynamic_fits))]
pub fn dynamic_fits(squawk: u16, fix: u8) -> bool
    ensures { result ≡ dynamic_fits squawk fix }
{
    field_codes::is_squawk(squawk) & (fix <= 5)
}

// Whether those of 246 are.
#[tactic(auto, unfolding(crate::specs::Ranges::traffic_fits))]
pub fn traffic_fits(squawk: u16) -> bool
    ensures { result ≡ traffic_fits squawk }
{
    field_codes::is_squawk(squawk) | (squawk == 65535)
}
