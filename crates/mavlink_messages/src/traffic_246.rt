// Message 246, a report of traffic.
ghost use Rattle.std.specs.Prelude.{◌≡◌, length};
ghost use Rattle.field_format.specs.Format.{body_of, value_in};
ghost use Rattle.mavlink_messages.specs.Traffic246.{traffic_format};

use super::Traffic;

pub fn read(payload: &[u8]) -> Traffic
    requires { length payload.now ≡ 38 }
    ensures { result ≡ value_in traffic_format payload.now }
{
    Traffic {
        icao_address: field_layout::little_32(payload, 0),
        lat: field_signed::signed_32(field_layout::little_32(payload, 4)),
        lon: field_signed::signed_32(field_layout::little_32(payload, 8)),
        altitude: field_signed::signed_32(field_layout::little_32(payload, 12)),
        heading: field_layout::little_16(payload, 16),
        hor_velocity: field_layout::little_16(payload, 18),
        ver_velocity: field_signed::signed_16(field_layout::little_16(payload, 20)),
        valid_flags: field_layout::little_16(payload, 22),
        squawk: field_layout::little_16(payload, 24),
        altitude_type: field_layout::octet(payload, 26),
        callsign: field_layout::text_at(payload, 27),
        callsign_ninth: field_layout::octet(payload, 35),
        emitter_type: field_layout::octet(payload, 36),
        tslc: field_layout::octet(payload, 37),
    }
}

pub fn in_range(traffic: Traffic) -> bool
    ensures { result ≡ traffic_format.ranges traffic }
{
    super::ranges::traffic_fits(traffic.squawk)
}

pub fn octets(traffic: Traffic) -> [u8; 38]
    ensures { result ≡ body_of traffic_format traffic }
{
    let mut octets = [0; 38];
    octets[0..4].copy_from_slice(&traffic.icao_address.to_le_bytes());
    octets[4..8].copy_from_slice(&traffic.lat.to_le_bytes());
    octets[8..12].copy_from_slice(&traffic.lon.to_le_bytes());
    octets[12..16].copy_from_slice(&traffic.altitude.to_le_bytes());
    octets[16..18].copy_from_slice(&traffic.heading.to_le_bytes());
    octets[18..20].copy_from_slice(&traffic.hor_velocity.to_le_bytes());
    octets[20..22].copy_from_slice(&traffic.ver_velocity.to_le_bytes());
    octets[22..24].copy_from_slice(&traffic.valid_flags.to_le_bytes());
    octets[24..26].copy_from_slice(&traffic.squawk.to_le_bytes());
    octets[26] = traffic.altitude_type;
    octets[27..35].copy_from_slice(&field_layout::text_octets(traffic.callsign));
    octets[35] = traffic.callsign_ninth;
    octets[36] = traffic.emitter_type;
    octets[37] = traffic.tslc;
    octets
}
