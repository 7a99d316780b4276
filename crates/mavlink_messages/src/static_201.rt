// Message 201, the static data of an aircraft.
ghost use Rattle.std.specs.Prelude.{◌≡◌, ◌<◌, length};
ghost use Rattle.field_format.specs.Format.{body_of, value_in};
ghost use Rattle.mavlink_messages.specs.Static201.{static_format};

use super::Static;

pub fn read(payload: &[u8]) -> Static
    requires { length payload.now ≡ 19 }
    ensures { result ≡ value_in static_format payload.now }
{
    Static {
        icao: field_layout::little_24(payload, 0),
        integrity: field_layout::octet(payload, 3),
        stall_speed: field_layout::little_16(payload, 4),
        callsign: field_layout::text_at(payload, 6),
        capability: field_layout::octet(payload, 14),
        emitter: field_layout::octet(payload, 15),
        alw_encode: field_layout::octet(payload, 16),
        gps_lat_offs: field_layout::octet(payload, 17),
        gps_lon_offs: field_layout::octet(payload, 18),
    }
}

pub fn in_range(static_data: Static) -> bool
    ensures { result ≡ static_format.ranges static_data }
{
    super::ranges::static_fits(
        static_data.icao,
        static_data.callsign,
        static_data.capability,
        static_data.emitter,
        static_data.alw_encode,
        static_data.gps_lat_offs,
        static_data.gps_lon_offs,
    )
}

pub fn octets(static_data: Static) -> [u8; 19]
    requires { static_data.icao < 16777216 }
    ensures { result ≡ body_of static_format static_data }
{
    let address = static_data.icao.to_le_bytes();
    let mut octets = [0; 19];
    octets[0..3].copy_from_slice(&address[0..3]);
    octets[3] = static_data.integrity;
    octets[4..6].copy_from_slice(&static_data.stall_speed.to_le_bytes());
    octets[6..14].copy_from_slice(&field_layout::text_octets(static_data.callsign));
    octets[14] = static_data.capability;
    octets[15] = static_data.emitter;
    octets[16] = static_data.alw_encode;
    octets[17] = static_data.gps_lat_offs;
    octets[18] = static_data.gps_lon_offs;
    octets
}
