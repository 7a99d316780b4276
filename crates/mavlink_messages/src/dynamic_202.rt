// Message 202, the dynamic data of an aircraft.
ghost use Rattle.std.specs.Prelude.{◌≡◌, length};
ghost use Rattle.field_format.specs.Format.{body_of, value_in};
ghost use Rattle.mavlink_messages.specs.Dynamic202.{dynamic_format};

use super::Dynamic;

pub fn read(payload: &[u8]) -> Dynamic
    requires { length payload.now ≡ 42 }
    ensures { result ≡ value_in dynamic_format payload.now }
{
    Dynamic {
        utc_time: field_layout::little_32(payload, 0),
        latitude: field_signed::signed_32(field_layout::little_32(payload, 4)),
        longitude: field_signed::signed_32(field_layout::little_32(payload, 8)),
        alt_pres: field_signed::signed_32(field_layout::little_32(payload, 12)),
        alt_gnss: field_signed::signed_32(field_layout::little_32(payload, 16)),
        acc_horiz: field_layout::little_32(payload, 20),
        acc_vert: field_layout::little_16(payload, 24),
        acc_vel: field_layout::little_16(payload, 26),
        vel_vert: field_signed::signed_16(field_layout::little_16(payload, 28)),
        ns_vog: field_signed::signed_16(field_layout::little_16(payload, 30)),
        ew_vog: field_signed::signed_16(field_layout::little_16(payload, 32)),
        state: field_layout::little_16(payload, 34),
        squawk: field_layout::little_16(payload, 36),
        fix_type: field_layout::octet(payload, 38),
        num_sats: field_layout::octet(payload, 39),
        em_status: field_layout::octet(payload, 40),
        control: field_layout::octet(payload, 41),
    }
}

pub fn in_range(dynamic: Dynamic) -> bool
    ensures { result ≡ dynamic_format.ranges dynamic }
{
    super::ranges::dynamic_fits(dynamic.squawk, dynamic.fix_type)
}

pub fn octets(dynamic: Dynamic) -> [u8; 42]
    ensures { result ≡ body_of dynamic_format dynamic }
{
    let mut octets = [0; 42];
    octets[0..4].copy_from_slice(&dynamic.utc_time.to_le_bytes());
    octets[4..8].copy_from_slice(&dynamic.latitude.to_le_bytes());
    octets[8..12].copy_from_slice(&dynamic.longitude.to_le_bytes());
    octets[12..16].copy_from_slice(&dynamic.alt_pres.to_le_bytes());
    octets[16..20].copy_from_slice(&dynamic.alt_gnss.to_le_bytes());
    octets[20..24].copy_from_slice(&dynamic.acc_horiz.to_le_bytes());
    octets[24..26].copy_from_slice(&dynamic.acc_vert.to_le_bytes());
    octets[26..28].copy_from_slice(&dynamic.acc_vel.to_le_bytes());
    octets[28..30].copy_from_slice(&dynamic.vel_vert.to_le_bytes());
    octets[30..32].copy_from_slice(&dynamic.ns_vog.to_le_bytes());
    octets[32..34].copy_from_slice(&dynamic.ew_vog.to_le_bytes());
    octets[34..36].copy_from_slice(&dynamic.state.to_le_bytes());
    octets[36..38].copy_from_slice(&dynamic.squawk.to_le_bytes());
    octets[38] = dynamic.fix_type;
    octets[39] = dynamic.num_sats;
    octets[40] = dynamic.em_status;
    octets[41] = dynamic.control;
    octets
}
