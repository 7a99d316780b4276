// The frame check sequence of GDL90: by a table of 256 entries, and by shifts.
#![tactic(auto)]

ghost use Rattle.std.specs.Prelude.{◌≡◌, [], ◌++◌, ◌+◌, ◌-◌, ◌%◌, ◌<◌, ◌≤◌, length, take, drop};
ghost use Rattle.field_words.specs.Words.{octets_down};
ghost use Rattle.crc_gdl90.specs.Check.{frame_check, IsTable};
ghost use Rattle.crc_gdl90.specs.Steps.{by_table, by_shifts, two_by_shifts, eight_by_shifts};
ghost use Rattle.crc_polynomial.specs.Polynomial.{bits_of, bits_of_octets, divided};

// For each octet, the remainder of that octet followed by 16 zero bits.
const TABLE: [u16; 256] = [
    0x0000, 0x1021, 0x2042, 0x3063, 0x4084, 0x50A5, 0x60C6, 0x70E7, 0x8108, 0x9129, 0xA14A, 0xB16B,
    0xC18C, 0xD1AD, 0xE1CE, 0xF1EF, 0x1231, 0x0210, 0x3273, 0x2252, 0x52B5, 0x4294, 0x72F7, 0x62D6,
    0x9339, 0x8318, 0xB37B, 0xA35A, 0xD3BD, 0xC39C, 0xF3FF, 0xE3DE, 0x2462, 0x3443, 0x0420, 0x1401,
    0x64E6, 0x74C7, 0x44A4, 0x5485, 0xA56A, 0xB54B, 0x8528, 0x9509, 0xE5EE, 0xF5CF, 0xC5AC, 0xD58D,
    0x3653, 0x2672, 0x1611, 0x0630, 0x76D7, 0x66F6, 0x5695, 0x46B4, 0xB75B, 0xA77A, 0x9719, 0x8738,
    0xF7DF, 0xE7FE, 0xD79D, 0xC7BC, 0x48C4, 0x58E5, 0x6886, 0x78A7, 0x0840, 0x1861, 0x2802, 0x3823,
    0xC9CC, 0xD9ED, 0xE98E, 0xF9AF, 0x8948, 0x9969, 0xA90A, 0xB92B, 0x5AF5, 0x4AD4, 0x7AB7, 0x6A96,
    0x1A71, 0x0A50, 0x3A33, 0x2A12, 0xDBFD, 0xCBDC, 0xFBBF, 0xEB9E, 0x9B79, 0x8B58, 0xBB3B, 0xAB1A,
    0x6CA6, 0x7C87, 0x4CE4, 0x5CC5, 0x2C22, 0x3C03, 0x0C60, 0x1C41, 0xEDAE, 0xFD8F, 0xCDEC, 0xDDCD,
    0xAD2A, 0xBD0B, 0x8D68, 0x9D49, 0x7E97, 0x6EB6, 0x5ED5, 0x4EF4, 0x3E13, 0x2E32, 0x1E51, 0x0E70,
    0xFF9F, 0xEFBE, 0xDFDD, 0xCFFC, 0xBF1B, 0xAF3A, 0x9F59, 0x8F78, 0x9188, 0x81A9, 0xB1CA, 0xA1EB,
    0xD10C, 0xC12D, 0xF14E, 0xE16F, 0x1080, 0x00A1, 0x30C2, 0x20E3, 0x5004, 0x4025, 0x7046, 0x6067,
    0x83B9, 0x9398, 0xA3FB, 0xB3DA, 0xC33D, 0xD31C, 0xE37F, 0xF35E, 0x02B1, 0x1290, 0x22F3, 0x32D2,
    0x4235, 0x5214, 0x6277, 0x7256, 0xB5EA, 0xA5CB, 0x95A8, 0x8589, 0xF56E, 0xE54F, 0xD52C, 0xC50D,
    0x34E2, 0x24C3, 0x14A0, 0x0481, 0x7466, 0x6447, 0x5424, 0x4405, 0xA7DB, 0xB7FA, 0x8799, 0x97B8,
    0xE75F, 0xF77E, 0xC71D, 0xD73C, 0x26D3, 0x36F2, 0x0691, 0x16B0, 0x6657, 0x7676, 0x4615, 0x5634,
    0xD94C, 0xC96D, 0xF90E, 0xE92F, 0x99C8, 0x89E9, 0xB98A, 0xA9AB, 0x5844, 0x4865, 0x7806, 0x6827,
    0x18C0, 0x08E1, 0x3882, 0x28A3, 0xCB7D, 0xDB5C, 0xEB3F, 0xFB1E, 0x8BF9, 0x9BD8, 0xABBB, 0xBB9A,
    0x4A75, 0x5A54, 0x6A37, 0x7A16, 0x0AF1, 0x1AD0, 0x2AB3, 0x3A92, 0xFD2E, 0xED0F, 0xDD6C, 0xCD4D,
    0xBDAA, 0xAD8B, 0x9DE8, 0x8DC9, 0x7C26, 0x6C07, 0x5C64, 0x4C45, 0x3CA2, 0x2C83, 0x1CE0, 0x0CC1,
    0xEF1F, 0xFF3E, 0xCF5D, 0xDF7C, 0xAF9B, 0xBFBA, 0x8FD9, 0x9FF8, 0x6E17, 0x7E36, 0x4E55, 0x5E74,
    0x2E93, 0x3EB2, 0x0ED1, 0x1EF0,
];

// The table by value: an index into the constant itself would copy it at each access, so a caller takes it once and lends it to its loop.
fn table() -> [u16; 256]
    ensures { IsTable result }
{
    TABLE
}

// The running remainder, one octet further, by the table that is lent.
fn next_check(table: &[u16; 256], check: u16, octet: u8) -> u16
    requires { IsTable table.now }
    ensures { (result ≡ divided check (bits_of 8 octet)) × (result ≡ by_table table.now check octet) }
{
    table[(check / 256) as usize] ^ ((check % 256) * 256 + octet as u16)
}

// The frame check sequence of a body of any length.
pub fn frame_check(body: &[u8]) -> u16
    ensures { result ≡ frame_check body.now }
{
    let table = table();
    let mut check: u16 = 0;
    for octet in body {
        check = next_check(&table, check, *octet);
    }
    check
}

// The running remainder, one octet further, by shifts.
pub fn next_check_octet(check: u16, octet: u8) -> u16
    ensures { (result ≡ divided check (bits_of 8 octet)) × (result ≡ by_shifts check octet) }
{
    let high = check >> 8;
    let fold = high ^ (high >> 4);
    fold ^ (fold << 5) ^ (fold << 12) ^ (check << 8) ^ octet as u16
}

// The running remainder, two octets further, by shifts. A caller that has other work at each octet takes this one: it needs
// no table, which a call would copy to its stack, and two octets at once halve the chain of steps that wait for each other.
pub fn next_check_pair(check: u16, first: u8, second: u8) -> u16
    ensures { (result ≡ divided check (bits_of 8 first ++ bits_of 8 second)) × (result ≡ two_by_shifts check first second) }
{
    let r = check as u32;
    let q = r ^ (r / 16) ^ (r / 256) ^ (r / 2048) ^ (r / 4096);
    let left = (q ^ (q * 32) ^ (q * 4096)) % 65536;
    (left ^ ((first as u32) * 256 + second as u32)) as u16
}

// The running remainder, eight octets further, the most significant first: sixty-four places by shifts of 64 bits.
pub fn next_check_eight(check: u16, word: u64) -> u16
    ensures { (result ≡ divided check (bits_of_octets (octets_down 8 word []))) × (result ≡ eight_by_shifts check word) }
{
    let joined = ((check as u64) << 48) ^ (word >> 16);
    let a = joined ^ (joined >> 32);
    let b = a ^ (a >> 16) ^ (a >> 44);
    let c = b ^ (b >> 8) ^ (b >> 22) ^ (b >> 32);
    let q = c ^ (c >> 4) ^ (c >> 11) ^ (c >> 16);
    ((q ^ (q << 5) ^ (q << 12) ^ word) % 65536) as u16
}

// The frame check sequence by shifts alone, for a receiver that has no room for a table.
pub fn frame_check_by_shifts(body: &[u8]) -> u16
    ensures { result ≡ frame_check body.now }
{
    let start = head_length(body.len());
    check_words(&body[start..], head_check(body, start))
}

// How many octets to take first, of so many: one or two, so that an even number is left.
pub fn head_length(octets: usize) -> usize
    ensures { (result ≤ 2) × (result ≤ octets) × ((octets - result) % 2 ≡ 0) × (octets ≡ 0 → result ≡ 0) × (0 < octets → result + octets % 2 ≡ 2) }
{
    if octets == 0 { 0 } else { 2 - octets % 2 }
}

// The check of the first octets, at most two: they are their own check.
pub fn head_check(body: &[u8], octets: usize) -> u16
    requires { (octets ≤ 2) × (octets ≤ length body.now) }
    ensures { result ≡ divided 0 (bits_of_octets (take octets body.now)) }
{
    if octets == 0 {
        return 0;
    }
    if octets == 1 {
        return wide(body[0]);
    }
    wide(body[0]) * 256 + wide(body[1])
}

fn wide(octet: u8) -> u16
    ensures { (result ≡ octet) × (result < 256) }
{
    octet as u16
}

// The check of octets that follow others, an even number of them. The check is that of those before.
fn check_words(octets: &[u8], check: u16) -> u16
    requires { length octets.now % 2 ≡ 0 }
    ensures { result ≡ divided check (bits_of_octets octets.now) }
{
    let (words, rest) = octets.as_chunks::<8>();
    let mut check = check;
    for word in words {
        check = next_check_eight(check, field_words::turned(field_words::word(*word)));
    }
    check_pairs(rest, check)
}

// The same, two octets at a time.
fn check_pairs(octets: &[u8], check: u16) -> u16
    requires { length octets.now % 2 ≡ 0 }
    ensures { result ≡ divided check (bits_of_octets octets.now) }
{
    let (pairs, _) = octets.as_chunks::<2>();
    let mut check = check;
    for pair in pairs {
        check = next_check_pair(check, pair[0], pair[1]);
    }
    check
}
