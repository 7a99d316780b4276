// The rule of a spaced text at a place, each octet by itself: no step waits for another.
ghost use Rattle.std.specs.Prelude.{◌≡◌, ◌+◌, ◌≤◌, length};
ghost use Rattle.field_layout.specs.Layout.{text_at, text_octets};
ghost use Rattle.field_texts.specs.Text.{is_spaced};

use super::is_spaced_octet;

// Whether the eight octets from a place on are of 0 to 9, A to Z and spaces.
pub fn is_spaced_at(octets: &[u8], at: usize) -> bool
    requires { at + 8 ≤ length octets.now }
    ensures { result ≡ is_spaced (text_octets (text_at octets.now at)) }
{
    let last = is_spaced_octet(octets[at + 6]) & is_spaced_octet(octets[at + 7]);
    let half = is_spaced_octet(octets[at + 4]) & (is_spaced_octet(octets[at + 5]) & last);
    let behind = is_spaced_octet(octets[at + 2]) & (is_spaced_octet(octets[at + 3]) & half);
    is_spaced_octet(octets[at]) & (is_spaced_octet(octets[at + 1]) & behind)
}
