// The rule of a padded text, each octet by itself and the next: no step waits for another.
ghost use Rattle.std.specs.Prelude.{◌≡◌, ◌+◌, ◌≤◌, length};
ghost use Rattle.field_layout.specs.Layout.{text_at, text_octets};
ghost use Rattle.field_texts.specs.Text.{is_padded};
ghost use Rattle.field_texts.specs.Pairs.{goes_on};

fn goes_on(c: u8, next: u8) -> bool
    ensures { result ≡ goes_on c next }
{
    super::is_letter_or_digit(c) | (c == 0x20) & (next == 0x20)
}

// Whether the eight octets from a place on are of 0 to 9 and A to Z, with spaces only at their end.
pub fn is_padded_at(octets: &[u8], at: usize) -> bool
    requires { at + 8 ≤ length octets.now }
    ensures { result ≡ is_padded (text_octets (text_at octets.now at)) }
{
    let c1 = octets[at + 1];
    let c2 = octets[at + 2];
    let c3 = octets[at + 3];
    let c4 = octets[at + 4];
    let c5 = octets[at + 5];
    let c6 = octets[at + 6];
    let c7 = octets[at + 7];
    let last = goes_on(c6, c7) & goes_on(c7, 0x20);
    let half = goes_on(c3, c4) & (goes_on(c4, c5) & (goes_on(c5, c6) & last));
    goes_on(octets[at], c1) & (goes_on(c1, c2) & (goes_on(c2, c3) & half))
}
