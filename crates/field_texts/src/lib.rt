// The two rules for a text, each in one place.
#![tactic(auto)]

pub mod each;
pub mod pairs;

ghost use Rattle.std.specs.Prelude.{◌≡◌, ◌||◌};
ghost use Rattle.field_texts.specs.Text.{is_letter_or_digit, is_space, is_padded, is_spaced};

// Whether an octet is 0 to 9 or A to Z.
fn is_letter_or_digit(c: u8) -> bool
    ensures { result ≡ is_letter_or_digit c }
{
    (0x30 <= c) & (c <= 0x39) | (0x41 <= c) & (c <= 0x5A)
}

// Whether an octet is 0 to 9, A to Z or a space.
fn is_spaced_octet(c: u8) -> bool
    ensures { result ≡ (is_letter_or_digit c || is_space c) }
{
    is_letter_or_digit(c) | (c == 0x20)
}

// Whether a text is of 0 to 9 and A to Z, with spaces only at its end.
pub fn is_padded(text: &[u8]) -> bool
    ensures { result ≡ is_padded text.now }
{
    text.iter()
        .rev()
        .skip_while(|c| **c == 0x20)
        .all(|c| is_letter_or_digit(*c))
}

// Whether a text is of 0 to 9, A to Z and spaces.
pub fn is_spaced(text: &[u8]) -> bool
    ensures { result ≡ is_spaced text.now }
{
    // Each octet is tested, behind one that fails too: compiled, a text of eight then needs no branch at each.
    let mut spaced = true;
    for octet in text {
        spaced = spaced & is_spaced_octet(*octet);
    }
    spaced
}
