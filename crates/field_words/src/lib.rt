// Eight octets of a slice as one number: compiled, one load, and one swap where the first octet is the most significant.
#![tactic(auto)]

pub mod copies;

ghost use Rattle.std.specs.Prelude.{◌≡◌, [], ◌∷◌, ◌+◌, ◌≤◌, length, take, drop};
ghost use Rattle.std.proofs.lemmas.List.Edits.{sets};
ghost use Rattle.field_words.specs.Words.{octets_up, octets_down};

// Least significant octet first.
pub fn little_64(octets: &[u8], at: usize) -> u64
    requires { at + 8 ≤ length octets.now }
    ensures { octets_up 8 result ≡ take 8 (drop at octets.now) }
{
    word(octets[at..at + 8].try_into().unwrap())
}

// Eight octets, the first least significant.
pub fn word(octets: [u8; 8]) -> u64
    ensures { octets_up 8 result ≡ octets }
{
    u64::from_le_bytes(octets)
}

// The same of octets that lie apart.
pub fn word_of(a: u8, b: u8, c: u8, d: u8, e: u8, f: u8, g: u8, h: u8) -> u64
    ensures { octets_up 8 result ≡ a ∷ b ∷ c ∷ d ∷ e ∷ f ∷ g ∷ h ∷ [] }
{
    word([a, b, c, d, e, f, g, h])
}

// The octets of a number turned round.
pub fn turned(word: u64) -> u64
    ensures { octets_down 8 result [] ≡ octets_up 8 word }
{
    word.swap_bytes()
}

// Most significant octet first.
pub fn big_64(octets: &[u8], at: usize) -> u64
    requires { at + 8 ≤ length octets.now }
    ensures { octets_down 8 result [] ≡ take 8 (drop at octets.now) }
{
    turned(little_64(octets, at))
}

// Puts eight octets at a place of output, the least significant first: compiled, one store.
pub fn put_64(output: &mut [u8], at: usize, word: u64)
    requires { at + 8 ≤ length output.old }
    ensures { output.new ≡ sets output.old at (octets_up 8 word) }
{
    output[at..at + 8].copy_from_slice(&word.to_le_bytes());
}
