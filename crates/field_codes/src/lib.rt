// The ranges of coded fields that several messages share, each in one place.
#![tactic(auto)]

ghost use Rattle.std.specs.Prelude.{◌≡◌};
ghost use Rattle.field_codes.specs.Codes.{is_squawk, is_emitter, is_size_code};

// One, its decimal parts and 0.8, in parts of 2^32, rounded up.
const ONE: u64 = 4294967296;

const THOUSANDTH: u64 = 4294968;

const HUNDREDTH: u64 = 42949673;

const TENTH: u64 = 429496730;

const EIGHT_TENTHS: u64 = 3435973837;

// Whether a number is a Mode A code. The first digit behind the point is at most 7 where the fraction is below 0.8: 1280 hundredths are
// 12.80, so 1280 is no code. A product for each digit is quicker than divisions.
pub fn is_squawk(code: u16) -> bool
    ensures { result ≡ is_squawk code }
{
    let number = code as u64;
    (number <= 7777)
        & (number * THOUSANDTH % ONE < EIGHT_TENTHS)
        & (number * HUNDREDTH % ONE < EIGHT_TENTHS)
        & (number * TENTH % ONE < EIGHT_TENTHS)
}

// Whether a number is an emitter category.
#[tactic(auto, unfolding(crate::specs::Codes::is_emitter))]
pub fn is_emitter(category: u8) -> bool
    ensures { result ≡ is_emitter category }
{
    category <= 21
}

// Whether a number is a code of the aircraft's length and width.
#[tactic(auto, unfolding(crate::specs::Codes::is_size_code))]
pub fn is_size_code(code: u8) -> bool
    ensures { result ≡ is_size_code code }
{
    code <= 15
}
