//! Numbers, read from their digits.

ghost use Rattle.std.specs.Prelude.{◌≡◌, ◌≤◌};
ghost use Rattle.mi_text.specs.Number.{value_from, digits_number, number_of};

/// The number with these digits behind it.
#[tactic(auto, unfolding(crate::specs::Number::value_from))]
fn value_from(base: u32, so_far: u32, digits: &[u8]) -> Option<u32>
    requires two { 2 ≤ base }
    requires sixteen { base ≤ 16 }
    ensures { result ≡ value_from base so_far digits.now }
{
    let mut value = so_far;
    for digit in digits {
        let digit = char::from(*digit).to_digit(base)?;
        value = u32::try_from(u64::from(base) * u64::from(value) + u64::from(digit)).ok()?;
    }
    Some(value)
}

/// The number of one or more digits of a base, below 2^32.
pub fn digits_number(base: u32, digits: &[u8]) -> Option<u32>
    requires two { 2 ≤ base }
    requires sixteen { base ≤ 16 }
    ensures { result ≡ digits_number base digits.now }
{
    if digits.is_empty() {
        return None;
    }
    value_from(base, 0, digits)
}

/// The number of a word: decimal, or hexadecimal behind `0x`, below 2^32.
pub fn number_of(word: &[u8]) -> Option<u32>
    ensures { result ≡ number_of word.now }
{
    match word {
        [b'0', b'x', digits @ ..] => digits_number(16, digits),
        _ => digits_number(10, word),
    }
}
