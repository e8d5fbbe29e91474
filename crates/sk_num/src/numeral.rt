// Whole numbers written in digits.

ghost use Rattle.std.specs.Prelude.{◌≡◌, ◌*◌, ◌^◌, ◌≤◌, min, option_map, Some};
ghost use Rattle.sk_num.specs.Numerals.{numeral, padded};

use crate::draft::Draft;

/// The number that one or more digits of the base write, or `most` where it is greater.
///
/// None exactly where another byte stands, or none at all.
pub fn read_numeral(digits: &[u8], base: u32, most: u64) -> Option<u64>
    requires least { 2 ≤ base }
    requires greatest { base ≤ 16 }
    requires room { most ≤ 10 ^ 18 }
    ensures { result ≡ option_map (λ n. min n most) (numeral base digits.now) }
{
    if digits.is_empty() {
        return None;
    }
    let mut value: u64 = 0;
    for byte in digits {
        let digit = char::from(*byte).to_digit(base)?;
        value = (value * u64::from(base) + u64::from(digit)).min(most);
    }
    Some(value)
}

/// The number in eight hexadecimal digits, letters in lower case.
pub fn hexadecimal_text(n: u32) -> [u8; 8]
    ensures text { result ≡ padded 16 8 n }
    ensures read_back { numeral 16 result ≡ Some n }
{
    let mut draft = Draft::new();
    draft.push_padded(16, 8, u128::from(n));
    let (bytes, _) = draft.into_parts();
    let mut text = [0; 8];
    text.copy_from_slice(&bytes[..8]);
    text
}
