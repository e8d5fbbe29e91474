// Decimal numbers with a point.

ghost use Rattle.std.specs.Prelude.{◌≡◌, ◌+◌, ◌*◌, ◌^◌, ◌≤◌, ◌<◌, length, option_map, option_copied, take, slice_index, IfSome, Option, Some, ℕ};
ghost use Rattle.std.specs.Fmt.{decimal};
ghost use Rattle.sk_num.specs.Decimals.{decimals_of, at_point, decimal_of, at_most, decimal_text};

use crate::draft::Draft;
use crate::numeral::read_numeral;

/// A decimal number as its text writes it, cut to 20 decimals.
#[derive(Clone, Copy, Debug, PartialEq, Eq)]
pub struct Decimal {
    /// Whether a minus stands first.
    pub negative: bool,
    /// The whole part.
    pub whole: u64,
    /// The first 20 decimals, in units of 10^-20.
    pub decimals: u128,
}

/// The decimal number that a text writes, its whole part cut down to `most`.
///
/// A text is an optional minus, one digit or more, and optionally a point with one digit or more.
/// None exactly where the text has another form. Digits past the twentieth decimal are cut off.
pub fn read_decimal(text: &[u8], most: u64) -> Option<Decimal>
    requires { most ≤ 10 ^ 18 }
    ensures number { result ≡ option_map (at_most most) (decimal_of text.now) }
    ensures within { IfSome result (λ d. (d.whole ≤ most) × (d.decimals < 10 ^ 20)) }
{
    let (negative, unsigned) = match text {
        [b'-', rest @ ..] => (true, rest),
        _ => (false, text),
    };
    let (front, back) = split_at_point(unsigned);
    let whole = read_numeral(front, 10, most)?;
    let decimals = match back {
        Some(digits) => read_decimals(digits)?,
        None => 0,
    };
    Some(Decimal {
        negative,
        whole,
        decimals,
    })
}

/// The text of the number with all 20 decimals: the bytes, those behind the text being 0, and its length.
pub fn decimal_text(d: &Decimal) -> ([u8; 40], u8)
    requires { d.now.whole < 10 ^ 18 }
    ensures text { take result.1 result.0 ≡ decimal_text d.now }
    ensures short { result.1 ≤ 40 }
    ensures rest { (k : ℕ) → result.1 ≤ k → slice_index result.0 k ≡ 0 }
    ensures read_back { d.now.decimals < 10 ^ 20 → decimal_of (take result.1 result.0) ≡ Some d.now }
{
    let mut draft = Draft::new();
    draft.push_sign(d.negative);
    draft.push_decimal(d.whole);
    draft.push(b'.');
    draft.push_padded(10, 20, d.decimals);
    draft.into_parts()
}

// What stands before the first point, and what follows it where there is one.
fn split_at_point(text: &[u8]) -> (&[u8], Option<&[u8]>)
    ensures front { result.0.now ≡ (at_point text.now).front }
    ensures back { option_copied result.1 ≡ (at_point text.now).back }
{
    for (i, byte) in text.iter().enumerate() {
        if *byte == b'.' {
            return (&text[..i], Some(&text[i + 1..]));
        }
    }
    (text, None)
}

// The first 20 decimals that the digits write, in units of 10^-20.
fn read_decimals(digits: &[u8]) -> Option<u128>
    ensures number { result ≡ decimals_of (Some digits.now) }
    ensures within { IfSome result (λ n. n < 10 ^ 20) }
{
    if digits.is_empty() {
        return None;
    }
    let mut value: u128 = 0;
    let mut weight: u128 = 10u128.pow(20);
    for byte in digits {
        let digit = char::from(*byte).to_digit(10)?;
        weight /= 10;
        value += u128::from(digit) * weight;
    }
    Some(value)
}
