ghost use Rattle.std.specs.Prelude.{◌≡◌, ℕ, ◌≤◌, ◌<◌, ◌^◌, ◌*ℤ◌, ℤ, pos, take, slice_index, IfSome, IfOk, Ok};
ghost use Rattle.sk_num.specs.Decimals.{decimal_of};
ghost use Rattle.sk_num.specs.Division.{IsNearest};
ghost use Rattle.sk_num.specs.Numerals.{padded};
ghost use Rattle.sk_num.specs.Limit.{IsInLimit};
ghost use Rattle.sk_num.specs.Scale.{IsScale};
ghost use Rattle.sk_num.specs.Spelling.{numerator, quantity_of, quantity_text, QuantityLaw, handle_of, whole_of};
ghost use Rattle.sk_num.specs.DecimalUnits.{magnitude_at, decimal_at};

use crate::decimal::{Decimal, decimal_text, read_decimal};
use crate::fault::NumFault;
use crate::grid::{Grid, unsigned_one};
use crate::numeral::{hexadecimal_text, read_numeral};
use crate::rounding::signed_grid;

/// How many decimals a quantity text has, as a power of ten.
const DECIMALS: u128 = 100_000_000_000_000_000_000;

/// A whole part from here on is past the limit at every scale.
const MOST: u64 = 1_000_000_000;

/// The text of a quantity: the first `len` bytes, behind which every byte is 0.
#[derive(Clone, Copy, Debug)]
pub struct QuantityText {
    /// The text, padded.
    pub bytes: [u8; 40],
    /// The length of the text.
    pub len: u8,
}

/// The number of a quantity text: a minus or none, decimal digits, and a point with digits or
/// none. It is cut to 20 decimals and rounded to the nearest unit, halves away from zero.
///
/// BadNumber exactly where the text has another form, OutOfGrid exactly where the form is right
/// and the rounded number passes the limit.
#[tactic(auto, unfolding(crate::specs::Spelling::quantity_of))]
pub fn read_quantity<const S: u32>(t: &[u8]) -> Result<Grid<S>, NumFault>
    requires { IsScale S }
    ensures value { result ≡ quantity_of S t.now }
    // the number of the text, N / 10^20, is N 2^S / 10^20 units, and what is answered is nearest to it
    ensures nearest { IfSome (decimal_of t.now) (λ d. IfOk result (λ g.
        IsNearest (numerator d *ℤ pos (2 ^ S)) (pos (10 ^ 20)) g)) }
{
    let d = read_decimal(t, MOST).ok_or(NumFault::BadNumber)?;
    let magnitude = rounded_units::<S>(&d);
    signed_grid(d.negative, magnitude).ok_or(NumFault::OutOfGrid)
}

// How many units are nearest to the number without its sign, halves up.
fn rounded_units<const S: u32>(d: &Decimal) -> u128
    requires scale { IsScale S }
    requires whole { d.now.whole ≤ 10 ^ 9 }
    requires decimals { d.now.decimals < 10 ^ 20 }
    ensures { result ≡ magnitude_at S d.now }
{
    let one = unsigned_one::<S>();
    let scaled = d.decimals * one;
    u128::from(d.whole) * one + (2 * scaled + DECIMALS) / (2 * DECIMALS)
}

/// The text of a number with 20 decimals, rounded to the nearest, halves away from zero: a minus
/// or none, the whole part without leading zeros, a point, the decimals.
pub fn quantity_text<const S: u32>(g: Grid<S>) -> QuantityText
    requires { IsScale S }
    ensures text { take result.len result.bytes ≡ quantity_text S g.entry }
    ensures short { result.len ≤ 40 }
    ensures rest { (k : ℕ) → result.len ≤ k → slice_index result.bytes k ≡ 0 }
    // g 2^-S is g 10^20 / 2^S times 10^-20, and the number that the text writes is nearest to it
    ensures nearest { IfSome (decimal_of (take result.len result.bytes)) (λ d.
        IsNearest (g.entry *ℤ pos (10 ^ 20)) (pos (2 ^ S)) (numerator d)) }
    ensures read_back { quantity_of S (take result.len result.bytes) ≡ Ok g.entry }
{
    let d = nearest_decimal(g);
    let (bytes, len) = decimal_text(&d);
    QuantityText { bytes, len }
}

/// What is written of a grid number reads back as it: a law, of every grid number. The function
/// does nothing when it runs.
pub fn quantity_law()
    ensures { QuantityLaw }
{}

// The decimal number nearest to a grid number, halves away from zero.
fn nearest_decimal<const S: u32>(g: Grid<S>) -> Decimal
    requires { IsScale S }
    ensures value { result ≡ decimal_at S g.entry }
    ensures whole { result.whole < 10 ^ 18 }
    ensures decimals { result.decimals < 10 ^ 20 }
    ensures fits { IsInLimit g.entry }
{
    let units = g.units();
    let one = unsigned_one::<S>();
    let magnitude = u128::from(units.unsigned_abs());
    let scaled = magnitude % one * DECIMALS;
    Decimal {
        negative: units < 0,
        whole: (magnitude / one) as u64,
        decimals: (2 * scaled + one) / (2 * one),
    }
}

/// The number of one to eight hexadecimal digits of either case; BadNumber exactly where the text
/// isn't that.
#[tactic(auto, unfolding(crate::specs::Spelling::handle_of))]
pub fn read_handle(t: &[u8]) -> Result<u32, NumFault>
    ensures { result ≡ handle_of t.now }
{
    if t.len() > 8 {
        return Err(NumFault::BadNumber);
    }
    let handle = read_numeral(t, 16, 1 << 32).ok_or(NumFault::BadNumber)?;
    Ok(handle as u32)
}

/// The handle in eight hexadecimal digits, letters in lower case.
pub fn handle_text(h: u32) -> [u8; 8]
    ensures text { result ≡ padded 16 8 h }
    ensures read_back { handle_of result ≡ Ok h }
{
    hexadecimal_text(h)
}

/// The number of a minus or none and one or more decimal digits. BadNumber exactly where the text
/// has another form, OutOfGrid exactly where the form is right and the number isn't in 32 bits.
#[tactic(auto, unfolding(crate::specs::Spelling::whole_of))]
pub fn read_whole(t: &[u8]) -> Result<i32, NumFault>
    ensures { result ≡ whole_of t.now }
{
    let (negative, digits) = match t {
        [b'-', rest @ ..] => (true, rest),
        _ => (false, t),
    };
    let magnitude = read_numeral(digits, 10, 1 << 32).ok_or(NumFault::BadNumber)? as i64;
    let number = if negative { -magnitude } else { magnitude };
    i32::try_from(number).map_err(|_| NumFault::OutOfGrid)
}
