//! The cosine of an angle in degrees, enclosed by a span, at every scale of the project.
//!
//! The angle is folded to 0 to 90 degrees; its radian and the square of that are bounded by two
//! bounds of pi; the Taylor sum of degree 22 at the greater square is below the cosine, that of
//! degree 20 at the lesser one above it. Everything in between is a whole number of 2^-60, rounded
//! outward.
#![tactic(auto)]

ghost use Rattle.std.specs.Prelude.{◌≡◌, ◌↔◌, ◌^◌, ◌<◌, ◌≤◌, ◌+◌, ◌-◌, ◌*◌, ℤ, pos, neg_ℤ, ◌-ℤ◌, ◌+ℤ◌, ◌*ℤ◌, ◌≤ℤ◌, unsigned_abs, IsErr, IfOk};
ghost use Rattle.sk_num.specs.Division.{floor_by, ceil_by};
ghost use Rattle.sk_num.specs.Scale.{IsScale};
ghost use Rattle.sk_num.specs.Limit.{IsInLimit};
ghost use Rattle.sk_num.specs.Ends.{Ends};
ghost use Rattle.sk_cosine.specs.Rule.{quotient_up, within_half, within_quarter, folded, is_turned, pi_digits, radian_unit, radian_low, radian_high, square_low, square_high, divisor, part_down, part_up, ends, bracket, brackets, taylor, folded_ends, turn, cosine_ends};
ghost use Rattle.sk_cosine.specs.Cut.{CosineCut, NarrowerLaw};

use sk_num::{Grid, Span};

/// An angle of more than 360 degrees.
#[derive(Clone, Copy, Debug, PartialEq, Eq)]
pub struct BadAngle;

/// Pi lies between this number and the next, each over 10^20.
const PI_DIGITS: u128 = 314159265358979323846;

/// 9 * 5^21: so many units of 2^-36 degree, times pi's 21 digits, are four units of 2^-60 of the
/// radian (180 * 10^20 = 9 * 5^21 * 2^22).
const RADIAN_UNIT: u128 = 4291534423828125;

/// How many units are one degree.
fn degree<const S: u32>() -> u128
    requires { IsScale S }
    ensures value { result ≡ 2 ^ S }
    ensures small { 2 ^ S ≤ 2 ^ 44 }
    ensures large { 2 ^ 36 ≤ 2 ^ S }
{
    1u128 << S
}

/// An angle from 0 to 90 degrees, and whether the cosine is its own with the other sign.
#[derive(Clone, Copy)]
struct Folded {
    angle: u128,
    turned: bool,
}

/// The angle, or 360 degrees less it where it is over 180.
fn half<const S: u32>(d: u128) -> u128
    requires scale { IsScale S }
    requires in_turn { d ≤ 360 * 2 ^ S }
    ensures value { result ≡ within_half S d }
    ensures fits { result ≤ 180 * 2 ^ S }
{
    let one = degree::<S>();
    if d <= 180 * one { d } else { 360 * one - d }
}

fn fold<const S: u32>(d: u128) -> Folded
    requires scale { IsScale S }
    requires in_turn { d ≤ 360 * 2 ^ S }
    ensures angle { result.angle ≡ folded S d }
    ensures turned { result.turned ≡ is_turned S d }
    ensures fits { result.angle ≤ 90 * 2 ^ S }
{
    let one = degree::<S>();
    let h = half::<S>(d);
    if h <= 90 * one {
        Folded {
            angle: h,
            turned: false,
        }
    } else {
        Folded {
            angle: 180 * one - h,
            turned: true,
        }
    }
}

/// The quotient, rounded up.
fn up(a: u128, k: u128) -> u128
    requires a_in { a ≤ 2 ^ 126 }
    requires k_in { k ≤ 2 ^ 126 }
    requires not_zero { 0 < k }
    ensures { result ≡ quotient_up a k }
{
    (a + (k - 1)) / k
}

/// How many units of the angle, times the digits of pi, are four units of the radian.
fn unit<const S: u32>() -> u128
    requires scale { IsScale S }
    ensures value { result ≡ radian_unit S }
    ensures small { result ≤ 2 ^ 64 }
    ensures positive { 0 < result }
{
    RADIAN_UNIT * (1u128 << (S - 36))
}

/// The radian by the lesser bound of pi, rounded down, in units of 2^-60.
fn radian_lower<const S: u32>(d: u128) -> u128
    requires scale { IsScale S }
    requires in_quarter { d ≤ 90 * 2 ^ S }
    ensures value { result ≡ radian_low S d }
    ensures fits { result ≤ 1811004864519280711 }
{
    let _ = degree::<S>();
    let unit = unit::<S>();
    4 * d * PI_DIGITS / unit
}

/// The radian by the greater bound of pi, rounded up, in units of 2^-60.
fn radian_upper<const S: u32>(d: u128) -> u128
    requires scale { IsScale S }
    requires in_quarter { d ≤ 90 * 2 ^ S }
    ensures value { result ≡ radian_high S d }
    ensures fits { result ≤ 1811004864519280711 }
{
    let _ = degree::<S>();
    let unit = unit::<S>();
    up(4 * d * (PI_DIGITS + 1), unit)
}

fn squared(r: u128) -> u128
    requires r_in { r ≤ 1811004864519280711 }
    ensures value { result ≡ r * r }
    ensures fits { result ≤ 2844719788994575542 * 2 ^ 60 }
{
    r * r
}

/// The least value of the square of the radian.
fn low<const S: u32>(d: u128) -> u64
    requires scale { IsScale S }
    requires in_quarter { d ≤ 90 * 2 ^ S }
    ensures value { result ≡ square_low (radian_low S d) }
    ensures fits { result ≤ 5 * 2 ^ 59 }
{
    let r = radian_lower::<S>(d);
    let square = squared(r);
    (square / (1 << 60)) as u64
}

/// The greatest value of the square of the radian.
fn high<const S: u32>(d: u128) -> u64
    requires scale { IsScale S }
    requires in_quarter { d ≤ 90 * 2 ^ S }
    ensures value { result ≡ square_high (radian_high S d) }
    ensures fits { result ≤ 5 * 2 ^ 59 }
{
    let r = radian_upper::<S>(d);
    let square = squared(r);
    up(square, 1 << 60) as u64
}

fn times(end: i128, y: u64) -> i128
    requires end_in { unsigned_abs end ≤ 2 ^ 61 }
    requires y_in { y ≤ 5 * 2 ^ 59 }
    ensures value { result ≡ end *ℤ pos y }
    ensures fits { unsigned_abs result ≤ 5 * 2 ^ 120 }
{
    end * y as i128
}

fn floor(z: i128, k: u32) -> i128
    requires not_zero { 0 < k }
    requires fits { unsigned_abs z ≤ 2 ^ 126 }
    ensures value { result ≡ floor_by z k }
{
    z.div_euclid(k as i128)
}

fn ceil(z: i128, k: u32) -> i128
    requires not_zero { 0 < k }
    requires fits { unsigned_abs z ≤ 2 ^ 126 }
    ensures value { result ≡ ceil_by z k }
{
    -(-z).div_euclid(k as i128)
}

fn floor_60(z: i128) -> i128
    requires fits { unsigned_abs z ≤ 2 ^ 126 }
    ensures value { result ≡ floor_by z (2 ^ 60) }
{
    z >> 60
}

fn ceil_60(z: i128) -> i128
    requires fits { unsigned_abs z ≤ 2 ^ 126 }
    ensures value { result ≡ ceil_by z (2 ^ 60) }
{
    -(-z >> 60)
}

/// The part that a bracket's end takes from one, rounded down.
fn lower_part(end: i128, y: u64, k: u32) -> i128
    requires end_in { unsigned_abs end ≤ 2 ^ 61 }
    requires y_in { y ≤ 5 * 2 ^ 59 }
    requires k_in { 2 ≤ k }
    ensures value { result ≡ part_down y k end }
    ensures fits { unsigned_abs result ≤ 3 * 2 ^ 60 }
    ensures small { 12 ≤ k → unsigned_abs result ≤ 2 ^ 60 }
{
    let product = times(end, y);
    let units = floor_60(product);
    floor(units, k)
}

/// The part that a bracket's end takes from one, rounded up.
fn upper_part(end: i128, y: u64, k: u32) -> i128
    requires end_in { unsigned_abs end ≤ 2 ^ 61 }
    requires y_in { y ≤ 5 * 2 ^ 59 }
    requires k_in { 2 ≤ k }
    ensures value { result ≡ part_up y k end }
    ensures fits { unsigned_abs result ≤ 3 * 2 ^ 60 }
    ensures small { 12 ≤ k → unsigned_abs result ≤ 2 ^ 60 }
{
    let product = times(end, y);
    let units = ceil_60(product);
    ceil(units, k)
}

/// The two ends of a sum.
#[derive(Clone, Copy)]
struct Sum {
    lo: i128,
    hi: i128,
}

/// (2 j - 1) (2 j).
fn divisor_at(j: u32) -> u32
    requires positive { 0 < j }
    requires j_in { j ≤ 11 }
    ensures value { result ≡ divisor j }
    ensures fits { 2 ≤ result }
    ensures large { 1 < j → 12 ≤ result }
{
    (2 * j - 1) * (2 * j)
}

fn from_one(part: i128) -> i128
    requires part_in { unsigned_abs part ≤ 3 * 2 ^ 60 }
    ensures value { result ≡ pos (2 ^ 60) -ℤ part }
    ensures fits { unsigned_abs result ≤ 2 ^ 62 }
    ensures small { unsigned_abs part ≤ 2 ^ 60 → unsigned_abs result ≤ 2 ^ 61 }
{
    (1 << 60) - part
}

/// One bracket more about the sum: one less y over the divisor times it.
fn bracketed(e: Sum, y: u64, j: u32) -> Sum
    requires lo_in { unsigned_abs e.lo ≤ 2 ^ 61 }
    requires hi_in { unsigned_abs e.hi ≤ 2 ^ 61 }
    requires y_in { y ≤ 5 * 2 ^ 59 }
    requires positive { 0 < j }
    requires j_in { j ≤ 11 }
    ensures value { ends result.lo result.hi ≡ bracket y (divisor j) (ends e.lo e.hi) }
    ensures lo_fits { unsigned_abs result.lo ≤ 2 ^ 62 }
    ensures hi_fits { unsigned_abs result.hi ≤ 2 ^ 62 }
    ensures lo_small { 1 < j → unsigned_abs result.lo ≤ 2 ^ 61 }
    ensures hi_small { 1 < j → unsigned_abs result.hi ≤ 2 ^ 61 }
{
    let k = divisor_at(j);
    let upper = upper_part(e.hi, y, k);
    let lower = lower_part(e.lo, y, k);
    Sum {
        lo: from_one(upper),
        hi: from_one(lower),
    }
}

/// The Taylor sum of degree 2 n at y, from the inmost bracket outward.
fn taylor_sum(n: u32, y: u64) -> Sum
    requires n_in { n ≤ 11 }
    requires y_in { y ≤ 5 * 2 ^ 59 }
    ensures value { ends result.lo result.hi ≡ taylor n y }
    ensures lo_fits { unsigned_abs result.lo ≤ 2 ^ 62 }
    ensures hi_fits { unsigned_abs result.hi ≤ 2 ^ 62 }
{
    let mut e = Sum {
        lo: 1 << 60,
        hi: 1 << 60,
    };
    let mut j = n;
    while j > 0 {
        e = bracketed(e, y, j);
        j -= 1;
    }
    e
}

fn floor_units<const S: u32>(z: i128) -> i128
    requires scale { IsScale S }
    requires fits { unsigned_abs z ≤ 2 ^ 62 }
    ensures value { result ≡ floor_by z (2 ^ (60 - S)) }
    ensures fits { unsigned_abs result ≤ 2 ^ 62 }
{
    z >> (60 - S)
}

fn ceil_units<const S: u32>(z: i128) -> i128
    requires scale { IsScale S }
    requires fits { unsigned_abs z ≤ 2 ^ 62 }
    ensures value { result ≡ ceil_by z (2 ^ (60 - S)) }
    ensures fits { unsigned_abs result ≤ 2 ^ 62 }
{
    -(-z >> (60 - S))
}

fn grid<const S: u32>(z: i128) -> Grid<S>
    requires { IsInLimit z }
    ensures { result ≡ z }
{
    Grid::from_units(z as i64).unwrap_or(Grid::zero())
}

/// The ends of the cosine of a folded angle, in units of 2^-S.
fn folded_sum<const S: u32>(d: u128) -> Sum
    requires scale { IsScale S }
    requires in_quarter { d ≤ 90 * 2 ^ S }
    ensures value { ends result.lo result.hi ≡ folded_ends S d }
    ensures lo_fits { unsigned_abs result.lo ≤ 2 ^ 62 }
    ensures hi_fits { unsigned_abs result.hi ≤ 2 ^ 62 }
    ensures ordered { result.lo ≤ℤ result.hi }
    ensures narrow { result.hi ≤ℤ (result.lo +ℤ pos 8) }
{
    let greatest = high::<S>(d);
    let least = low::<S>(d);
    let lower = taylor_sum(11, greatest);
    let upper = taylor_sum(10, least);
    let lo = floor_units::<S>(lower.lo);
    let hi = ceil_units::<S>(upper.hi);
    Sum { lo, hi }
}

/// The span, turned where the cosine is that of the folded angle with the other sign.
fn span<const S: u32>(turned: bool, e: Sum) -> Span<S>
    requires lo_in { IsInLimit e.lo }
    requires hi_in { IsInLimit e.hi }
    requires ordered { e.lo ≤ℤ e.hi }
    ensures { result ≡ turn turned (ends e.lo e.hi) }
{
    if turned {
        let lo = grid(-e.hi);
        let hi = grid(-e.lo);
        Span::new(lo, hi)
    } else {
        let lo = grid(e.lo);
        let hi = grid(e.hi);
        Span::new(lo, hi)
    }
}

/// The cosine of an angle of at most 360 degrees either way, enclosed: it lies in the span for every
/// value of pi between the two bounds, as the cut by two Taylor sums says. The span is at most 8
/// units wide. BadAngle exactly past 360 degrees.
pub fn cosine<const S: u32>(degrees: Grid<S>) -> Result<Span<S>, BadAngle>
    requires { IsScale S }
    ensures refused { IsErr result ↔ 360 * 2 ^ S < unsigned_abs degrees.entry }
    ensures value { IfOk result (λ a. a ≡ cosine_ends S degrees.entry) }
    ensures narrow { IfOk result (λ a. a.hi ≤ℤ (a.lo +ℤ pos 8)) }
    ensures cut { IfOk result (λ a. CosineCut S degrees.entry a) }
{
    let one = degree::<S>();
    let d = degrees.units().unsigned_abs() as u128;
    if d > 360 * one {
        return Err(BadAngle);
    }
    let f = fold::<S>(d);
    let e = folded_sum::<S>(f.angle);
    Ok(span(f.turned, e))
}

/// A narrower pi gives a cut within: a law, of every span. The function does nothing when it runs.
pub fn narrower_law()
    ensures { NarrowerLaw }
{}
