// Vectors of three rounded numbers: lengths, quotients and cross products.
#![tactic(auto)]

ghost use Rattle.std.specs.Prelude.{◌≡◌, ◌≢◌, ◌^◌, ◌≤◌, ◌∷◌, [], pos, neg_ℤ, ◌-ℤ◌, unsigned_abs};
ghost use Rattle.sk_num.specs.Limit.{grid_of};
ghost use Rattle.sk_num.specs.Scale.{IsScale};
ghost use Rattle.sk_expr.specs.Readings.{floor_root, square_units};
ghost use Rattle.sk_geom.specs.LineFrame.{all_of, within, rounded_length, divided, unit_of, rounded_minor, rounded_cross, turned};

use crate::fault::FrameFault;
use sk_num::{Grid, isqrt_floor, rdiv, rmul};

/// The square root, rounded down.
pub(crate) fn floor_root(n: u128) -> u64
    requires { n ≤ 2 ^ 126 }
    ensures { result ≡ floor_root n }
{
    isqrt_floor(n)
}

/// In squares of units.
fn square_units<const S: u32>(g: Grid<S>) -> u128
    ensures value { result ≡ square_units g.entry }
    ensures small { result ≤ 2 ^ 124 }
{
    let a = u128::from(g.units().unsigned_abs());
    a * a
}

pub(crate) fn all_of_three<const S: u32>(
    x: Option<Grid<S>>,
    y: Option<Grid<S>>,
    z: Option<Grid<S>>,
) -> Option<[Grid<S>; 3]>
    ensures { result ≡ all_of (x.entry ∷ y.entry ∷ z.entry ∷ []) }
{
    let x = x?;
    let y = y?;
    let z = z?;
    Some([x, y, z])
}

pub(crate) fn all_of_four<const S: u32>(
    w: Option<Grid<S>>,
    x: Option<Grid<S>>,
    y: Option<Grid<S>>,
    z: Option<Grid<S>>,
) -> Option<[Grid<S>; 4]>
    ensures { result ≡ all_of (w.entry ∷ x.entry ∷ y.entry ∷ z.entry ∷ []) }
{
    let w = w?;
    let x = x?;
    let y = y?;
    let z = z?;
    Some([w, x, y, z])
}

pub(crate) fn within<const S: u32, const N: usize>(
    o: Option<[Grid<S>; N]>,
) -> Result<[Grid<S>; N], FrameFault>
    ensures { result ≡ within o.entry }
{
    match o {
        Some(a) => Ok(a),
        None => Err(FrameFault::PastLimit),
    }
}

#[tactic(auto, unfolding(crate::specs::LineFrame::rounded_length))]
fn rounded_length<const S: u32>(a: &[Grid<S>; 3]) -> u64
    ensures { result ≡ rounded_length a.now }
{
    let [x, y, z] = a;
    floor_root(square_units(*x) + square_units(*y) + square_units(*z))
}

#[tactic(auto, unfolding(crate::specs::LineFrame::divided))]
fn divided<const S: u32>(a: &[Grid<S>; 3], m: Grid<S>) -> Option<[Grid<S>; 3]>
    requires scale { IsScale S }
    requires not_zero { m ≢ pos 0 }
    ensures { result ≡ divided S a.now m.entry }
{
    let [x, y, z] = a;
    all_of_three(rdiv(*x, m), rdiv(*y, m), rdiv(*z, m))
}

/// Each component divided by the length.
#[tactic(auto, unfolding(crate::specs::LineFrame::unit_of))]
pub(crate) fn unit_of<const S: u32>(a: &[Grid<S>; 3]) -> Result<[Grid<S>; 3], FrameFault>
    requires { IsScale S }
    ensures { result ≡ unit_of S a.now }
{
    let length = rounded_length(a);
    if length == 0 {
        return Err(FrameFault::Degenerate);
    }
    match Grid::of_wide(i128::from(length)) {
        Some(m) => within(divided(a, m)),
        None => Err(FrameFault::PastLimit),
    }
}

fn difference<const S: u32>(a: Grid<S>, b: Grid<S>) -> Option<Grid<S>>
    ensures { result ≡ grid_of (a.entry -ℤ b.entry) }
{
    Grid::of_wide(i128::from(a.units()) - i128::from(b.units()))
}

/// `a b - c d`.
#[tactic(auto, unfolding(crate::specs::LineFrame::rounded_minor))]
fn rounded_minor<const S: u32>(a: Grid<S>, b: Grid<S>, c: Grid<S>, d: Grid<S>) -> Option<Grid<S>>
    requires { IsScale S }
    ensures { result ≡ rounded_minor S a.entry b.entry c.entry d.entry }
{
    let first = rmul(a, b)?;
    let second = rmul(c, d)?;
    difference(first, second)
}

/// The cross product.
#[tactic(auto, unfolding(crate::specs::LineFrame::rounded_cross))]
pub(crate) fn rounded_cross<const S: u32>(
    a: &[Grid<S>; 3],
    b: &[Grid<S>; 3],
) -> Option<[Grid<S>; 3]>
    requires { IsScale S }
    ensures { result ≡ rounded_cross S a.now b.now }
{
    let [ax, ay, az] = a;
    let [bx, by, bz] = b;
    all_of_three(
        rounded_minor(*ay, *bz, *az, *by),
        rounded_minor(*az, *bx, *ax, *bz),
        rounded_minor(*ax, *by, *ay, *bx),
    )
}

fn negated<const S: u32>(g: Grid<S>) -> Grid<S>
    ensures { result ≡ neg_ℤ g.entry }
{
    match Grid::from_units(-g.units()) {
        Some(g) => g,
        None => Grid::zero(),
    }
}

/// The vector, or its negative.
#[tactic(auto, unfolding(crate::specs::LineFrame::turned))]
pub(crate) fn turned<const S: u32>(negate: bool, a: &[Grid<S>; 3]) -> [Grid<S>; 3]
    ensures { result ≡ turned negate a.now }
{
    let [x, y, z] = a;
    if negate {
        [negated(*x), negated(*y), negated(*z)]
    } else {
        [*x, *y, *z]
    }
}
