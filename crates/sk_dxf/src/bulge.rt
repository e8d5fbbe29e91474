// The bulge of an arc.
#![tactic(auto)]

ghost use Rattle.std.specs.Prelude.{◌≡◌, ◌≢◌, ◌*◌, ◌^◌, ◌≤◌, pos};
ghost use Rattle.std.specs.Int.{is_negative};
ghost use Rattle.sk_num.specs.Scale.{IsScale};
ghost use Rattle.sk_expr.specs.Readings.{floor_root};
ghost use Rattle.sk_geom.specs.LineFrame.{root_at, rounded_minor};
ghost use Rattle.sk_dxf.specs.Bulge.{spoke, rounded_pair, flat_dot, flat_minor, ratio, negated_if, clamped, sweep_cosine, half_root, half_cosine, half_sine, quarter_tangent, bulge_between, bulge};

use crate::units::{less, plus, power};
use sk_num::{Grid, isqrt_floor, rdiv, rmul};

/// From the centre to a point, in the plane.
#[tactic(auto, unfolding(crate::specs::Bulge::spoke))]
fn spoke<const S: u32>(c: &[Grid<S>; 3], p: &[Grid<S>; 3]) -> Option<[Grid<S>; 2]>
    ensures { result ≡ spoke c.now p.now }
{
    let [cu, cv, _] = c;
    let [pu, pv, _] = p;
    let u = less(*pu, *cu)?;
    let v = less(*pv, *cv)?;
    Some([u, v])
}

/// `a b + c d`.
#[tactic(auto, unfolding(crate::specs::Bulge::rounded_pair))]
fn rounded_pair<const S: u32>(a: Grid<S>, b: Grid<S>, c: Grid<S>, d: Grid<S>) -> Option<Grid<S>>
    requires { IsScale S }
    ensures { result ≡ rounded_pair S a.entry b.entry c.entry d.entry }
{
    let first = rmul(a, b)?;
    let second = rmul(c, d)?;
    plus(first, second)
}

/// `a b - c d`.
#[tactic(auto, unfolding(sk_geom::specs::LineFrame::rounded_minor))]
fn rounded_minor<const S: u32>(a: Grid<S>, b: Grid<S>, c: Grid<S>, d: Grid<S>) -> Option<Grid<S>>
    requires { IsScale S }
    ensures { result ≡ rounded_minor S a.entry b.entry c.entry d.entry }
{
    let first = rmul(a, b)?;
    let second = rmul(c, d)?;
    less(first, second)
}

fn flat_dot<const S: u32>(a: &[Grid<S>; 2], b: &[Grid<S>; 2]) -> Option<Grid<S>>
    requires { IsScale S }
    ensures { result ≡ flat_dot S a.now b.now }
{
    let [au, av] = a;
    let [bu, bv] = b;
    rounded_pair(*au, *bu, *av, *bv)
}

fn flat_minor<const S: u32>(a: &[Grid<S>; 2], b: &[Grid<S>; 2]) -> Option<Grid<S>>
    requires { IsScale S }
    ensures { result ≡ flat_minor S a.now b.now }
{
    let [au, av] = a;
    let [bu, bv] = b;
    rounded_minor(*au, *bv, *av, *bu)
}

/// `n / d`, None also where `d` is 0.
#[tactic(auto, unfolding(crate::specs::Bulge::ratio))]
fn ratio<const S: u32>(n: Grid<S>, d: Grid<S>) -> Option<Grid<S>>
    requires { IsScale S }
    ensures { result ≡ ratio S n.entry d.entry }
{
    if d.units() == 0 {
        return None;
    }
    rdiv(n, d)
}

fn negated_if<const S: u32>(test: bool, g: Grid<S>) -> Grid<S>
    ensures { result ≡ negated_if test g.entry }
{
    if !test {
        return g;
    }
    match Grid::from_units(-g.units()) {
        Some(negated) => negated,
        None => Grid::zero(),
    }
}

/// Brought into -1 to 1.
#[tactic(auto, unfolding(crate::specs::Bulge::clamped))]
fn clamped<const S: u32>(g: Grid<S>) -> Grid<S>
    requires { IsScale S }
    ensures { result ≡ clamped S g.entry }
{
    let one = Grid::<S>::one();
    let minus_one = negated_if(true, one);
    if g.units() > one.units() {
        one
    } else if g.units() < minus_one.units() {
        minus_one
    } else {
        g
    }
}

/// The cosine of the angle between two vectors, None where the first has no length.
#[tactic(auto, unfolding(crate::specs::Bulge::sweep_cosine))]
fn sweep_cosine<const S: u32>(a: &[Grid<S>; 2], b: &[Grid<S>; 2]) -> Option<Grid<S>>
    requires { IsScale S }
    ensures { result ≡ sweep_cosine S a.now b.now }
{
    let square = flat_dot(a, a)?;
    let along = flat_dot(a, b)?;
    let cosine = ratio(along, square)?;
    Some(clamped(cosine))
}

fn floor_root(n: u128) -> u64
    requires { n ≤ 2 ^ 126 }
    ensures { result ≡ floor_root n }
{
    isqrt_floor(n)
}

/// The root of the absolute value, rounded down.
fn root_at<const S: u32>(z: Grid<S>) -> Option<Grid<S>>
    requires { IsScale S }
    ensures { result ≡ root_at S z.entry }
{
    let one = Grid::<S>::one().units();
    let root = floor_root(u128::from(z.units().unsigned_abs()) * u128::from(one.unsigned_abs()));
    Grid::of_wide(i128::from(root))
}

fn two<const S: u32>() -> Grid<S>
    requires { IsScale S }
    ensures value { result ≡ pos (2 * 2 ^ S) }
    ensures not_zero { result ≢ pos 0 }
{
    Grid::whole(2)
}

/// The root of a half.
fn half_root<const S: u32>(z: Grid<S>) -> Option<Grid<S>>
    requires { IsScale S }
    ensures { result ≡ half_root S z.entry }
{
    let half = rdiv(z, two::<S>())?;
    root_at(half)
}

/// The cosine of half an angle by the cosine of the whole, below 0 where it sweeps over half a turn.
#[tactic(auto, unfolding(crate::specs::Bulge::half_cosine))]
fn half_cosine<const S: u32>(wide: bool, k: Grid<S>) -> Option<Grid<S>>
    requires { IsScale S }
    ensures { result ≡ half_cosine S wide k.entry }
{
    let sum = plus(Grid::one(), k)?;
    let root = half_root(sum)?;
    Some(negated_if(wide, root))
}

/// The sine of half an angle by the cosine of the whole, None below 2^-24.
#[tactic(auto, unfolding(crate::specs::Bulge::half_sine))]
fn half_sine<const S: u32>(k: Grid<S>) -> Option<Grid<S>>
    requires { IsScale S }
    ensures { result ≡ half_sine S k.entry }
{
    let rest = less(Grid::one(), k)?;
    let root = half_root(rest)?;
    if root.units() < power::<S>(24) as i64 {
        return None;
    }
    Some(root)
}

/// The tangent of a quarter of an angle by cosine and sine of half of it.
#[tactic(auto, unfolding(crate::specs::Bulge::quarter_tangent))]
fn quarter_tangent<const S: u32>(p: Grid<S>, h: Grid<S>) -> Option<Grid<S>>
    requires { IsScale S }
    ensures { result ≡ quarter_tangent S p.entry h.entry }
{
    if p.units() < 0 {
        let rest = less(Grid::one(), p)?;
        ratio(rest, h)
    } else {
        let sum = plus(Grid::one(), p)?;
        ratio(h, sum)
    }
}

fn is_negative<const S: u32>(g: Grid<S>) -> bool
    ensures { result ≡ is_negative g.entry }
{
    g.units() < 0
}

/// The bulge by the two vectors from the centre.
#[tactic(auto, unfolding(crate::specs::Bulge::bulge_between))]
fn bulge_between<const S: u32>(
    backward: bool,
    a: &[Grid<S>; 2],
    b: &[Grid<S>; 2],
) -> Option<Grid<S>>
    requires { IsScale S }
    ensures { result ≡ bulge_between S backward a.now b.now }
{
    let k = sweep_cosine(a, b)?;
    let cross = flat_minor(a, b)?;
    let wide = is_negative(negated_if(backward, cross));
    let p = half_cosine(wide, k)?;
    let h = half_sine(k)?;
    let tangent = quarter_tangent(p, h)?;
    Some(negated_if(backward, tangent))
}

/// The bulge of the arc about a centre from a start to an end, counterclockwise about its normal: the tangent of a quarter of
/// the angle. Backward says that the normal goes against that of the plane. None where the arc has no radius, sweeps next to
/// no angle, or a number passes the limit.
#[tactic(auto, unfolding(crate::specs::Bulge::bulge))]
pub(crate) fn bulge<const S: u32>(
    backward: bool,
    centre: &[Grid<S>; 3],
    start: &[Grid<S>; 3],
    end: &[Grid<S>; 3],
) -> Option<Grid<S>>
    requires { IsScale S }
    ensures { result ≡ bulge S backward centre.now start.now end.now }
{
    let a = spoke(centre, start)?;
    let b = spoke(centre, end)?;
    bulge_between(backward, &a, &b)
}
