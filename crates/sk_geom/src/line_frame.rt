// The quaternion of the frame by two line segments.
#![tactic(auto)]

ghost use Rattle.std.specs.Prelude.{Err, ◌↔◌, ◌≡◌, ◌≢◌, ◌*◌, ◌+◌, ◌^◌, ◌≤◌, pos, ◌+ℤ◌, ◌-ℤ◌, ◌*ℤ◌, ◌≤ℤ◌, unsigned_abs, IfSome};
ghost use Rattle.sk_num.specs.Limit.{grid_of};
ghost use Rattle.sk_num.specs.Rounding.{rounded_quotient};
ghost use Rattle.sk_num.specs.Scale.{IsScale};
ghost use Rattle.sk_geom.specs.LineFrame.{first_greatest, later_greatest, last_greatest, first_sum, second_sum, third_sum, fourth_sum, picked, sum_over, difference_over, arranged, over_root, quaternion_parts, place_of_greatest, sum_at, root_at, quaternion_with, quaternion_of, turned_frame, swapped_frame, line_frame};
ghost use Rattle.sk_geom.specs.LineFrameLaws.{HasNoLength};
ghost use Rattle.sk_geom.specs.declared.fault.FrameFault.TheVariants.{Degenerate};

use crate::fault::FrameFault;
use crate::rounded::{all_of_four, floor_root, rounded_cross, turned, unit_of, within};
use sk_num::{Grid, rdiv};

#[tactic(auto, unfolding(crate::specs::LineFrame::last_greatest))]
fn last_greatest(c: i128, d: i128) -> u8
    ensures { result ≡ last_greatest c d }
{
    if d <= c { 2 } else { 3 }
}

#[tactic(auto, unfolding(crate::specs::LineFrame::later_greatest))]
fn later_greatest(b: i128, c: i128, d: i128) -> u8
    ensures { result ≡ later_greatest b c d }
{
    if c <= b && d <= b {
        return 1;
    }
    last_greatest(c, d)
}

/// The place of the greatest of four, from 0, the first of equal ones.
#[tactic(auto, unfolding(crate::specs::LineFrame::first_greatest))]
fn first_greatest(a: i128, b: i128, c: i128, d: i128) -> u8
    ensures { result ≡ first_greatest a b c d }
{
    if b <= a && c <= a && d <= a {
        return 0;
    }
    later_greatest(b, c, d)
}

#[tactic(auto, unfolding(crate::specs::LineFrame::picked))]
fn picked(k: u8, a: i128, b: i128, c: i128, d: i128) -> i128
    ensures { result ≡ picked k a b c d }
{
    match k {
        0 => a,
        1 => b,
        2 => c,
        _ => d,
    }
}

fn plus(a: i128, b: i64) -> i128
    requires { unsigned_abs a ≤ 2 ^ 66 }
    ensures value { result ≡ a +ℤ b }
    ensures small { unsigned_abs result ≤ unsigned_abs a + 2 ^ 63 }
{
    a + i128::from(b)
}

fn minus(a: i128, b: i64) -> i128
    requires { unsigned_abs a ≤ 2 ^ 66 }
    ensures value { result ≡ a -ℤ b }
    ensures small { unsigned_abs result ≤ unsigned_abs a + 2 ^ 63 }
{
    a - i128::from(b)
}

/// How many units are one.
fn one<const S: u32>() -> i128
    requires { IsScale S }
    ensures value { result ≡ pos (2 ^ S) }
    ensures small { unsigned_abs result ≤ 2 ^ 62 }
{
    i128::from(Grid::<S>::one().units())
}

#[tactic(auto, unfolding(crate::specs::LineFrame::first_sum))]
fn first_sum<const S: u32>(x: i64, y: i64, z: i64) -> i128
    requires { IsScale S }
    ensures { result ≡ first_sum S x y z }
{
    plus(plus(plus(one::<S>(), x), y), z)
}

#[tactic(auto, unfolding(crate::specs::LineFrame::second_sum))]
fn second_sum<const S: u32>(x: i64, y: i64, z: i64) -> i128
    requires { IsScale S }
    ensures { result ≡ second_sum S x y z }
{
    minus(minus(plus(one::<S>(), x), y), z)
}

#[tactic(auto, unfolding(crate::specs::LineFrame::third_sum))]
fn third_sum<const S: u32>(x: i64, y: i64, z: i64) -> i128
    requires { IsScale S }
    ensures { result ≡ third_sum S x y z }
{
    minus(plus(minus(one::<S>(), x), y), z)
}

#[tactic(auto, unfolding(crate::specs::LineFrame::fourth_sum))]
fn fourth_sum<const S: u32>(x: i64, y: i64, z: i64) -> i128
    requires { IsScale S }
    ensures { result ≡ fourth_sum S x y z }
{
    plus(minus(minus(one::<S>(), x), y), z)
}

/// The place of the greatest of the four sums.
#[tactic(auto, unfolding(crate::specs::LineFrame::place_of_greatest))]
fn place_of_greatest<const S: u32>(x: i64, y: i64, z: i64) -> u8
    requires { IsScale S }
    ensures { result ≡ place_of_greatest S x y z }
{
    first_greatest(
        first_sum::<S>(x, y, z),
        second_sum::<S>(x, y, z),
        third_sum::<S>(x, y, z),
        fourth_sum::<S>(x, y, z),
    )
}

/// The sum in a place.
#[tactic(auto, unfolding(crate::specs::LineFrame::sum_at))]
fn sum_at<const S: u32>(k: u8, x: i64, y: i64, z: i64) -> i128
    requires { IsScale S }
    ensures { result ≡ sum_at S k x y z }
{
    picked(
        k,
        first_sum::<S>(x, y, z),
        second_sum::<S>(x, y, z),
        third_sum::<S>(x, y, z),
        fourth_sum::<S>(x, y, z),
    )
}

/// The greatest sum. All four add to 4, so it is 1 at least.
fn greatest_sum<const S: u32>(k: u8, x: i64, y: i64, z: i64) -> Option<Grid<S>>
    requires scale { IsScale S }
    requires greatest { k ≡ place_of_greatest S x y z }
    ensures value { result ≡ grid_of (sum_at S k x y z) }
    ensures from_one { IfSome result (λ sum. pos (2 ^ S) ≤ℤ sum) }
{
    Grid::of_wide(sum_at::<S>(k, x, y, z))
}

#[tactic(auto, unfolding(crate::specs::LineFrame::over_root))]
fn over_root<const S: u32>(d: Grid<S>, x: i128) -> Option<Grid<S>>
    requires scale { IsScale S }
    requires not_zero { d ≢ pos 0 }
    ensures { result ≡ over_root S d.entry x }
{
    let x = Grid::of_wide(x)?;
    rdiv(x, d)
}

#[tactic(auto, unfolding(crate::specs::LineFrame::sum_over))]
fn sum_over<const S: u32>(d: Grid<S>, x: &Grid<S>, y: &Grid<S>) -> Option<Grid<S>>
    requires scale { IsScale S }
    requires not_zero { d ≢ pos 0 }
    ensures { result ≡ sum_over S d.entry x.now y.now }
{
    over_root(d, i128::from(x.units()) + i128::from(y.units()))
}

#[tactic(auto, unfolding(crate::specs::LineFrame::difference_over))]
fn difference_over<const S: u32>(d: Grid<S>, x: &Grid<S>, y: &Grid<S>) -> Option<Grid<S>>
    requires scale { IsScale S }
    requires not_zero { d ≢ pos 0 }
    ensures { result ≡ difference_over S d.entry x.now y.now }
{
    over_root(d, i128::from(x.units()) - i128::from(y.units()))
}

/// w, x, y and z by the place `k` of the greatest sum.
#[tactic(auto, unfolding(crate::specs::LineFrame::arranged))]
fn arranged<const S: u32>(
    k: u8,
    half: Option<Grid<S>>,
    wx: Option<Grid<S>>,
    wy: Option<Grid<S>>,
    wz: Option<Grid<S>>,
    xy: Option<Grid<S>>,
    xz: Option<Grid<S>>,
    yz: Option<Grid<S>>,
) -> Option<[Grid<S>; 4]>
    ensures { result ≡ arranged k half.entry wx.entry wy.entry wz.entry xy.entry xz.entry yz.entry }
{
    match k {
        0 => all_of_four(half, wx, wy, wz),
        1 => all_of_four(wx, half, xy, xz),
        2 => all_of_four(wy, xy, half, yz),
        _ => all_of_four(wz, xz, yz, half),
    }
}

/// `r / 2`.
fn half<const S: u32>(r: Grid<S>) -> Option<Grid<S>>
    requires { IsScale S }
    ensures { result ≡ rounded_quotient S r.entry (pos (2 * 2 ^ S)) }
{
    rdiv(r, Grid::whole(2))
}

#[tactic(auto, unfolding(crate::specs::LineFrame::quaternion_parts))]
fn quaternion_parts<const S: u32>(
    k: u8,
    r: Grid<S>,
    d: Grid<S>,
    u: &[Grid<S>; 3],
    v: &[Grid<S>; 3],
    n: &[Grid<S>; 3],
) -> Option<[Grid<S>; 4]>
    requires scale { IsScale S }
    requires not_zero { d ≢ pos 0 }
    ensures { result ≡ quaternion_parts S k r.entry d.entry u.now v.now n.now }
{
    let [_, uy, uz] = u;
    let [vx, _, vz] = v;
    let [nx, ny, _] = n;
    arranged(
        k,
        half(r),
        difference_over(d, vz, ny),
        difference_over(d, nx, uz),
        difference_over(d, uy, vx),
        sum_over(d, uy, vx),
        sum_over(d, nx, uz),
        sum_over(d, vz, ny),
    )
}

/// The root of a number from 1 on, rounded down.
fn root_at<const S: u32>(z: Grid<S>) -> Option<Grid<S>>
    requires scale { IsScale S }
    requires from_one { pos (2 ^ S) ≤ℤ z }
    ensures value { result ≡ root_at S z.entry }
    ensures from_one { IfSome result (λ r. pos (2 ^ S) ≤ℤ r) }
{
    let one = Grid::<S>::one().units();
    let root = floor_root(u128::from(z.units().unsigned_abs()) * u128::from(one.unsigned_abs()));
    Grid::of_wide(i128::from(root))
}

/// `2 r`.
fn doubled<const S: u32>(r: Grid<S>) -> Option<Grid<S>>
    requires not_zero { r ≢ pos 0 }
    ensures value { result ≡ grid_of (pos 2 *ℤ r.entry) }
    ensures not_zero { IfSome result (λ d. d ≢ pos 0) }
{
    Grid::of_wide(2 * i128::from(r.units()))
}

#[tactic(auto, unfolding(crate::specs::LineFrame::quaternion_with))]
fn quaternion_with<const S: u32>(
    k: u8,
    z: Grid<S>,
    u: &[Grid<S>; 3],
    v: &[Grid<S>; 3],
    n: &[Grid<S>; 3],
) -> Option<[Grid<S>; 4]>
    requires scale { IsScale S }
    requires from_one { pos (2 ^ S) ≤ℤ z }
    ensures { result ≡ quaternion_with S k z.entry u.now v.now n.now }
{
    let r = root_at(z)?;
    let d = doubled(r)?;
    quaternion_parts(k, r, d, u, v, n)
}

/// The quaternion of three axes; `None` past the limit.
#[tactic(auto, unfolding(crate::specs::LineFrame::quaternion_of))]
fn quaternion_of<const S: u32>(
    u: &[Grid<S>; 3],
    v: &[Grid<S>; 3],
    n: &[Grid<S>; 3],
) -> Option<[Grid<S>; 4]>
    requires { IsScale S }
    ensures { result ≡ quaternion_of S u.now v.now n.now }
{
    let (x, y, z) = (u[0].units(), v[1].units(), n[2].units());
    let k = place_of_greatest::<S>(x, y, z);
    let sum = greatest_sum(k, x, y, z)?;
    quaternion_with(k, sum, u, v, n)
}

/// The quaternion of the axes u and v and their cross product.
#[tactic(auto, unfolding(crate::specs::LineFrame::turned_frame))]
fn turned_frame<const S: u32>(
    u: &[Grid<S>; 3],
    v: &[Grid<S>; 3],
) -> Result<[Grid<S>; 4], FrameFault>
    requires { IsScale S }
    ensures { result ≡ turned_frame S u.now v.now }
{
    match rounded_cross(u, v) {
        Some(n) => within(quaternion_of(u, v, &n)),
        None => Err(FrameFault::PastLimit),
    }
}

#[tactic(auto, unfolding(crate::specs::LineFrame::swapped_frame))]
fn swapped_frame<const S: u32>(
    swap: bool,
    negate_u: bool,
    negate_v: bool,
    u: &[Grid<S>; 3],
    v: &[Grid<S>; 3],
) -> Result<[Grid<S>; 4], FrameFault>
    requires { IsScale S }
    ensures { result ≡ swapped_frame S swap negate_u negate_v u.now v.now }
{
    if swap {
        turned_frame(&turned(negate_u, v), &turned(negate_v, u))
    } else {
        turned_frame(&turned(negate_u, u), &turned(negate_v, v))
    }
}

/// The quaternion of the frame by two line segments.
#[tactic(auto, unfolding(crate::specs::LineFrame::line_frame))]
fn line_frame<const S: u32>(
    u: &[Grid<S>; 3],
    v: &[Grid<S>; 3],
    swap: bool,
    negate_u: bool,
    negate_v: bool,
) -> Result<[Grid<S>; 4], FrameFault>
    requires { IsScale S }
    ensures { result ≡ line_frame S u.now v.now swap negate_u negate_v }
{
    let a = match unit_of(u) {
        Ok(a) => a,
        Err(fault) => return Err(fault),
    };
    let Some(w) = rounded_cross(&a, v) else {
        return Err(FrameFault::PastLimit);
    };
    let n = match unit_of(&w) {
        Ok(n) => n,
        Err(fault) => return Err(fault),
    };
    let Some(b) = rounded_cross(&n, &a) else {
        return Err(FrameFault::PastLimit);
    };
    swapped_frame(swap, negate_u, negate_v, &a, &b)
}

/// The quaternion (w, x, y, z) of the frame by two line segments with the vectors `u` and `v`: its first axis is along `u`,
/// its normal across both, its second axis across those two. `swap` exchanges the first two axes, then each is negated where
/// that is asked, and the normal is taken anew. Products and quotients are rounded to the nearest unit, lengths and roots down.
///
/// Degenerate exactly where a length is 0, that of `u`, or that across both; past the limit exactly where a rounded number
/// passes it before.
pub fn frame_quaternion<const S: u32>(
    u: [Grid<S>; 3],
    v: [Grid<S>; 3],
    swap: bool,
    negate_u: bool,
    negate_v: bool,
) -> Result<[Grid<S>; 4], FrameFault>
    requires { IsScale S }
    ensures value { result ≡ line_frame S u.entry v.entry swap negate_u negate_v }
    ensures degenerate { (result ≡ Err Degenerate) ↔ HasNoLength S u.entry v.entry }
{
    line_frame(&u, &v, swap, negate_u, negate_v)
}
