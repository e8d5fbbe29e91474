ghost use Rattle.std.specs.Prelude.{◌≡◌, ◌≤◌, ◌-◌, ◌*◌, ◌^◌, ◌∷◌, [], pos, ◌+◌, ◌+ℤ◌, ◌*ℤ◌, unsigned_abs, reverse, get_or};
ghost use Rattle.sk_num.specs.Division.{nearest};
ghost use Rattle.sk_num.specs.Limit.{IsInLimit};
ghost use Rattle.sk_cubic.specs.CurvePoint.{mixed, curve_number, curve_components, curve_point};
ghost use Rattle.sk_cubic.specs.CurveLaws.{IsInHull};

use sk_num::Grid;

/// The four weights at `i / 16`, 4096 in all.
#[tactic(auto, using(crate::proofs::CurveLemmas::power_facts))]
fn weights(i: u8) -> [u16; 4]
    requires { i ≤ 16 }
    ensures { result ≡ (16 - i) ^ 3 ∷ 3 * (16 - i) ^ 2 * i ∷ 3 * (16 - i) * i ^ 2 ∷ i ^ 3 ∷ [] }
{
    let i = i as u16;
    let rest = 16 - i;
    [
        rest * rest * rest,
        3 * (rest * rest) * i,
        3 * rest * (i * i),
        i * i * i,
    ]
}

fn product(a: i64, weight: u16) -> i128
    ensures { result ≡ a *ℤ pos weight }
{
    a as i128 * weight as i128
}

/// A number of units times a weight.
fn weighted<const S: u32>(a: Grid<S>, weight: u16) -> i128
    ensures value { result ≡ a.entry *ℤ pos weight }
    ensures fits { unsigned_abs result ≤ 2 ^ 62 * weight }
{
    product(a.units(), weight)
}

fn sum(a: i128, b: i128) -> i128
    requires first { unsigned_abs a ≤ 2 ^ 79 }
    requires second { unsigned_abs b ≤ 2 ^ 79 }
    ensures value { result ≡ a +ℤ b }
    ensures fits { unsigned_abs result ≤ unsigned_abs a + unsigned_abs b }
{
    a + b
}

/// Two numbers of units, each times its weight.
fn pair<const S: u32>(a: Grid<S>, first: u16, b: Grid<S>, second: u16) -> i128
    ensures value { result ≡ a.entry *ℤ pos first +ℤ b.entry *ℤ pos second }
    ensures fits { unsigned_abs result ≤ 2 ^ 62 * (first + second) }
{
    sum(weighted(a, first), weighted(b, second))
}

/// 4096 times the number at `i / 16` between `a` and `d`, drawn to `b` and `c`.
fn mixed<const S: u32>(a: Grid<S>, b: Grid<S>, c: Grid<S>, d: Grid<S>, i: u8) -> i128
    requires { i ≤ 16 }
    ensures value { result ≡ mixed i a.entry b.entry c.entry d.entry }
    ensures fits { unsigned_abs result ≤ 2 ^ 74 }
{
    let [first, second, third, fourth] = weights(i);
    let start = pair(a, first, b, second);
    let end = pair(c, third, d, fourth);
    sum(start, end)
}

/// The 4096th part, rounded to the nearest whole number, halves away from zero.
fn nearest_part(sum: i128) -> i64
    requires { unsigned_abs sum ≤ 2 ^ 74 }
    ensures value { result ≡ nearest sum (pos 4096) }
    ensures fits { IsInLimit result }
{
    let magnitude = (2 * sum.unsigned_abs() + 4096) / 8192;
    let units = magnitude as i64;
    if sum < 0 { -units } else { units }
}

#[tactic(auto, unfolding(crate::specs::CurvePoint::curve_number))]
fn curve_number<const S: u32>(a: Grid<S>, b: Grid<S>, c: Grid<S>, d: Grid<S>, i: u8) -> Grid<S>
    requires { i ≤ 16 }
    ensures { result ≡ curve_number i a.entry b.entry c.entry d.entry }
{
    let units = nearest_part(mixed(a, b, c, d, i));
    Grid::from_units(units).unwrap()
}

/// The point at `i / 16` between `a` and `d`, drawn to `b` and `c`.
fn between<const S: u32>(
    a: &[Grid<S>; 3],
    b: &[Grid<S>; 3],
    c: &[Grid<S>; 3],
    d: &[Grid<S>; 3],
    i: u8,
) -> [Grid<S>; 3]
    requires { i ≤ 16 }
    ensures value { result ≡ curve_components i a.now b.now c.now d.now }
    ensures start { i ≡ 0 → result ≡ a.now }
    ensures last { i ≡ 16 → result ≡ d.now }
{
    [
        curve_number(a[0], b[0], c[0], d[0], i),
        curve_number(a[1], b[1], c[1], d[1], i),
        curve_number(a[2], b[2], c[2], d[2], i),
    ]
}

/// The point at `i / 16` of the cubic with the control points `p`, in units rounded to the nearest, halves away from zero:
/// Bernstein's form. Point 0 is the first control point and point 16 the last; each component lies between the least and the
/// greatest of the four; the points of the reversed control points come in reversed order.
pub fn curve_point<const S: u32>(p: &[[Grid<S>; 3]; 4], i: u8) -> [Grid<S>; 3]
    requires { i ≤ 16 }
    ensures value { result ≡ curve_point p.now i }
    ensures start { i ≡ 0 → result ≡ get_or p.now 0 [] }
    ensures last { i ≡ 16 → result ≡ get_or p.now 3 [] }
    ensures hull { IsInHull p.now result }
    ensures reversed { curve_point (reverse p.now) (16 - i) ≡ result }
{
    let [a, b, c, d] = p;
    between(a, b, c, d, i)
}
