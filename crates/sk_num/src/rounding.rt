ghost use Rattle.std.specs.Prelude.{◌≡◌, ◌≢◌, ◌^◌, ◌≤◌, ℤ, pos, ◌*ℤ◌, ◌+ℤ◌, ◌≤ℤ◌, ◌<ℤ◌, unsigned_abs, Some, IfSome};
ghost use Rattle.sk_num.specs.Division.{nearest, signed, IsNearest};
ghost use Rattle.sk_num.specs.Limit.{grid_of};
ghost use Rattle.sk_num.specs.Rounding.{rounded_product, rounded_quotient};
ghost use Rattle.sk_num.specs.Scale.{IsScale};

use crate::divisor::Divisor;
use crate::grid::Grid;
use crate::span::floor;

/// The grid number with a sign and a magnitude, none past the limit.
pub(crate) fn signed_grid<const S: u32>(negative: bool, magnitude: u128) -> Option<Grid<S>>
    ensures { result ≡ grid_of (signed negative magnitude) }
{
    if magnitude > 1 << 62 {
        return None;
    }
    let units = magnitude as i64;
    Grid::from_units(if negative { -units } else { units })
}

/// How many units are a half.
fn half<const S: u32>() -> i128
    requires { IsScale S }
    ensures value { result +ℤ result ≡ pos (2 ^ S) }
    ensures positive { pos 0 <ℤ result }
    ensures small { result ≤ℤ pos (2 ^ 43) }
{
    (1u64 << (S - 1)) as i128
}

/// An exact product in units, rounded to the nearest, halves away from zero.
fn nearest_units<const S: u32>(product: i128) -> i128
    requires scale { IsScale S }
    requires fits { unsigned_abs product ≤ 2 ^ 124 }
    ensures { result ≡ nearest product (pos (2 ^ S)) }
{
    // -1 for a negative product, so that its halves go down
    let sign = floor(product, 127);
    let raised = product + (half::<S>() + sign);
    floor(raised, S)
}

/// The product of numbers whose product is small, rounded as `rmul` does: it is far from the limit.
pub fn rmul_small<const S: u32>(a: Grid<S>, b: Grid<S>) -> Grid<S>
    requires scale { IsScale S }
    requires small { unsigned_abs (a *ℤ b) ≤ 2 ^ 96 }
    ensures value { rounded_product S a.entry b.entry ≡ Some result }
    ensures small { unsigned_abs result ≤ 2 ^ 60 }
{
    Grid::small(nearest_units::<S>(a.times(b)))
}

/// The product, rounded to the nearest unit, halves away from zero; None exactly past the limit.
pub fn rmul<const S: u32>(a: Grid<S>, b: Grid<S>) -> Option<Grid<S>>
    requires { IsScale S }
    ensures value { result ≡ rounded_product S a.entry b.entry }
    // a b 2^-S is nearest to what is answered
    ensures nearest { IfSome result (λ g. IsNearest (a.entry *ℤ b.entry) (pos (2 ^ S)) g) }
{
    Grid::of_wide(nearest_units::<S>(a.times(b)))
}

/// The quotient, rounded to the nearest unit, halves away from zero; None exactly past the limit.
pub fn rdiv<const S: u32>(a: Grid<S>, b: Grid<S>) -> Option<Grid<S>>
    requires scale { IsScale S }
    requires not_zero { b ≢ pos 0 }
    ensures value { result ≡ rounded_quotient S a.entry b.entry }
    // a 2^S / b is nearest to what is answered
    ensures nearest { IfSome result (λ g. IsNearest (a.entry *ℤ pos (2 ^ S)) b.entry g) }
{
    Divisor::new(b).quotient(a)
}
