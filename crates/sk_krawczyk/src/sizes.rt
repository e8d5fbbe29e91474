ghost use Rattle.std.specs.List.{All};
ghost use Rattle.std.specs.Prelude.{◌≡◌, ◌≤◌, ◌<◌, ◌-◌, ◌*◌, ◌^◌, length, map, drop, get_or, pos, unsigned_abs};
ghost use Rattle.sk_num.specs.Scale.{IsScale};
ghost use Rattle.sk_matrix.specs.Cells.{number_cell, span_cell};
ghost use Rattle.sk_matrix.specs.Matrix.{row_sums, row_sums_plain};
ghost use Rattle.sk_krawczyk.specs.IntervalTest.{whole_up, greatest, least, radius_ratio, unless_none};

use crate::radii::size_at;
use sk_matrix::{row_sums, row_sums_plain};
use sk_num::{Grid, Items, Mat, SpanMat};

/// How many units are 1.
fn one<const S: u32>() -> u128
    requires { IsScale S }
    ensures value { result ≡ 2 ^ S }
    ensures large { 2 ^ 36 ≤ result }
    ensures small { result ≤ 2 ^ 44 }
{
    1u128 << S
}

/// A number of units as a plain number, rounded up, at least 1.
fn whole_up<const S: u32>(units: u128) -> u128
    requires scale { IsScale S }
    requires small { units ≤ 65535 * 2 ^ 62 }
    ensures value { result ≡ whole_up S units }
    ensures small { result ≤ 2 ^ 42 }
{
    let one = one::<S>();
    ((units + one - 1) / one).max(1)
}

/// How great the slopes are: their greatest row sum.
fn slope_size<const S: u32>(slopes: &SpanMat<S>) -> u128
    requires scale { IsScale S }
    requires size { length slopes.now.cells ≡ slopes.now.rows * slopes.now.cols }
    ensures value { result ≡ whole_up S (row_sums slopes.now.rows slopes.now.cols (span_cell slopes.now.cols slopes.now.cells)) }
    ensures small { result ≤ 2 ^ 42 }
{
    prove!(slopes.cols <= u16::MAX);
    whole_up::<S>(row_sums(slopes))
}

/// How great the inverse is.
fn inverse_size<const S: u32>(inverse: &Mat<S>) -> u128
    requires scale { IsScale S }
    requires size { length inverse.now.cells ≡ inverse.now.rows * inverse.now.cols }
    ensures value { result ≡ whole_up S (row_sums_plain inverse.now.rows inverse.now.cols (number_cell inverse.now.cols inverse.now.cells)) }
    ensures small { result ≤ 2 ^ 42 }
{
    prove!(inverse.cols <= u16::MAX);
    whole_up::<S>(row_sums_plain(inverse))
}

/// The greatest radius.
fn greatest<const S: u32>(radii: &Items<Grid<S>>) -> u64
    requires scale { IsScale S }
    requires small { All (λ r. unsigned_abs r ≤ 2 ^ (S - 10)) radii.now }
    ensures value { result ≡ greatest (map unsigned_abs radii.now) }
    ensures small { result ≤ 2 ^ 34 }
{
    let mut top = 0;
    for j in 0..radii.as_slice().len() {
        top = size_at(radii, j).max(top);
    }
    top
}

/// The least radius.
fn least<const S: u32>(radii: &Items<Grid<S>>) -> u64
    requires some { 0 < length radii.now }
    requires positive { All (λ r. 0 < unsigned_abs r) radii.now }
    ensures value { result ≡ least (unsigned_abs (get_or radii.now 0 (pos 0))) (map unsigned_abs (drop 1 radii.now)) }
    ensures positive { 0 < result }
{
    let mut low = size_at(radii, 0);
    for j in 1..radii.as_slice().len() {
        low = low.min(size_at(radii, j));
    }
    low
}

/// The greatest radius over the least.
fn radius_ratio<const S: u32>(radii: &Items<Grid<S>>) -> u64
    requires scale { IsScale S }
    requires positive { All (λ r. 0 < unsigned_abs r) radii.now }
    requires small { All (λ r. unsigned_abs r ≤ 2 ^ (S - 10)) radii.now }
    ensures value { result ≡ radius_ratio (map unsigned_abs radii.now) }
    ensures small { result ≤ 2 ^ 34 }
{
    if radii.as_slice().is_empty() {
        return 1;
    }
    greatest(radii) / least(radii)
}

/// The bound, 0 with no retained row.
pub(crate) fn bound<const S: u32>(slopes: &SpanMat<S>) -> u64
    requires scale { IsScale S }
    requires size { length slopes.now.cells ≡ slopes.now.rows * slopes.now.cols }
    ensures value { result ≡ unless_none slopes.now.rows (4 * whole_up S (row_sums slopes.now.rows slopes.now.cols (span_cell slopes.now.cols slopes.now.cells))) }
    ensures small { result < 2 ^ 45 }
{
    if slopes.rows == 0 {
        return 0;
    }
    4 * slope_size(slopes) as u64
}

/// The spread, 0 with no retained row.
pub(crate) fn spread<const S: u32>(
    slopes: &SpanMat<S>,
    inverse: &Mat<S>,
    radii: &Items<Grid<S>>,
) -> u128
    requires scale { IsScale S }
    requires slopes_size { length slopes.now.cells ≡ slopes.now.rows * slopes.now.cols }
    requires inverse_size { length inverse.now.cells ≡ inverse.now.rows * inverse.now.cols }
    requires positive { All (λ r. 0 < unsigned_abs r) radii.now }
    requires small { All (λ r. unsigned_abs r ≤ 2 ^ (S - 10)) radii.now }
    ensures { result ≡ unless_none slopes.now.rows (16 * (whole_up S (row_sums slopes.now.rows slopes.now.cols (span_cell slopes.now.cols slopes.now.cells))
        * whole_up S (row_sums_plain inverse.now.rows inverse.now.cols (number_cell inverse.now.cols inverse.now.cells)) * radius_ratio (map unsigned_abs radii.now))) }
{
    if slopes.rows == 0 {
        return 0;
    }
    16 * (slope_size(slopes) * inverse_size(inverse) * radius_ratio(radii) as u128)
}
