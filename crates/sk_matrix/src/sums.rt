ghost use Rattle.std.specs.Prelude.{◌≡◌, pos, ◌+◌, ◌-◌, ◌*◌, ◌<◌, ◌≤◌, ◌^◌, length, get_or, nat_le, unsigned_abs, ◌&&◌};
ghost use Rattle.std.specs.List.{All};
ghost use Rattle.sk_num.specs.Sums.{total_to};
ghost use Rattle.sk_num.specs.Scale.{IsScale};
ghost use Rattle.sk_matrix.specs.Cells.{number_cell, span_cell};
ghost use Rattle.sk_matrix.specs.Matrix.{mag_or, row_sum, row_sum_plain, row_sums, row_sums_plain, all_to};

use crate::reading::{mag, number_cell, span_cell};
use sk_num::{Grid, Mat, SpanMat};

fn row_sum<const S: u32>(m: &SpanMat<S>, row: u16) -> u128
    requires size { length m.now.cells ≡ m.now.rows * m.now.cols }
    requires row_in { row < m.now.rows }
    ensures value { result ≡ row_sum m.now.cols (span_cell m.now.cols m.now.cells row) }
    ensures small { result ≤ m.now.cols * 2 ^ 62 }
{
    let mut total = 0u128;
    for col in 0..m.cols {
        total += mag(&span_cell(m, row, col)) as u128;
    }
    total
}

fn row_sum_plain<const S: u32>(m: &Mat<S>, row: u16) -> u128
    requires size { length m.now.cells ≡ m.now.rows * m.now.cols }
    requires row_in { row < m.now.rows }
    ensures value { result ≡ row_sum_plain m.now.cols (number_cell m.now.cols m.now.cells row) }
    ensures small { result ≤ m.now.cols * 2 ^ 62 }
{
    let mut total = 0u128;
    for col in 0..m.cols {
        total += number_cell(m, row, col).units().unsigned_abs() as u128;
    }
    total
}

/// The greatest sum of the absolute ends of a row, in units; 0 for no rows.
pub fn row_sums<const S: u32>(m: &SpanMat<S>) -> u128
    requires { length m.now.cells ≡ m.now.rows * m.now.cols }
    ensures value { result ≡ row_sums m.now.rows m.now.cols (span_cell m.now.cols m.now.cells) }
    ensures small { result ≤ m.now.cols * 2 ^ 62 }
{
    let mut top = 0u128;
    for row in 0..m.rows {
        top = top.max(row_sum(m, row));
    }
    top
}

/// The greatest sum of the absolute numbers of a row, in units; 0 for no rows.
pub fn row_sums_plain<const S: u32>(m: &Mat<S>) -> u128
    requires { length m.now.cells ≡ m.now.rows * m.now.cols }
    ensures value { result ≡ row_sums_plain m.now.rows m.now.cols (number_cell m.now.cols m.now.cells) }
    ensures small { result ≤ m.now.cols * 2 ^ 62 }
{
    let mut top = 0u128;
    for row in 0..m.rows {
        top = top.max(row_sum_plain(m, row));
    }
    top
}

fn size_at<const S: u32>(numbers: &[Grid<S>], k: u16) -> u64
    requires { k < length numbers.now }
    ensures { result ≡ unsigned_abs (get_or numbers.now k (pos 0)) }
{
    numbers[k as usize].units().unsigned_abs()
}

fn radius<const S: u32>(radii: &[Grid<S>], k: u16) -> u64
    requires scale { IsScale S }
    requires inside { k < length radii.now }
    requires small { All (λ r. unsigned_abs r ≤ 2 ^ (S - 10)) radii.now }
    ensures value { result ≡ unsigned_abs (get_or radii.now k (pos 0)) }
    ensures small { result ≤ 2 ^ 34 }
{
    size_at(radii, k)
}

/// How many units are a half.
pub fn half<const S: u32>() -> u128
    requires { IsScale S }
    ensures value { result ≡ 2 ^ (S - 1) }
    ensures small { result ≤ 2 ^ 43 }
{
    1u128 << (S - 1)
}

/// The sum of a row's absolute ends, each times the radius of its column.
fn weighed_sum<const S: u32>(m: &SpanMat<S>, radii: &[Grid<S>], row: u16) -> u128
    requires scale { IsScale S }
    requires size { length m.now.cells ≡ m.now.rows * m.now.cols }
    requires row_in { row < m.now.rows }
    requires radii_size { length radii.now ≡ m.now.cols }
    requires radii_small { All (λ r. unsigned_abs r ≤ 2 ^ (S - 10)) radii.now }
    ensures value { result ≡ total_to m.now.cols (λ k. mag_or (span_cell m.now.cols m.now.cells row k) * unsigned_abs (get_or radii.now k (pos 0))) }
    ensures small { result ≤ m.now.cols * 2 ^ 96 }
{
    let mut total = 0u128;
    for col in 0..m.cols {
        total += mag(&span_cell(m, row, col)) as u128 * radius(radii, col) as u128;
    }
    total
}

fn is_row_within<const S: u32>(m: &SpanMat<S>, radii: &[Grid<S>], row: u16) -> bool
    requires scale { IsScale S }
    requires size { length m.now.cells ≡ m.now.rows * m.now.cols }
    requires row_in { row < m.now.rows }
    requires square { m.now.rows ≡ m.now.cols }
    requires radii_size { length radii.now ≡ m.now.cols }
    requires radii_small { All (λ r. unsigned_abs r ≤ 2 ^ (S - 10)) radii.now }
    ensures { result ≡ nat_le (total_to m.now.cols (λ k. mag_or (span_cell m.now.cols m.now.cells row k) * unsigned_abs (get_or radii.now k (pos 0)))) (2 ^ (S - 1) * unsigned_abs (get_or radii.now row (pos 0))) }
{
    let half = half::<S>();
    weighed_sum(m, radii, row) <= half * radius(radii, row) as u128
}

fn both(a: bool, b: bool) -> bool
    ensures { result ≡ (a && b) }
{
    a && b
}

/// Whether in each row the sum of the absolute ends, each times the radius of its column, is at most half the row's own radius.
pub fn within_radii<const S: u32>(m: &SpanMat<S>, radii: &[Grid<S>]) -> bool
    requires scale { IsScale S }
    requires size { length m.now.cells ≡ m.now.rows * m.now.cols }
    requires square { m.now.rows ≡ m.now.cols }
    requires radii_size { length radii.now ≡ m.now.cols }
    requires radii_small { All (λ r. unsigned_abs r ≤ 2 ^ (S - 10)) radii.now }
    ensures { result ≡ all_to m.now.cols (λ j. nat_le (total_to m.now.cols (λ k. mag_or (span_cell m.now.cols m.now.cells j k) * unsigned_abs (get_or radii.now k (pos 0)))) (2 ^ (S - 1) * unsigned_abs (get_or radii.now j (pos 0)))) }
{
    let mut within = true;
    for row in 0..m.rows {
        within = both(within, is_row_within(m, radii, row));
    }
    within
}
