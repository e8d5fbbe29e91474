ghost use Rattle.std.specs.List.{All};
ghost use Rattle.sk_krawczyk.specs.ContractingBox.{left_of, right_of};
ghost use Rattle.sk_krawczyk.specs.IntervalTest.{rows_within, rows_small};
ghost use Rattle.std.specs.Prelude.{pos, get_or, unsigned_abs, ◌^◌, ◌-◌, ◌≤◌, ◌&&◌, true, false, ◌≡◌, ℕ, ◌*◌, ◌<◌, length, None, MatchResult};
ghost use Rattle.sk_num.specs.Scale.{IsScale};
ghost use Rattle.sk_matrix.specs.Cells.{number_cell, span_cell};
ghost use Rattle.sk_matrix.specs.Matrix.{points, product, one_less, is_whole};
ghost use Rattle.sk_expr.specs.declared.fault.VisitFault.TheVariants.{PastLimit};
ghost use Rattle.sk_matrix.specs.declared.products.ProductFault.TheVariants.{PastLimit as ProductPastLimit};

use sk_expr::VisitFault;
use sk_matrix::{ProductFault, half, one_less, product, product_right, row_sums, within_radii};
use sk_num::{Grid, Items, Mat, SpanMat};
use std::alloc::Global;

/// A product's fault as a system's.
pub(crate) fn fault_of(fault: ProductFault) -> VisitFault
    ensures { result ≡ PastLimit → fault ≡ ProductPastLimit }
{
    match fault {
        ProductFault::PastLimit => VisitFault::PastLimit,
        ProductFault::NoMemory => VisitFault::NoMemory,
    }
}

/// I - Y J.
pub(crate) fn left_rest<const S: u32>(
    alloc: Global,
    y: &Mat<S>,
    j: &SpanMat<S>,
) -> Result<SpanMat<S>, VisitFault>
    requires scale { IsScale S }
    requires y_size { length y.now.cells ≡ y.now.rows * y.now.cols }
    requires j_size { length j.now.cells ≡ j.now.rows * j.now.cols }
    requires inner { y.now.cols ≡ j.now.rows }
    requires square { y.now.rows ≡ j.now.cols }
    ensures { MatchResult result
        (λ m. (m.rows ≡ y.now.rows) × (m.cols ≡ j.now.cols) × (length m.cells ≡ m.rows * m.cols)
        × ((i k : ℕ) → i < y.now.rows → k < j.now.cols → one_less S (product S y.now.cols (points (number_cell y.now.cols y.now.cells)) (span_cell j.now.cols j.now.cells)) i k ≡ span_cell j.now.cols m.cells i k))
        (λ e. e ≡ PastLimit → (i : ℕ) × (k : ℕ) × (i < y.now.rows) × (k < j.now.cols) × (one_less S (product S y.now.cols (points (number_cell y.now.cols y.now.cells)) (span_cell j.now.cols j.now.cells)) i k ≡ None)) }
{
    let mut m = match product(alloc, y, j) {
        Err(e) => return Err(fault_of(e)),
        Ok(m) => m,
    };
    match one_less(&mut m) {
        Err(_) => return Err(VisitFault::PastLimit),
        Ok(()) => (),
    }
    Ok(m)
}

/// I - J Y.
pub(crate) fn right_rest<const S: u32>(
    alloc: Global,
    j: &SpanMat<S>,
    y: &Mat<S>,
) -> Result<SpanMat<S>, VisitFault>
    requires scale { IsScale S }
    requires y_size { length y.now.cells ≡ y.now.rows * y.now.cols }
    requires j_size { length j.now.cells ≡ j.now.rows * j.now.cols }
    requires inner { j.now.cols ≡ y.now.rows }
    requires square { j.now.rows ≡ y.now.cols }
    ensures { MatchResult result
        (λ m. (m.rows ≡ j.now.rows) × (m.cols ≡ y.now.cols) × (length m.cells ≡ m.rows * m.cols)
        × ((i k : ℕ) → i < j.now.rows → k < y.now.cols → one_less S (product S j.now.cols (span_cell j.now.cols j.now.cells) (points (number_cell y.now.cols y.now.cells))) i k ≡ span_cell y.now.cols m.cells i k))
        (λ e. e ≡ PastLimit → (i : ℕ) × (k : ℕ) × (i < j.now.rows) × (k < y.now.cols) × (one_less S (product S j.now.cols (span_cell j.now.cols j.now.cells) (points (number_cell y.now.cols y.now.cells))) i k ≡ None)) }
{
    let mut m = match product_right(alloc, j, y) {
        Err(e) => return Err(fault_of(e)),
        Ok(m) => m,
    };
    match one_less(&mut m) {
        Err(_) => return Err(VisitFault::PastLimit),
        Ok(()) => (),
    }
    Ok(m)
}

/// Whether each row sum is at most a half.
fn is_small<const S: u32>(m: &SpanMat<S>) -> bool
    requires scale { IsScale S }
    requires size { length m.now.cells ≡ m.now.rows * m.now.cols }
    ensures { result ≡ rows_small S m.now.rows m.now.cols (span_cell m.now.cols m.now.cells) }
{
    row_sums(m) <= half::<S>()
}

pub(crate) fn both(a: bool, b: bool) -> bool
    ensures { result ≡ (a && b) }
{
    a && b
}

/// Whether I - Y J and I - J Y are as small as the test asks.
pub(crate) fn is_contracting<const S: u32>(
    alloc: Global,
    y: &Mat<S>,
    j: &SpanMat<S>,
    radii: &Items<Grid<S>>,
) -> Result<bool, VisitFault>
    requires scale { IsScale S }
    requires y_size { length y.now.cells ≡ y.now.rows * y.now.cols }
    requires j_size { length j.now.cells ≡ j.now.rows * j.now.cols }
    requires inner { y.now.cols ≡ j.now.rows }
    requires outer { y.now.rows ≡ j.now.cols }
    requires square { j.now.rows ≡ j.now.cols }
    requires radii_size { length radii.now ≡ j.now.cols }
    requires radii_small { All (λ r. unsigned_abs r ≤ 2 ^ (S - 10)) radii.now }
    ensures { MatchResult result
        (λ b. (is_whole y.now.rows j.now.cols (left_of S y.now.cols j.now.cols y.now.cells j.now.cells) ≡ true)
        × (is_whole j.now.rows y.now.cols (right_of S y.now.cols j.now.cols y.now.cells j.now.cells) ≡ true)
        × (b ≡ (rows_within S j.now.cols (λ k. unsigned_abs (get_or radii.now k (pos 0))) (left_of S y.now.cols j.now.cols y.now.cells j.now.cells)
        && rows_small S j.now.rows y.now.cols (right_of S y.now.cols j.now.cols y.now.cells j.now.cells))))
        (λ e. e ≡ PastLimit → (is_whole y.now.rows j.now.cols (left_of S y.now.cols j.now.cols y.now.cells j.now.cells)
        && is_whole j.now.rows y.now.cols (right_of S y.now.cols j.now.cols y.now.cells j.now.cells)) ≡ false) }
{
    let left = match left_rest(alloc, y, j) {
        Err(e) => return Err(e),
        Ok(m) => m,
    };
    let right = match right_rest(alloc, j, y) {
        Err(e) => return Err(e),
        Ok(m) => m,
    };
    Ok(both(within_radii(&left, radii.as_slice()), is_small(&right)))
}
