ghost use Rattle.std.specs.List.{All};
ghost use Rattle.std.specs.Prelude.{◌≡◌, [], ◌∷◌, ℕ, pos, ◌+◌, ◌*◌, ◌<◌, length, slice_set, Some, None, map, MatchOption, MatchResult, ◌++◌, if◌then◌else◌};
ghost use Rattle.sk_num.specs.Scale.{IsScale};
ghost use Rattle.sk_num.specs.Ends.{Ends, point, span_add, span_mul};
ghost use Rattle.sk_matrix.specs.Cells.{AreCells, PassesLimit, listed, table, number_cell, span_cell};
ghost use Rattle.sk_matrix.specs.Matrix.{of_both, points, product};
ghost use Rattle.sk_matrix.specs.Sparse.{is_nought, nonzero_columns, sum_at, added};
ghost use Rattle.sk_matrix.specs.declared.products.ProductFault.TheVariants.{PastLimit, NoMemory};

use crate::reading::{number_cell, span_cell};
use sk_num::{Grid, Items, Mat, OfGrid, Span, SpanMat};
use std::alloc::Global;

/// Why a product isn't there.
#[derive(Clone, Copy, Debug, PartialEq, Eq)]
pub enum ProductFault {
    /// A product of two cells or a sum of them passes the limit.
    PastLimit,
    /// There was no memory.
    NoMemory,
}

/// A matrix of numbers times one of spans: each cell is the sum of the products in order.
/// PastLimit exactly where a number of that passes the limit. It costs the products of cells that
/// aren't 0.
pub fn product<const S: u32>(
    alloc: Global,
    a: &Mat<S>,
    b: &SpanMat<S>,
) -> Result<SpanMat<S>, ProductFault>
    requires scale { IsScale S }
    requires a_size { length a.now.cells ≡ a.now.rows * a.now.cols }
    requires b_size { length b.now.cells ≡ b.now.rows * b.now.cols }
    requires inner { a.now.cols ≡ b.now.rows }
    ensures { let cells = table a.now.rows b.now.cols (product S a.now.cols (points (number_cell a.now.cols a.now.cells)) (span_cell b.now.cols b.now.cells)) in
        MatchResult result (λ m. (m.rows ≡ a.now.rows) × (m.cols ≡ b.now.cols) × AreCells cells m.cells) (λ e. e ≡ PastLimit → PassesLimit cells) }
{
    match spans_of(alloc, a) {
        Err(e) => Err(e),
        Ok(spans) => span_product(alloc, &spans, b),
    }
}

/// A matrix of spans times one of numbers: each cell is the sum of the products in order.
/// PastLimit exactly where a number of that passes the limit. It costs the products of cells that
/// aren't 0.
pub fn product_right<const S: u32>(
    alloc: Global,
    a: &SpanMat<S>,
    b: &Mat<S>,
) -> Result<SpanMat<S>, ProductFault>
    requires scale { IsScale S }
    requires a_size { length a.now.cells ≡ a.now.rows * a.now.cols }
    requires b_size { length b.now.cells ≡ b.now.rows * b.now.cols }
    requires inner { a.now.cols ≡ b.now.rows }
    ensures { let cells = table a.now.rows b.now.cols (product S a.now.cols (span_cell a.now.cols a.now.cells) (points (number_cell b.now.cols b.now.cells))) in
        MatchResult result (λ m. (m.rows ≡ a.now.rows) × (m.cols ≡ b.now.cols) × AreCells cells m.cells) (λ e. e ≡ PastLimit → PassesLimit cells) }
{
    match spans_of(alloc, b) {
        Err(e) => Err(e),
        Ok(spans) => span_product(alloc, a, &spans),
    }
}

/// A matrix of single numbers as one of spans.
fn spans_of<const S: u32>(alloc: Global, m: &Mat<S>) -> Result<SpanMat<S>, ProductFault>
    ensures { MatchResult result
        (λ p. (p.rows ≡ m.now.rows) × (p.cols ≡ m.now.cols) × (p.cells ≡ map point m.now.cells))
        (λ e. e ≡ NoMemory) }
{
    let mut cells = Vec::new(alloc);
    for number in m.cells.as_slice() {
        match put_cell(&mut cells, &Span::of_grid(*number)) {
            Err(e) => return Err(e),
            Ok(()) => (),
        }
    }
    Ok(SpanMat {
        rows: m.rows,
        cols: m.cols,
        cells: Items::of(cells),
    })
}

fn put_cell<const S: u32>(cells: &mut Vec<Span<S>>, cell: &Span<S>) -> Result<(), ProductFault>
    ensures { MatchResult result (λ u. cells.new.items ≡ cells.old.items ++ (cell.now ∷ [])) (λ e. e ≡ NoMemory) }
{
    if cells.push(*cell).is_err() {
        return Err(ProductFault::NoMemory);
    }
    Ok(())
}

fn span_product<const S: u32>(
    alloc: Global,
    a: &SpanMat<S>,
    b: &SpanMat<S>,
) -> Result<SpanMat<S>, ProductFault>
    requires scale { IsScale S }
    requires a_size { length a.now.cells ≡ a.now.rows * a.now.cols }
    requires b_size { length b.now.cells ≡ b.now.rows * b.now.cols }
    requires inner { a.now.cols ≡ b.now.rows }
    ensures { let cells = table a.now.rows b.now.cols (product S a.now.cols (span_cell a.now.cols a.now.cells) (span_cell b.now.cols b.now.cells)) in
        MatchResult result (λ m. (m.rows ≡ a.now.rows) × (m.cols ≡ b.now.cols) × AreCells cells m.cells) (λ e. e ≡ PastLimit → PassesLimit cells) }
{
    let columns = match all_columns(alloc, b) {
        Err(e) => return Err(e),
        Ok(columns) => columns,
    };
    let mut cells = Vec::new(alloc);
    for row in 0..a.rows {
        match put_row(alloc, a, row, b, columns.as_slice(), &mut cells) {
            Err(e) => return Err(e),
            Ok(()) => (),
        }
    }
    Ok(SpanMat {
        rows: a.rows,
        cols: b.cols,
        cells: Items::of(cells),
    })
}

/// Whether both ends are 0.
fn is_nought<const S: u32>(e: &Span<S>) -> bool
    ensures { result ≡ is_nought e.now }
{
    e.lo().units().unsigned_abs() == 0 && e.hi().units().unsigned_abs() == 0
}

fn keep_if(columns: &mut Vec<u16>, column: u16, wanted: bool) -> Result<(), ProductFault>
    ensures { MatchResult result (λ u. columns.new.items ≡ columns.old.items ++ (if wanted then column ∷ [] else [])) (λ e. e ≡ NoMemory) }
{
    if wanted {
        if columns.push(column).is_err() {
            return Err(ProductFault::NoMemory);
        }
    }
    Ok(())
}

/// The columns of a row whose cells aren't 0.
fn row_columns<const S: u32>(
    alloc: Global,
    m: &SpanMat<S>,
    row: u16,
) -> Result<Items<u16>, ProductFault>
    requires size { length m.now.cells ≡ m.now.rows * m.now.cols }
    requires row_in { row < m.now.rows }
    ensures { MatchResult result (λ cs. cs ≡ nonzero_columns m.now.cols (span_cell m.now.cols m.now.cells row)) (λ e. e ≡ NoMemory) }
{
    let mut columns = Vec::new(alloc);
    for column in 0..m.cols {
        let wanted = !is_nought(&span_cell(m, row, column));
        match keep_if(&mut columns, column, wanted) {
            Err(e) => return Err(e),
            Ok(()) => (),
        }
    }
    Ok(Items::of(columns))
}

fn keep_row(rows: &mut Vec<Items<u16>>, row: Items<u16>) -> Result<(), ProductFault>
    ensures { MatchResult result (λ u. rows.new.items ≡ rows.old.items ++ (row ∷ [])) (λ e. e ≡ NoMemory) }
{
    if rows.push(row).is_err() {
        return Err(ProductFault::NoMemory);
    }
    Ok(())
}

/// The columns of each row whose cells aren't 0.
fn all_columns<const S: u32>(alloc: Global, m: &SpanMat<S>) -> Result<Vec<Items<u16>>, ProductFault>
    requires { length m.now.cells ≡ m.now.rows * m.now.cols }
    ensures { MatchResult result (λ rows. rows.items ≡ listed m.now.rows (λ i. nonzero_columns m.now.cols (span_cell m.now.cols m.now.cells i))) (λ e. e ≡ NoMemory) }
{
    let mut rows = Vec::new(alloc);
    for row in 0..m.rows {
        let columns = match row_columns(alloc, m, row) {
            Err(e) => return Err(e),
            Ok(columns) => columns,
        };
        match keep_row(&mut rows, columns) {
            Err(e) => return Err(e),
            Ok(()) => (),
        }
    }
    Ok(rows)
}

/// A row of `n` cells that are 0.
fn zeros<const S: u32>(alloc: Global, n: u16) -> Result<Items<Span<S>>, ProductFault>
    ensures { MatchResult result (λ us. (length us ≡ n) × ((k : ℕ) → k < n → sum_at us k ≡ point (pos 0))) (λ e. e ≡ NoMemory) }
{
    match vec![in alloc; Span::of_grid(Grid::zero()); n as usize] {
        Err(_) => Err(ProductFault::NoMemory),
        Ok(cells) => Ok(Items::of(cells)),
    }
}

/// Adds a product to the sum of a column.
fn add_term<const S: u32>(
    sums: &mut Items<Span<S>>,
    factor: &Span<S>,
    cell: &Span<S>,
    column: u16,
) -> Option<()>
    requires scale { IsScale S }
    requires inside { column < length sums.old }
    ensures same_size { length sums.new ≡ length sums.old }
    ensures value { let sum = of_both span_add (Some (sum_at sums.old column)) (span_mul S factor.now cell.now) in
        MatchOption result (sum ≡ None) (λ u. (e : Ends) × (sum ≡ Some e) × (sums.new ≡ slice_set sums.old column e)) }
{
    let Some(term) = factor.mul(cell) else {
        return None;
    };
    let Some(sum) = sums.as_slice()[column as usize].add(&term) else {
        return None;
    };
    sums.put(column as usize, sum);
    Some(())
}

/// Adds the factor times the cells of a row at the columns.
fn add_multiples<const S: u32>(
    sums: &mut Items<Span<S>>,
    factor: &Span<S>,
    b: &SpanMat<S>,
    row: u16,
    columns: &[u16],
) -> Option<()>
    requires scale { IsScale S }
    requires size { length b.now.cells ≡ b.now.rows * b.now.cols }
    requires row_in { row < b.now.rows }
    requires columns_in { All (λ k. k < b.now.cols) columns.now }
    requires sums_size { length sums.old ≡ b.now.cols }
    ensures same_size { length sums.new ≡ length sums.old }
    ensures value { let sums_with = added S factor.now (span_cell b.now.cols b.now.cells row) columns.now sums.old in
        MatchOption result (sums_with ≡ None) (λ u. sums_with ≡ Some sums.new) }
{
    for i in 0..columns.len() {
        match add_term(sums, factor, &span_cell(b, row, columns[i]), columns[i]) {
            None => return None,
            Some(()) => (),
        }
    }
    Some(())
}

/// Adds one product more to the sum of every column, where a cell of `a` meets a row of `b`.
fn add_row<const S: u32>(
    sums: &mut Items<Span<S>>,
    a: &SpanMat<S>,
    row: u16,
    b: &SpanMat<S>,
    inner: u16,
    columns: &[u16],
) -> Option<()>
    requires scale { IsScale S }
    requires a_size { length a.now.cells ≡ a.now.rows * a.now.cols }
    requires b_size { length b.now.cells ≡ b.now.rows * b.now.cols }
    requires row_in { row < a.now.rows }
    requires inner_in_a { inner < a.now.cols }
    requires inner_in_b { inner < b.now.rows }
    requires columns { columns.now ≡ nonzero_columns b.now.cols (span_cell b.now.cols b.now.cells inner) }
    requires sums_size { length sums.old ≡ b.now.cols }
    requires sums { (k : ℕ) → k < b.now.cols → product S inner (span_cell a.now.cols a.now.cells) (span_cell b.now.cols b.now.cells) row k ≡ Some (sum_at sums.old k) }
    ensures same_size { length sums.new ≡ length sums.old }
    ensures value { MatchOption result
        ((k : ℕ) × (k < b.now.cols) × (product S (inner + 1) (span_cell a.now.cols a.now.cells) (span_cell b.now.cols b.now.cells) row k ≡ None))
        (λ u. (k : ℕ) → k < b.now.cols → product S (inner + 1) (span_cell a.now.cols a.now.cells) (span_cell b.now.cols b.now.cells) row k ≡ Some (sum_at sums.new k)) }
{
    let factor = span_cell(a, row, inner);
    if is_nought(&factor) {
        return Some(());
    }
    match add_multiples(sums, &factor, b, inner, columns) {
        None => None,
        Some(()) => Some(()),
    }
}

/// A row of the product.
fn row_sums_of<const S: u32>(
    alloc: Global,
    a: &SpanMat<S>,
    row: u16,
    b: &SpanMat<S>,
    columns: &[Items<u16>],
) -> Result<Items<Span<S>>, ProductFault>
    requires scale { IsScale S }
    requires a_size { length a.now.cells ≡ a.now.rows * a.now.cols }
    requires b_size { length b.now.cells ≡ b.now.rows * b.now.cols }
    requires inner { a.now.cols ≡ b.now.rows }
    requires row_in { row < a.now.rows }
    requires columns { columns.now ≡ listed b.now.rows (λ i. nonzero_columns b.now.cols (span_cell b.now.cols b.now.cells i)) }
    ensures { MatchResult result
        (λ us. (length us ≡ b.now.cols) × ((k : ℕ) → k < b.now.cols → product S a.now.cols (span_cell a.now.cols a.now.cells) (span_cell b.now.cols b.now.cells) row k ≡ Some (sum_at us k)))
        (λ e. e ≡ PastLimit → (k : ℕ) × (k < b.now.cols) × (product S a.now.cols (span_cell a.now.cols a.now.cells) (span_cell b.now.cols b.now.cells) row k ≡ None)) }
{
    let mut sums = match zeros(alloc, b.cols) {
        Err(e) => return Err(e),
        Ok(sums) => sums,
    };
    for inner in 0..a.cols {
        match add_row(
            &mut sums,
            a,
            row,
            b,
            inner,
            columns[inner as usize].as_slice(),
        ) {
            None => return Err(ProductFault::PastLimit),
            Some(()) => (),
        }
    }
    Ok(sums)
}

/// Puts a row of the product behind the cells.
fn put_row<const S: u32>(
    alloc: Global,
    a: &SpanMat<S>,
    row: u16,
    b: &SpanMat<S>,
    columns: &[Items<u16>],
    cells: &mut Vec<Span<S>>,
) -> Result<(), ProductFault>
    requires scale { IsScale S }
    requires a_size { length a.now.cells ≡ a.now.rows * a.now.cols }
    requires b_size { length b.now.cells ≡ b.now.rows * b.now.cols }
    requires inner { a.now.cols ≡ b.now.rows }
    requires row_in { row < a.now.rows }
    requires columns { columns.now ≡ listed b.now.rows (λ i. nonzero_columns b.now.cols (span_cell b.now.cols b.now.cells i)) }
    ensures { let sums = listed b.now.cols (product S a.now.cols (span_cell a.now.cols a.now.cells) (span_cell b.now.cols b.now.cells) row) in
        MatchResult result
        (λ u. map (λ e. Some e) cells.new.items ≡ map (λ e. Some e) cells.old.items ++ sums)
        (λ e. e ≡ PastLimit → PassesLimit sums) }
{
    let sums = match row_sums_of(alloc, a, row, b, columns) {
        Err(e) => return Err(e),
        Ok(sums) => sums,
    };
    for column in 0..b.cols {
        match put_cell(cells, &sums.as_slice()[column as usize]) {
            Err(e) => return Err(e),
            Ok(()) => (),
        }
    }
    Ok(())
}
