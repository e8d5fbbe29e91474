ghost use Rattle.std.specs.List.{All};
ghost use Rattle.std.specs.Prelude.{◌≡◌, ◌<◌, ◌^◌, ◌++◌, length, map, Some, None, MatchResult};
ghost use Rattle.sk_num.specs.Scale.{IsScale};
ghost use Rattle.sk_num.specs.Each.{each_some};
ghost use Rattle.sk_expr.specs.Tapes.{IsTape, plain_tape, root_trees};
ghost use Rattle.sk_expr.specs.SparseRows.{plain_sparse, span_beside};
ghost use Rattle.sk_expr.specs.declared.fault.VisitFault.TheVariants.{PastLimit, NoMemory};
ghost use Rattle.sk_matrix.specs.Cells.{AreCells, PassesLimit, table};
ghost use Rattle.sk_krawczyk.specs.RowReadings.{row_value, row_slope, dense_cells};

use sk_expr::{SparseRow, VisitFault, Visited};
use sk_num::{Grid, Items, OfGrid, Span, SpanMat};
use std::alloc::Global;

/// The spans of listed rows over a box.
pub(crate) fn values_over<const S: u32>(
    alloc: Global,
    v: &Visited<S>,
    over: &Items<Span<S>>,
    rows: &Items<u16>,
) -> Result<Items<Span<S>>, VisitFault>
    requires scale { IsScale S }
    requires form { IsTape (plain_tape v.now.tape) }
    requires rows_in { All (λ r. r < length v.now.tape.roots) rows.now }
    ensures { MatchResult result
        (λ es. each_some (row_value S over.now v.now.cosines (root_trees (plain_tape v.now.tape))) rows.now ≡ Some es)
        (λ e. e ≡ PastLimit → each_some (row_value S over.now v.now.cosines (root_trees (plain_tape v.now.tape))) rows.now ≡ None) }
{
    match v.tape.values(
        alloc,
        over.as_slice(),
        v.cosines.as_slice(),
        rows.as_slice(),
    ) {
        Err(e) => Err(e),
        Ok(spans) => Ok(Items::of(spans)),
    }
}

/// The span beside a column, 0 to 0 beside one that isn't there.
fn beside<const S: u32>(row: &SparseRow<S>, column: u16) -> Span<S>
    ensures { result ≡ span_beside row.now.columns row.now.spans column }
{
    let columns = row.columns.as_slice();
    let spans = row.spans.as_slice();
    for i in 0..columns.len() {
        match spans.get(i) {
            None => return Span::of_grid(Grid::zero()),
            Some(span) => {
                if columns[i] == column {
                    return *span;
                }
            }
        }
    }
    Span::of_grid(Grid::zero())
}

/// Puts a row's spans beside all columns behind the cells.
fn put_row<const S: u32>(
    cells: &mut Vec<Span<S>>,
    row: &SparseRow<S>,
    columns: &Items<u16>,
) -> Result<(), VisitFault>
    ensures { MatchResult result
        (λ u. cells.new.items ≡ cells.old.items ++ map (span_beside row.now.columns row.now.spans) columns.now)
        (λ e. e ≡ NoMemory) }
{
    for column in columns.as_slice() {
        cells.push(beside(row, *column))?;
    }
    Ok(())
}

/// The rows as a matrix with all columns.
fn dense<const S: u32>(
    alloc: Global,
    rows: &[SparseRow<S>],
    columns: &Items<u16>,
) -> Result<SpanMat<S>, VisitFault>
    requires few_rows { length rows.now < 2 ^ 16 }
    requires few_columns { length columns.now < 2 ^ 16 }
    ensures { MatchResult result
        (λ m. (m.rows ≡ length rows.now) × (m.cols ≡ length columns.now) × (m.cells ≡ dense_cells (map plain_sparse rows.now) columns.now))
        (λ e. e ≡ NoMemory) }
{
    let mut cells = Vec::new(alloc);
    for row in rows {
        match put_row(&mut cells, row, columns) {
            Err(e) => return Err(e),
            Ok(()) => (),
        }
    }
    Ok(SpanMat {
        rows: rows.len() as u16,
        cols: columns.as_slice().len() as u16,
        cells: Items::of(cells),
    })
}

/// The slopes of listed rows in listed columns over a box.
pub(crate) fn slopes_over<const S: u32>(
    alloc: Global,
    v: &Visited<S>,
    over: &Items<Span<S>>,
    rows: &Items<u16>,
    columns: &Items<u16>,
) -> Result<SpanMat<S>, VisitFault>
    requires scale { IsScale S }
    requires form { IsTape (plain_tape v.now.tape) }
    requires rows_in { All (λ r. r < length v.now.tape.roots) rows.now }
    requires columns_in { All (λ c. c < length over.now) columns.now }
    requires few_rows { length rows.now < 2 ^ 16 }
    requires few_columns { length columns.now < 2 ^ 16 }
    ensures { let slopes = table (length rows.now) (length columns.now) (row_slope S over.now v.now.cosines (root_trees (plain_tape v.now.tape)) rows.now columns.now) in
        MatchResult result
        (λ m. (m.rows ≡ length rows.now) × (m.cols ≡ length columns.now) × AreCells slopes m.cells)
        (λ e. e ≡ PastLimit → PassesLimit slopes) }
{
    let sparse = match v.tape.slopes(
        alloc,
        over.as_slice(),
        v.cosines.as_slice(),
        rows.as_slice(),
        columns.as_slice(),
    ) {
        Err(e) => return Err(e),
        Ok(sparse) => sparse,
    };
    match dense(alloc, sparse.as_slice(), columns) {
        Err(e) => Err(e),
        Ok(m) => Ok(m),
    }
}
