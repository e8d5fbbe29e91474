ghost use Rattle.std.specs.List.{All};
ghost use Rattle.std.specs.Prelude.{◌≡◌, ◌*◌, ◌<◌, length, MatchResult};
ghost use Rattle.sk_num.specs.Scale.{IsScale};
ghost use Rattle.sk_expr.specs.Tapes.{IsTape, plain_tape, root_trees};
ghost use Rattle.sk_expr.specs.declared.fault.VisitFault.TheVariants.{PastLimit};
ghost use Rattle.sk_matrix.specs.Cells.{AreCells, PassesLimit, table};
ghost use Rattle.sk_krawczyk.specs.RowReadings.{newton_of};

use crate::rests::fault_of;
use crate::rows::values_over;
use sk_expr::{VisitFault, Visited};
use sk_matrix::product;
use sk_num::{Items, Mat, Span, SpanMat};
use std::alloc::Global;

/// Y F(x), a column: Newton's step.
pub(crate) fn newton_step<const S: u32>(
    alloc: Global,
    v: &Visited<S>,
    points: &Items<Span<S>>,
    retained: &Items<u16>,
    y: &Mat<S>,
) -> Result<SpanMat<S>, VisitFault>
    requires scale { IsScale S }
    requires form { IsTape (plain_tape v.now.tape) }
    requires rows_in { All (λ r. r < length v.now.tape.roots) retained.now }
    requires y_size { length y.now.cells ≡ y.now.rows * y.now.cols }
    requires y_cols { y.now.cols ≡ length retained.now }
    requires square { y.now.rows ≡ y.now.cols }
    ensures { let cells = table y.now.rows 1 (newton_of S points.now v.now.cosines (root_trees (plain_tape v.now.tape)) retained.now y.now.cols y.now.cells) in
        MatchResult result
        (λ m. (m.rows ≡ y.now.rows) × (m.cols ≡ 1) × AreCells cells m.cells)
        (λ e. e ≡ PastLimit → PassesLimit cells) }
{
    let values = match values_over(alloc, v, points, retained) {
        Err(e) => return Err(e),
        Ok(values) => values,
    };
    let column = SpanMat {
        rows: y.cols,
        cols: 1,
        cells: values,
    };
    match product(alloc, y, &column) {
        Err(e) => Err(fault_of(e)),
        Ok(m) => Ok(m),
    }
}
