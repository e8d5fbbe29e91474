ghost use Rattle.std.specs.Prelude.{◌≡◌, ℕ, ℤ, List, Option, Some, None, length, IfOk, IfErr};
ghost use Rattle.sk_num.specs.Scale.{IsScale};
ghost use Rattle.sk_expr.specs.Seen.{Seen};
ghost use Rattle.sk_expr.specs.Visits.{seen_of, IsTestable, BeginsWith};
ghost use Rattle.sk_expr.specs.declared.fault.VisitFault.TheVariants.{PastLimit};

use crate::fault::VisitFault;
use crate::row::RowName;
use crate::tape::Tape;
use sk_num::{Grid, Items, Span};
use std::alloc::Global;

/// An auxiliary's own row, whose pivot is forced on the auxiliary's column.
#[derive(Clone, Copy, Debug, PartialEq, Eq)]
pub struct Forced {
    /// The row.
    pub row: u16,
    /// The column.
    pub column: u16,
    /// Whether the auxiliary is a length, which has to stay above 0.
    pub length: bool,
}

/// A system at a point.
#[derive(Debug, Drop)]
pub struct Visited<const S: u32> {
    /// The point's numbers, then those of the auxiliaries.
    pub unknowns: Items<Grid<S>>,
    /// The names of the rows.
    pub rows: Items<RowName>,
    /// The rows.
    pub tape: Tape<S>,
    /// The cosines.
    pub cosines: Items<Span<S>>,
    /// The forced pivots, one for each auxiliary, in order.
    pub forced: Items<Forced>,
}

/// Systems that can be visited at a point.
pub trait AtPoint<const S: u32> {
    ghost params_of: { Self → ℕ };

    ghost seen_at: { Self → List ℤ → Option Seen };

    /// How many numbers a point has.
    fn params(&self) -> u16
        ensures { result ≡ params_of self.now };

    /// The system at the point: a function of both, other than want of memory. PastLimit comes exactly where a reading that
    /// the system takes there passes the limit. Unknowns are the point's numbers, then the auxiliaries, and each of these
    /// has one forced pair, in order.
    fn at(&self, alloc: Global, point: &[Grid<S>]) -> Result<Visited<S>, VisitFault>
        requires scale { IsScale S }
        requires point { length point.now ≡ params_of self.now }
        ensures seen { IfOk result (λ v. seen_at self.now point.now ≡ Some (seen_of v)) }
        ensures past { IfErr result (λ e. e ≡ PastLimit → seen_at self.now point.now ≡ None) }
        ensures testable { IfOk result (λ v. IsTestable (params_of self.now) v) }
        ensures begins { IfOk result (λ v. BeginsWith point.now v) };
}
