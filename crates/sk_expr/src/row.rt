use crate::expr::Expr;
use crate::visited::Forced;
use sk_num::{Grid, Items, Span};
use smallvec::SmallVec;

/// What a row is of.
#[derive(Clone, Copy, Debug, PartialEq, Eq)]
pub enum RowKind {
    /// An entity's own row.
    OfEntity,
    /// A group's own row.
    OfGroup,
    /// A row of a constraint.
    OfConstraint,
}

/// The name of a row: what it is of, and which row of that.
#[derive(Clone, Copy, Debug, PartialEq, Eq)]
pub struct RowName {
    /// What it is of.
    pub kind: RowKind,
    /// The handle of that.
    pub handle: u32,
    /// Its number there from 0; an auxiliary's own row has 255.
    pub index: u8,
}

/// A row of a system: a polynomial that is to be 0.
#[derive(Debug, Drop)]
pub struct Row<const S: u32> {
    /// Its name.
    pub name: RowName,
    /// The polynomial.
    pub tree: Expr<Grid<S>>,
}

impl<const S: u32> Default for Row<S> {
    /// A row that stands where a list keeps room.
    fn default() -> Row<S> {
        Row {
            name: RowName {
                kind: RowKind::OfConstraint,
                handle: 0,
                index: 0,
            },
            tree: Expr::default(),
        }
    }
}

/// The relation rows of one constraint.
pub type Rows<const S: u32> = SmallVec<Row<S>, 4>;

/// What grows while the rows of a system are made at a point.
#[derive(Debug, Drop)]
pub struct Auxiliaries<const S: u32> {
    /// The point's numbers, then those of the auxiliaries.
    pub unknowns: Items<Grid<S>>,
    /// The rows.
    pub rows: Items<Row<S>>,
    /// The cosines.
    pub cosines: Items<Span<S>>,
    /// The forced pivots, one for each auxiliary, in order.
    pub forced: Items<Forced>,
}
