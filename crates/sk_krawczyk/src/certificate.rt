ghost use Rattle.std.specs.Prelude.{◌≡◌, IfOk};

use crate::NoMemory;
use sk_expr::RowName;
use sk_num::{Grid, Items, Mat};
use std::alloc::Global;

/// A row without a pivot, and whether it misses: is zero nowhere in the box.
#[derive(Clone, Copy, Debug, PartialEq, Eq)]
pub struct Suspect {
    /// The row's name.
    pub row: RowName,
    /// Whether its span over the box has no zero.
    pub misses: bool,
}

/// A box round a point that passes the interval test. Columns and rows rise.
#[derive(Debug, Drop)]
pub struct Certificate<const S: u32> {
    /// The logarithm to base 2 of the radius of each solved column, in plain numbers: that in units is greater by S.
    pub radius_logs: Items<i8>,
    /// The bound of the retained rows at the point that the box holds, in units of 2^-n at the precision n; below 2^45.
    pub bound: u64,
    /// How far apart two such points lie at most in an unknown, in the same units.
    pub spread: u128,
    /// The unknowns at the box's centre.
    pub centre: Items<Grid<S>>,
    /// The parameters that keep their value.
    pub held: Items<u16>,
    /// The columns in which the box is wide.
    pub solved: Items<u16>,
    /// The rows that the box has a zero of, up to the bound.
    pub retained: Items<u16>,
    /// The other rows.
    pub suspects: Items<Suspect>,
    /// The approximate inverse of the slopes of retained rows in solved columns: a row for each solved column.
    pub inverse: Mat<S>,
}

impl<const S: u32> Certificate<S> {
    /// An equal certificate in memory of its own.
    pub fn copy(&self, alloc: Global) -> Result<Certificate<S>, NoMemory>
        ensures { IfOk result (λ c. c ≡ self.now) }
    {
        Ok(Certificate {
            radius_logs: self.radius_logs.copy(alloc)?,
            bound: self.bound,
            spread: self.spread,
            centre: self.centre.copy(alloc)?,
            held: self.held.copy(alloc)?,
            solved: self.solved.copy(alloc)?,
            retained: self.retained.copy(alloc)?,
            suspects: self.suspects.copy(alloc)?,
            inverse: self.inverse.copy(alloc)?,
        })
    }
}

/// What is given to a test without elimination: solved columns, retained rows, an approximate inverse and radii.
#[derive(Debug, Drop)]
pub struct Given<const S: u32> {
    /// The solved columns.
    pub solved: Items<u16>,
    /// The logarithm to base 2 of the radius of each of them, in plain numbers.
    pub radius_logs: Items<i8>,
    /// The retained rows.
    pub retained: Items<u16>,
    /// The approximate inverse: a row for each solved column, a cell for each retained row.
    pub inverse: Mat<S>,
}
