ghost use Rattle.std.specs.Prelude.{◌≡◌, IfOk};

use crate::NoMemory;
use crate::grid::Grid;
use crate::items::Items;
use crate::span::Span;
use std::alloc::Global;

/// A matrix of grid numbers: `rows * cols` cells, row by row.
#[derive(Debug, Drop)]
pub struct Mat<const S: u32> {
    pub rows: u16,
    pub cols: u16,
    pub cells: Items<Grid<S>>,
}

impl<const S: u32> Mat<S> {
    /// An equal matrix in memory of its own.
    pub fn copy(&self, alloc: Global) -> Result<Mat<S>, NoMemory>
        ensures { IfOk result (λ m. m ≡ self.now) }
    {
        Ok(Mat {
            rows: self.rows,
            cols: self.cols,
            cells: self.cells.copy(alloc)?,
        })
    }
}

/// A matrix of spans: `rows * cols` cells, row by row.
#[derive(Debug, Drop)]
pub struct SpanMat<const S: u32> {
    pub rows: u16,
    pub cols: u16,
    pub cells: Items<Span<S>>,
}

impl<const S: u32> SpanMat<S> {
    /// An equal matrix in memory of its own.
    pub fn copy(&self, alloc: Global) -> Result<SpanMat<S>, NoMemory>
        ensures { IfOk result (λ m. m ≡ self.now) }
    {
        Ok(SpanMat {
            rows: self.rows,
            cols: self.cols,
            cells: self.cells.copy(alloc)?,
        })
    }
}
