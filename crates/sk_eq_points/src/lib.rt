//! The rows of constraints of points: points that coincide, lie apart, over or in a workplane, are symmetric, lie in the
//! middle of a line, or are level.
//!
//! What each says is in `specs/PointRows.antt`, with worked rows in `specs/Examples.antt`.
#![tactic(auto)]

mod kinds;
mod points;
mod symmetry;

pub use kinds::{formula, rows};
pub use std::alloc::AllocError as NoMemory;
