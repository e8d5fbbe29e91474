//! The rows of constraints of lines and normals: distances of points from lines, lengths of lines, and angles.
//!
//! What each says is in `specs/LineRows.antt`, with worked rows in `specs/Examples.antt`.
#![tactic(auto)]

mod angles;
mod auxiliaries;
mod directions;
mod distances;
mod kinds;
mod lengths;

pub use kinds::{formula, rows};
pub use std::alloc::AllocError as NoMemory;
