//! The rows of constraints of circles and arcs: diameters, points on curves, equal radii, and curves that touch.
//!
//! What each says is in `specs/CurveRows.antt`, with worked rows in `specs/Examples.antt`.
#![tactic(auto)]

mod circles;
mod kinds;
mod radii;

pub use kinds::{formula, rows};
pub use std::alloc::AllocError as NoMemory;
