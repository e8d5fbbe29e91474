//! Cubics: the rows of one that touches a line or another curve, and the points that draw one.
//!
//! What each row says is in `specs/CubicRows.antt`, what the points are in `specs/CurvePoint.antt`, with worked rows in
//! `specs/Examples.antt`.
#![tactic(auto)]

mod contacts;
mod laws;
mod points;

pub use contacts::{CubicParts, EndParts, formula, rows};
pub use laws::curve_law;
pub use points::curve_point;
pub use std::alloc::AllocError as NoMemory;
