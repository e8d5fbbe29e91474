//! Faces: their normal vectors, and the rows of a point that lies over a face or in it.
//!
//! What each says is in `specs/FaceRows.antt`, with worked rows in `specs/Examples.antt`.
#![tactic(auto)]

mod faces;
mod kinds;
mod laws;

pub use faces::{FaceParts, face_normal};
pub use kinds::{formula, rows};
pub use laws::side_law;
pub use std::alloc::AllocError as NoMemory;
