//! The system of a group: its unknowns, its rows and its cosines at a point, and the numbers that the group leaves.
//!
//! `specs/GroupSystem.antt` says what is chosen once and what is seen at a point, with worked rows in `specs/Examples.antt`.
#![tactic(auto)]

mod by_handle;
mod contacts;
mod formulas;
pub mod laws;
mod making;
mod own;
mod parts;
mod rounds;
mod shares;
mod system;
mod visit;

pub use formulas::NamedFormula;
pub use own::OwnNumbers;
pub use shares::{Share, Shares};
pub use std::alloc::AllocError as NoMemory;
pub use system::System;
