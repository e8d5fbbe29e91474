//! Polynomials of a system in its unknowns and cosines, as trees and on a tape of distinct nodes:
//! what they are worth exactly, and over a box.
//!
//! The definitions and their laws stand in `specs/`: exact values and slopes, the slope identity, spans of both, and that
//! these enclose the exact ones.
#![tactic(auto)]

mod accessors;
mod building;
mod dual;
mod evaluation;
mod expr;
mod fault;
mod formula;
mod forward;
mod growth;
mod marks;
mod node;
mod parts;
mod readings;
mod row;
mod sparse;
mod tape;
mod tree_slopes;
mod values;
mod vectors;
mod visited;

pub use building::{add, copy, mul, squared_number, sub};
pub use dual::Dual;
pub use evaluation::{degree, eval};
pub use expr::{Expr, Tree};
pub use fault::VisitFault;
pub use formula::{Auxiliary, Formula, Relation};
pub use node::Node;
pub use parts::{ConstraintParts, Frame, LineParts, RadiusParts, V3};
pub use readings::Readings;
pub use row::{Auxiliaries, Row, RowKind, RowName, Rows};
pub use sparse::SparseRow;
pub use std::alloc::AllocError as NoMemory;
pub use tape::Tape;
pub use tree_slopes::slopes;
pub use vectors::Vector;
pub use visited::{AtPoint, Forced, Visited};
