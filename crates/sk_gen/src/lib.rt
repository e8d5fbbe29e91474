//! Made models: a chain of lines, its extrusion and copies of that, as long as one asks.
#![tactic(auto)]

mod chain;
mod constraints;
mod fault;
mod groups;
mod lines;
mod made;
mod requests;

pub use fault::MakeFault;
pub use made::make_model;
pub use std::alloc::AllocError as NoMemory;
