//! Linked parts: the entities that are stored in the files that linked groups name.
//!
//! A part is read once for each linked group, in the order of the groups, and of its text the entity records alone are kept,
//! as entities that stand at their stored numbers.
#![tactic(auto)]

mod entity_keys;
mod fault;
mod fields;
mod keys;
mod part;
mod parts;
mod stored;

pub use fault::PartFault;
pub use part::law_last_counts;
pub use parts::{Parts, read_parts};
pub use std::alloc::AllocError as NoMemory;
