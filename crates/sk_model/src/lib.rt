//! The typed model of a book: its groups, parameters, requests and constraints, or the first fault.
#![tactic(auto)]

mod changes;
mod constraints;
mod copying;
mod entity_records;
mod faults;
mod fields;
mod group_keys;
mod groups;
mod keys;
mod listed;
mod model;
mod params;
mod remap;
mod requests;
mod whole;
mod writing;

pub use faults::{ModelFault, Reason, What};
pub use model::Model;
pub use remap::GroupList;
pub use std::alloc::AllocError as NoMemory;
