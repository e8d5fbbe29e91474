//! What requests make: the entities and the parameters of each kind.
#![tactic(auto)]

mod entities;
mod params;
mod shape;

pub use entities::{entity_count, request_entities};
pub use params::{request_params, start_value};
pub use std::alloc::AllocError as NoMemory;
