//! Sessions: a model that was opened and regenerated, with its report. Its text is its own regeneration.
#![tactic(auto)]

mod fault;
mod reading;
mod session;

pub use fault::TextFault;
pub use reading::{linked_parts, read_model};
pub use session::Session;
pub use std::alloc::AllocError as NoMemory;
