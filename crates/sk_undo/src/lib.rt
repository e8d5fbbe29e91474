//! The history of a text: the last 64 changes, each as the stretch that it changed.
#![tactic(auto)]

mod agreed;
mod entry;
mod history;
mod laws;

pub use entry::Entry;
pub use history::{History, Nothing};
pub use laws::change_law;
pub use std::alloc::AllocError as NoMemory;
