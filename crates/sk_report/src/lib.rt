//! The text of a report: a block of lines for each listed group, and the last line.
#![tactic(auto)]

mod block;
mod count;
mod laws;
mod lines;

pub use block::group_text;
pub use count::last_line;
pub use laws::block_laws;
pub use std::alloc::AllocError as NoMemory;
