//! The top call: words and a folder in, printed pieces, a written file and a status out.
#![tactic(auto)]

mod command;
mod fault;
mod fault_text;
mod opening;
mod pieces;
mod prepared;
mod status;
mod summary;
mod top;
mod work;

pub use std::alloc::AllocError as NoMemory;
pub use top::run;
