//! The outside of the program: a folder that it reads and writes, and a sink for what it prints.
//!
//! `Folder` and `Sink` say what a call may do to files and to printed bytes. `MemFolder` and
//! `MemSink` tell all that they hold, and fail where they are told to. `DiskFolder` and `OutSink`
//! are the real ones: they tell nothing, and count each error.
#![tactic(auto)]

mod calls;
mod disk;
mod folder;
mod mem_folder;
mod mem_sink;
mod out;

pub use disk::DiskFolder;
pub use folder::{Folder, OuterFault, Sink};
pub use mem_folder::MemFolder;
pub use mem_sink::MemSink;
pub use out::OutSink;
pub use std::alloc::AllocError as NoMemory;
