//! Books: the records of a model text, looked up and changed, every other byte as it was read.
#![tactic(auto)]

mod adding;
mod anew;
mod book;
mod change_list;
mod changes;
mod classes;
mod faults;
mod given;
mod growing;
mod inserting;
mod items;
mod kinds;
mod lists;
mod lookup;
mod making;
mod map_lines;
mod packing;
mod places;
mod reading;
mod removing;
mod rows;
mod spots;
mod writing;

pub use book::Book;
pub use change_list::ChangeList;
pub use classes::LineClass;
pub use faults::ReadFault;
pub use kinds::{Kind, RecId};
pub use map_lines::{MapLine, MapLines};
pub use rows::Role;
pub use std::alloc::AllocError as NoMemory;
