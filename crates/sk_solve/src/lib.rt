//! The search of a group: from the stored point at most 41 points are visited, and the first at which the interval test
//! passes is kept.
#![tactic(auto)]

mod laws;
mod moving;
mod report;
mod result;
mod search;
mod visit;

pub use laws::search_law;
pub use report::{Listed, Report};
pub use result::{GroupResult, Verdict};
pub use search::solve_group;
pub use std::alloc::AllocError as NoMemory;
