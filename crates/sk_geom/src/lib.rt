//! Points, normals, distances and workplanes as polynomials in the unknowns of a group, and the
//! frame by two line segments.
//!
//! An entity of the group is a tree over its parameters, an entity of an earlier group the numbers
//! at which it stands. `specs/EntityTrees.antt` says for each kind which tree it is, term by term,
//! since what rounding makes of a tree depends on how it is spelled.
#![tactic(auto)]

mod fault;
mod laws;
mod line_frame;
mod quaternions;
mod rounded;
mod source;
mod space;
mod trees;

pub use fault::FrameFault;
pub use laws::{range_law, times_law};
pub use line_frame::frame_quaternion;
pub use quaternions::quat_axes;
pub use source::Source;
pub use std::alloc::AllocError as NoMemory;
pub use trees::{distance_tree, frame, in_plane, point_tree, quat_tree};
