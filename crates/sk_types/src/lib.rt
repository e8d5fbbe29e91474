//! The typed model as plain data: handles, groups, requests, constraints, entities and numbers.
//!
//! A handle names a thing of one kind; 0 names none. Entities and parameters of a request or a
//! group carry its number in their handle.
#![tactic(auto)]

mod constraint;
pub mod constraint_kind;
mod entity;
pub mod entity_kind;
mod group;
pub mod group_kind;
mod handle;
mod kinds;
mod lookups;
mod params;
mod request;
pub mod request_kind;
mod sizes;
mod standing;

pub use constraint::{Constraint, Need, PartKind, fits};
pub use entity::{Act, Entity, Numbering, Numbers, Outline, ParamValue};
pub use group::{Group, GroupKind, RemapEntry};
pub use handle::{ConstraintId, EntityId, GroupId, Maker, ParamId, RequestId};
pub use kinds::{has_numbers, is_distance, is_face, is_normal, is_point};
pub use lookups::{act_at, entity_at, place_of, value_of};
pub use params::{FixedPoints, group_count, group_params, own_count, own_params, unknown_params};
pub use request::Request;
pub use sizes::{arcs_of, constraint_sizes, entity_rows, group_rows, sizes_in};
pub use standing::{Standing, constraint_standing, group_standing, request_standing};
pub use std::alloc::AllocError as NoMemory;
