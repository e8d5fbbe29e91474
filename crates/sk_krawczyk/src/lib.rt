//! The interval test of a system at a point, after Krawczyk (Neumaier, Interval Methods for Systems of Equations).
//!
//! The definitions stand in `specs/`: the box, the test with its certificate, and what a sound box is, for any number of
//! rows and unknowns.
#![tactic(auto)]

mod basis;
mod boxes;
mod certificate;
mod certified;
mod fault;
mod given;
mod lists;
mod newton;
mod over;
mod point;
mod radii;
mod rests;
mod rows;
mod sizes;
mod suspects;

pub use certificate::{Certificate, Given, Suspect};
pub use certified::{certify, try_at};
pub use fault::CertFault;
pub use given::test_box;
pub use point::{Tried, try_point};
pub use std::alloc::AllocError as NoMemory;
