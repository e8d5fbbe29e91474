//! Drawings in ASCII DXF: the lines, datum points, circles, arcs and cubics of a group, in a plane.
//!
//! `specs/Plane.antt` says where an entity stands in the plane, `specs/Bulge.antt` how an arc is bent, `specs/Shapes.antt` what
//! is drawn of an entity or why it is left out, `specs/Lines.antt` and `specs/Drawing.antt` the text, with worked rows in
//! `specs/Examples.antt`.
#![tactic(auto)]

mod bulge;
mod drawing;
mod entities;
mod fault;
mod laws;
mod lines;
mod plane;
mod shape;
mod sheet;
mod spans;
mod units;

pub use drawing::write_dxf;
pub use fault::DxfFault;
pub use laws::drawing_law;
pub use std::alloc::AllocError as NoMemory;
