//! The numbers of requests in SolveSpace's file format.

/// A workplane.
pub const WORKPLANE: u16 = 100;
/// A datum point.
pub const DATUM_POINT: u16 = 101;
/// A line segment.
pub const LINE: u16 = 200;
/// A cubic spline.
pub const CUBIC: u16 = 300;
/// A closed cubic spline; left out.
pub const CLOSED_CUBIC: u16 = 301;
/// A circle.
pub const CIRCLE: u16 = 400;
/// An arc of a circle.
pub const ARC: u16 = 500;
/// A text in a font; left out.
pub const FONT_TEXT: u16 = 600;
/// An image; left out.
pub const IMAGE: u16 = 700;
