//! The numbers of constraints in SolveSpace's file format.

/// Two points are at the same place.
pub const POINTS_COINCIDENT: u16 = 20;
/// Two points are so far apart.
pub const POINT_POINT_DISTANCE: u16 = 30;
/// A point is so far above a workplane.
pub const POINT_PLANE_DISTANCE: u16 = 31;
/// A point is so far from a line.
pub const POINT_LINE_DISTANCE: u16 = 32;
/// A point is so far above a face.
pub const POINT_FACE_DISTANCE: u16 = 33;
/// Two points are so far apart along a line or a normal.
pub const PROJECTED_DISTANCE: u16 = 34;
/// A point lies in a workplane.
pub const POINT_IN_PLANE: u16 = 41;
/// A point lies on a line.
pub const POINT_ON_LINE: u16 = 42;
/// A point lies on a face.
pub const POINT_ON_FACE: u16 = 43;
/// Two lines are equally long.
pub const EQUAL_LENGTHS: u16 = 50;
/// The lengths of two lines are in this ratio.
pub const LENGTH_RATIO: u16 = 51;
/// A line is as long as a point is far from another line.
pub const EQUAL_LENGTH_AND_DISTANCE: u16 = 52;
/// Two points are equally far from two lines.
pub const EQUAL_DISTANCES: u16 = 53;
/// Two angles are equal.
pub const EQUAL_ANGLES: u16 = 54;
/// A line is as long as an arc; left out.
pub const EQUAL_LINE_AND_ARC: u16 = 55;
/// Two lines differ by so much in length.
pub const LENGTH_DIFFERENCE: u16 = 56;
/// Two points are symmetric about a workplane.
pub const SYMMETRIC: u16 = 60;
/// Two points are symmetric about the vertical axis.
pub const SYMMETRIC_HORIZONTAL: u16 = 61;
/// Two points are symmetric about the horizontal axis.
pub const SYMMETRIC_VERTICAL: u16 = 62;
/// Two points are symmetric about a line.
pub const SYMMETRIC_LINE: u16 = 63;
/// The midpoint of a line is a point, or lies in a workplane.
pub const AT_MIDPOINT: u16 = 70;
/// A line, or two points, are level.
pub const HORIZONTAL: u16 = 80;
/// A line, or two points, are upright.
pub const VERTICAL: u16 = 81;
/// A circle or an arc has this diameter.
pub const DIAMETER: u16 = 90;
/// A point lies on a circle or an arc.
pub const POINT_ON_CIRCLE: u16 = 100;
/// Two normals have the same orientation.
pub const SAME_ORIENTATION: u16 = 110;
/// Two lines or normals are at this angle.
pub const ANGLE: u16 = 120;
/// Two lines or normals are parallel.
pub const PARALLEL: u16 = 121;
/// Two lines or normals are at a right angle.
pub const PERPENDICULAR: u16 = 122;
/// An arc touches a line at its end.
pub const ARC_LINE_TANGENT: u16 = 123;
/// A cubic touches a line at its end.
pub const CUBIC_LINE_TANGENT: u16 = 124;
/// Two arcs or cubics touch at their ends.
pub const CURVE_CURVE_TANGENT: u16 = 125;
/// Two circles or arcs have equal radii.
pub const EQUAL_RADII: u16 = 130;
/// A point stays where it was dragged to.
pub const WHERE_DRAGGED: u16 = 200;
/// A comment, which holds nothing.
pub const COMMENT: u16 = 1000;
