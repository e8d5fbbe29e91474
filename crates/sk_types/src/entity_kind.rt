//! The numbers of entities in SolveSpace's file format.

/// A point with three coordinates.
pub const POINT_IN_SPACE: u16 = 2000;
/// A point with two coordinates in its workplane.
pub const POINT_IN_WORKPLANE: u16 = 2001;
/// A copy of a point, moved by so many times the group's vector.
pub const MOVED_POINT: u16 = 2010;
/// A copy of a linked part's point, turned and moved with the part.
pub const TURNED_POINT: u16 = 2011;
/// A copy of a point in its place.
pub const COPIED_POINT: u16 = 2012;
/// A normal with its own quaternion.
pub const NORMAL_IN_SPACE: u16 = 3000;
/// The normal of its workplane.
pub const NORMAL_IN_WORKPLANE: u16 = 3001;
/// A copy of a normal, or the normal of a drawing in a workplane.
pub const COPIED_NORMAL: u16 = 3010;
/// A copy of a linked part's normal, turned with the part.
pub const TURNED_NORMAL: u16 = 3011;
/// A distance, as a circle's radius.
pub const DISTANCE: u16 = 4000;
/// A copy of a distance.
pub const COPIED_DISTANCE: u16 = 4001;
/// A face by a point and its normal, as at an extrusion's ends.
pub const FACE_BY_NORMAL: u16 = 5000;
/// A face along a line and a vector, as at an extrusion's side.
pub const FACE_BY_LINE: u16 = 5001;
/// A copy of a face, moved by so many times the group's vector.
pub const MOVED_FACE: u16 = 5003;
/// A workplane.
pub const WORKPLANE: u16 = 10000;
/// A line segment.
pub const LINE: u16 = 11000;
/// A cubic spline.
pub const CUBIC: u16 = 12000;
/// A circle.
pub const CIRCLE: u16 = 13000;
/// An arc of a circle.
pub const ARC: u16 = 14000;
