//! The numbers of groups in SolveSpace's file format.

/// A drawing in space.
pub const DRAWING_IN_SPACE: u16 = 5000;
/// A drawing in a workplane.
pub const DRAWING_IN_WORKPLANE: u16 = 5001;
/// An extrusion.
pub const EXTRUSION: u16 = 5100;
/// A lathe; left out.
pub const LATHE: u16 = 5101;
/// A revolution by an angle; left out.
pub const REVOLUTION: u16 = 5102;
/// A helix; left out.
pub const HELIX: u16 = 5103;
/// Copies that are turned step by step; left out.
pub const ROTATION: u16 = 5200;
/// Copies that are moved step by step.
pub const TRANSLATION: u16 = 5201;
/// The entities of another file.
pub const LINKED_PART: u16 = 5300;

/// The subtype of a drawing in a workplane by an origin and a quaternion.
pub const BY_ORIGIN: u16 = 6000;
/// The subtype of a drawing in a workplane by an origin and two line segments.
pub const BY_LINE_SEGMENTS: u16 = 6001;
/// The subtype of an extrusion or a translation to one side.
pub const ONE_SIDED: u16 = 7000;
/// The subtype of an extrusion or a translation to both sides.
pub const TWO_SIDED: u16 = 7001;
