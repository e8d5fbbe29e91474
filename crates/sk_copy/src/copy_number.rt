//! Which copy of an entity a remap list speaks of, as SolveSpace numbers them.

/// A linked part's entity.
pub const LINKED: u16 = 0;
/// The last copy of a translation.
pub const LAST: u16 = 1000;
/// The copy at an extrusion's top, or the face there.
pub const TOP: u16 = 1001;
/// The copy at an extrusion's bottom, or the face there.
pub const BOTTOM: u16 = 1002;
/// The line between a point's copies at top and bottom.
pub const SIDE_LINE: u16 = 1003;
/// The face between a line's copies at top and bottom.
pub const SIDE_FACE: u16 = 1004;
