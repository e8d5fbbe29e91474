// Requests.

use crate::handle::{EntityId, GroupId, RequestId};

/// A request: what a user drew, as a whole.
#[derive(Clone, Copy, Debug, PartialEq, Eq)]
pub struct Request {
    /// Its handle.
    pub id: RequestId,
    /// Its number in SolveSpace's file format, one of `request_kind`.
    pub kind: u16,
    /// The group that it stands in.
    pub group: GroupId,
    /// The workplane that it is drawn in; none in space.
    pub workplane: EntityId,
    /// Whether it is for construction alone.
    pub construction: bool,
    /// How many points a cubic has beyond its four, 0 to 8; what other kinds have here isn't looked at.
    pub extra: u8,
}
