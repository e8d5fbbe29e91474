// Groups.

ghost use Rattle.std.specs.Prelude.{◌≡◌, IfOk};

use crate::NoMemory;
use crate::handle::{EntityId, GroupId};
use sk_num::{Grid, Items, Text};
use std::alloc::Global;

/// What a group makes.
#[derive(Clone, Copy, Debug, PartialEq, Eq)]
pub enum GroupKind {
    /// A drawing in space.
    Space,
    /// A drawing in a workplane.
    Plane,
    /// An extrusion of its source group.
    Extrude,
    /// Copies of its source group, moved step by step.
    Translate,
    /// The entities of another file.
    Linked,
}

/// The number that a group gives to a copy of a source entity.
#[derive(Clone, Copy, Debug, PartialEq, Eq)]
pub struct RemapEntry {
    /// The number of the copy's item in the group.
    pub number: u16,
    /// The entity that is copied.
    pub source: EntityId,
    /// Which copy of it.
    pub copy: u16,
}

/// A group of the model.
#[derive(Debug, Drop)]
pub struct Group<const S: u32> {
    /// Its handle.
    pub id: GroupId,
    /// What it makes.
    pub kind: GroupKind,
    /// Its place among the groups, by rising order.
    pub order: i32,
    /// The workplane that is active in it, or none.
    pub active: EntityId,
    /// The group that is extruded or moved, or none.
    pub source: GroupId,
    /// How many copies a translation makes; 0 in any other group.
    pub copies: u16,
    /// Whether copies go both ways from the source.
    pub two_sided: bool,
    /// Whether the copy in the source's place is left out.
    pub skip_first: bool,
    /// Whether the frame of a drawing in a workplane is given by two line segments.
    pub by_lines: bool,
    /// The frame of a drawing in a workplane: w, x, y, z.
    pub quaternion: [Grid<S>; 4],
    /// The origin of a drawing in a workplane.
    pub origin: EntityId,
    /// The line along the first axis, or the workplane of an extrusion or a translation.
    pub entity_b: EntityId,
    /// The line along the second axis.
    pub entity_c: EntityId,
    /// Whether the two axes change places.
    pub swap_uv: bool,
    /// Whether the first axis is turned round.
    pub negate_u: bool,
    /// Whether the second axis is turned round.
    pub negate_v: bool,
    /// By how much a linked part is scaled.
    pub scale: Grid<S>,
    /// The numbers of its copies.
    pub remap: Items<RemapEntry>,
    /// The name of the linked file; empty in any other group.
    pub part: Text,
}

impl<const S: u32> Group<S> {
    /// An equal group.
    pub fn copy(&self, alloc: Global) -> Result<Group<S>, NoMemory>
        ensures { IfOk result (λ g. g ≡ self.now) }
    {
        Ok(Group {
            remap: self.remap.copy(alloc)?,
            part: self.part.copy(alloc)?,
            ..*self
        })
    }
}
