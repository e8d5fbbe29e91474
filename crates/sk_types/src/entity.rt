// Entities, and the numbers that place them.

use crate::handle::{EntityId, GroupId, ParamId};
use sk_num::{Grid, Items};

/// Where the numbers of a point, a normal or a distance come from.
#[derive(Clone, Copy, Debug, PartialEq, Eq)]
pub enum Numbering<const S: u32> {
    /// From this parameter on.
    Own(ParamId),
    /// A point moved from another by so many times the group's vector.
    Moved {
        /// The point that is moved.
        of_entity: EntityId,
        /// How many times the vector.
        times: i32,
    },
    /// Those of another entity.
    Copied(EntityId),
    /// These numbers.
    Placed([Grid<S>; 4]),
    /// It has none.
    Nothing,
}

/// A point, a normal, a distance, a workplane, a curve or a face.
#[derive(Debug, Drop)]
pub struct Entity<const S: u32> {
    /// Its handle.
    pub id: EntityId,
    /// Its number in SolveSpace's file format, one of `entity_kind`.
    pub kind: u16,
    /// The group that it stands in.
    pub group: GroupId,
    /// Whether it is for construction alone.
    pub construction: bool,
    /// The points that it names, in order.
    pub points: Items<EntityId>,
    /// The normal that it names, or none.
    pub normal: EntityId,
    /// The distance that it names, or none.
    pub distance: EntityId,
    /// The workplane that it is drawn in, or none.
    pub workplane: EntityId,
    /// Where its numbers come from.
    pub numbers: Numbering<S>,
}

/// The groups in their order, and all entities in rising handle order.
#[derive(Debug, Drop)]
pub struct Outline<const S: u32> {
    /// The groups, group 1 first.
    pub order: Items<GroupId>,
    /// The entities of all groups.
    pub entities: Items<Entity<S>>,
}

/// A parameter with its value.
#[derive(Clone, Copy, Debug, PartialEq, Eq)]
pub struct ParamValue<const S: u32> {
    /// The parameter.
    pub id: ParamId,
    /// Its value.
    pub value: Grid<S>,
}

/// The numbers at which an entity stands.
#[derive(Clone, Copy, Debug, PartialEq, Eq)]
pub struct Act<const S: u32> {
    /// The entity.
    pub entity: EntityId,
    /// A point's x, y, z; a normal's w, x, y, z; a distance. What isn't used is 0.
    pub values: [Grid<S>; 4],
}

/// Parameters and the numbers of entities, both in rising handle order.
#[derive(Debug, Drop)]
pub struct Numbers<const S: u32> {
    /// The parameters.
    pub params: Items<ParamValue<S>>,
    /// The entities that have numbers.
    pub acts: Items<Act<S>>,
}
