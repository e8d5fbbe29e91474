// The entities of a drawing in a workplane.

ghost use Rattle.std.specs.Prelude.{◌≡◌, ◌≤◌, IfOk};
ghost use Rattle.sk_copy.specs.Copies.{group_entity, plane_entities, plane_numbers};

use crate::NoMemory;
use sk_num::Items;
use sk_types::{Entity, EntityId, Group, Numbering, entity_kind};
use std::alloc::Global;

/// No entity.
pub(crate) const NONE: EntityId = EntityId(0);

/// An entity that a group makes, not for construction, with the points and the normal that it names.
pub(crate) fn group_entity<const S: u32>(
    group: &Group<S>,
    item: u16,
    kind: u16,
    points: Vec<EntityId>,
    normal: EntityId,
    numbers: Numbering<S>,
) -> Entity<S>
    requires { group.now.id.0 ≤ 32767 }
    ensures { result ≡ group_entity group.now item kind points.items normal numbers.entry }
{
    Entity {
        id: EntityId::of_group(group.id, item),
        kind,
        group: group.id,
        construction: false,
        points: Items::of(points),
        normal,
        distance: NONE,
        workplane: NONE,
        numbers,
    }
}

// The frame of a drawing in a workplane: the group's quaternion, or none where two lines are to give it.
fn plane_numbers<const S: u32>(group: &Group<S>) -> Numbering<S>
    ensures { result ≡ plane_numbers group.now }
{
    if group.by_lines {
        Numbering::Nothing
    } else {
        Numbering::Placed(group.quaternion)
    }
}

/// The entities of a drawing in a workplane: the workplane, its normal and its origin.
pub fn plane_entities<const S: u32>(
    alloc: Global,
    group: &Group<S>,
) -> Result<Vec<Entity<S>>, NoMemory>
    requires { group.now.id.0 ≤ 32767 }
    ensures { IfOk result (λ v. v.items ≡ plane_entities group.now) }
{
    let mut origin = Vec::new(alloc);
    origin.push(EntityId::of_group(group.id, 2))?;
    let normal = EntityId::of_group(group.id, 1);
    let mut made = Vec::new(alloc);
    made.push(group_entity(
        group,
        0,
        entity_kind::WORKPLANE,
        origin,
        normal,
        Numbering::Nothing,
    ))?;
    let frame = plane_numbers(group);
    made.push(group_entity(
        group,
        1,
        entity_kind::COPIED_NORMAL,
        Vec::new(alloc),
        NONE,
        frame,
    ))?;
    let place = Numbering::Copied(group.origin);
    made.push(group_entity(
        group,
        2,
        entity_kind::COPIED_POINT,
        Vec::new(alloc),
        NONE,
        place,
    ))?;
    Ok(made)
}
