// What an extrusion makes.

ghost use Rattle.std.specs.Prelude.{◌≡◌, ◌≤◌, ◌++◌, ◌∷◌, ◌==◌, [], IfOk, OnOk, pos, negsuc, if◌then◌else◌};
ghost use Rattle.sk_types.specs.declared.entity_kind.TheConstants as entity_kind;
ghost use Rattle.sk_types.specs.Kinds.{is_point};
ghost use Rattle.sk_types.specs.Lists.{only_if};
ghost use Rattle.sk_copy.specs.Known.{number_at};
ghost use Rattle.sk_copy.specs.Copies.{end_copies, end_face, end_faces, extrude, extrude_as, first_point, normal_of_plane, side_face, side_line};

use crate::numbers::Numbers;
use crate::planes::{NONE, group_entity};
use crate::{NoMemory, copy_number as which};
use sk_types::{Entity, EntityId, Group, Maker, Numbering, entity_kind, is_face, is_point};
use std::alloc::Global;

// The item of a request that is its normal.
const NORMAL_ITEM: u16 = 32;

// How many times the vector the top stands.
fn top(two_sided: bool) -> i32
    ensures { result ≡ (if two_sided then pos 1 else pos 2) }
{
    if two_sided { 1 } else { 2 }
}

// How many times the vector the bottom stands.
fn bottom(two_sided: bool) -> i32
    ensures { result ≡ (if two_sided then negsuc 0 else pos 0) }
{
    if two_sided { -1 } else { 0 }
}

// Adds the copies at top and bottom.
fn add_ends<const S: u32>(
    alloc: Global,
    made: &mut Vec<Entity<S>>,
    numbers: &Numbers,
    group: &Group<S>,
    entity: &Entity<S>,
) -> Result<(), NoMemory>
    requires { group.now.id.0 ≤ 32767 }
    ensures { OnOk result (made.new.items ≡ made.old.items ++ end_copies group.now (number_at numbers.now) entity.now) }
{
    let (top, bottom) = (top(group.two_sided), bottom(group.two_sided));
    let upper = numbers.moved_copy(alloc, group, entity, which::TOP, top)?;
    made.push(upper)?;
    let lower = numbers.moved_copy(alloc, group, entity, which::BOTTOM, bottom)?;
    made.push(lower)?;
    Ok(())
}

// The line between a point's two copies.
fn side_line<const S: u32>(
    alloc: Global,
    numbers: &Numbers,
    group: &Group<S>,
    point: &Entity<S>,
) -> Result<Entity<S>, NoMemory>
    requires { group.now.id.0 ≤ 32767 }
    ensures { IfOk result (λ e. e ≡ side_line group.now (number_at numbers.now) point.now) }
{
    let mut points = Vec::new(alloc);
    points.push(numbers.copy_at(group, which::TOP, point.id))?;
    points.push(numbers.copy_at(group, which::BOTTOM, point.id))?;
    let number = numbers.number(point.id, which::SIDE_LINE);
    let mut line = group_entity(
        group,
        number,
        entity_kind::LINE,
        points,
        NONE,
        Numbering::Nothing,
    );
    line.construction = point.construction;
    Ok(line)
}

// The face between a line's two copies.
fn side_face<const S: u32>(
    alloc: Global,
    numbers: &Numbers,
    group: &Group<S>,
    line: &Entity<S>,
) -> Result<Entity<S>, NoMemory>
    requires { group.now.id.0 ≤ 32767 }
    ensures { IfOk result (λ e. e ≡ side_face group.now (number_at numbers.now) line.now) }
{
    let named = line.points.as_slice();
    let ends = &named[..named.len().min(2)];
    let points = numbers.copies_at(alloc, group, which::TOP, ends)?;
    let number = numbers.number(line.id, which::SIDE_FACE);
    Ok(group_entity(
        group,
        number,
        entity_kind::FACE_BY_LINE,
        points,
        NONE,
        Numbering::Nothing,
    ))
}

// Adds a point's line.
fn add_side_line<const S: u32>(
    alloc: Global,
    made: &mut Vec<Entity<S>>,
    numbers: &Numbers,
    group: &Group<S>,
    entity: &Entity<S>,
) -> Result<(), NoMemory>
    requires { group.now.id.0 ≤ 32767 }
    ensures { OnOk result (made.new.items ≡ made.old.items ++ only_if (is_point entity.now.kind) (side_line group.now (number_at numbers.now) entity.now ∷ [])) }
{
    if is_point(entity.kind) {
        made.push(side_line(alloc, numbers, group, entity)?)?;
    }
    Ok(())
}

// Adds a line's face.
fn add_side_face<const S: u32>(
    alloc: Global,
    made: &mut Vec<Entity<S>>,
    numbers: &Numbers,
    group: &Group<S>,
    entity: &Entity<S>,
) -> Result<(), NoMemory>
    requires { group.now.id.0 ≤ 32767 }
    ensures { OnOk result (made.new.items ≡ made.old.items ++ only_if (entity.now.kind == entity_kind.LINE) (side_face group.now (number_at numbers.now) entity.now ∷ [])) }
{
    if entity.kind == entity_kind::LINE {
        made.push(side_face(alloc, numbers, group, entity)?)?;
    }
    Ok(())
}

// Adds what an extrusion makes of an entity.
fn add_extruded<const S: u32>(
    alloc: Global,
    made: &mut Vec<Entity<S>>,
    numbers: &Numbers,
    group: &Group<S>,
    entity: &Entity<S>,
) -> Result<(), NoMemory>
    requires { group.now.id.0 ≤ 32767 }
    ensures { OnOk result (made.new.items ≡ made.old.items ++ extrude_as group.now (number_at numbers.now) entity.now) }
{
    if entity.kind == entity_kind::WORKPLANE || is_face(entity.kind) {
        return Ok(());
    }
    add_ends(alloc, made, numbers, group, entity)?;
    add_side_line(alloc, made, numbers, group, entity)?;
    add_side_face(alloc, made, numbers, group, entity)?;
    Ok(())
}

// The normal of a workplane, none for none.
fn normal_of_plane(plane: EntityId) -> EntityId
    ensures { result ≡ normal_of_plane plane }
{
    if plane.0 == 0 {
        return NONE;
    }
    match plane.maker() {
        Maker::OfRequest(request, _) => EntityId::of_request(request, NORMAL_ITEM),
        Maker::OfGroup(group, _) => EntityId::of_group(group, 1),
    }
}

// The face at one end, through the copy of a point.
fn end_face<const S: u32>(
    alloc: Global,
    numbers: &Numbers,
    group: &Group<S>,
    copy: u16,
    point: EntityId,
) -> Result<Entity<S>, NoMemory>
    requires { group.now.id.0 ≤ 32767 }
    ensures { IfOk result (λ e. e ≡ end_face group.now (number_at numbers.now) copy point) }
{
    let mut points = Vec::new(alloc);
    points.push(numbers.copy_at(group, copy, point))?;
    let number = numbers.number(NONE, copy);
    let normal = normal_of_plane(group.entity_b);
    Ok(group_entity(
        group,
        number,
        entity_kind::FACE_BY_NORMAL,
        points,
        normal,
        Numbering::Nothing,
    ))
}

// The first point of all.
fn first_point<const S: u32>(source: &[Entity<S>]) -> Option<EntityId>
    ensures { result ≡ first_point source.now }
{
    for entity in source {
        if is_point(entity.kind) {
            return Some(entity.id);
        }
    }
    None
}

// The faces at both ends, through the copies of a point.
fn end_faces<const S: u32>(
    alloc: Global,
    numbers: &Numbers,
    group: &Group<S>,
    through: Option<EntityId>,
) -> Result<Vec<Entity<S>>, NoMemory>
    requires { group.now.id.0 ≤ 32767 }
    ensures { IfOk result (λ v. v.items ≡ end_faces group.now (number_at numbers.now) through) }
{
    let mut made = Vec::new(alloc);
    let Some(point) = through else {
        return Ok(made);
    };
    made.push(end_face(alloc, numbers, group, which::TOP, point)?)?;
    made.push(end_face(alloc, numbers, group, which::BOTTOM, point)?)?;
    Ok(made)
}

/// The entities of an extrusion, by the numbers of its list.
pub(crate) fn extrude<const S: u32>(
    alloc: Global,
    numbers: &Numbers,
    group: &Group<S>,
    source: &[Entity<S>],
) -> Result<Vec<Entity<S>>, NoMemory>
    requires { group.now.id.0 ≤ 32767 }
    ensures { IfOk result (λ v. v.items ≡ extrude group.now (number_at numbers.now) source.now) }
{
    let mut made = end_faces(alloc, numbers, group, first_point(source))?;
    for entity in source {
        add_extruded(alloc, &mut made, numbers, group, entity)?;
    }
    Ok(made)
}
