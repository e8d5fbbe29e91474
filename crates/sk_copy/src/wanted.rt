// Which copies a group has.

ghost use Rattle.std.specs.Prelude.{◌≡◌, ◌≤◌, ◌<◌, IfOk};
ghost use Rattle.sk_types.specs.declared.group.GroupKind.TheVariants as kind;
ghost use Rattle.sk_types.specs.Lookups.{Rise};
ghost use Rattle.sk_copy.specs.Wanted.{copy_number, ends_by, extruded_as, first_copy, linked_as, moves_by, translated_as, wanted_as};

use crate::linked::is_linked;
use crate::{NoMemory, copy_number as which};
use sk_types::{Entity, Group, GroupKind, entity_kind, is_face, is_point};
use std::alloc::Global;

/// An entity that is copied, by its handle, and which copy of it.
pub(crate) type Key = (u32, u16);

// The copies that an extrusion has of an entity.
fn extruded_as<const S: u32>(alloc: Global, entity: &Entity<S>) -> Result<Vec<Key>, NoMemory>
    ensures { IfOk result (λ v. v.items ≡ extruded_as entity.now) }
{
    let mut keys = Vec::new(alloc);
    if entity.kind == entity_kind::WORKPLANE || is_face(entity.kind) {
        return Ok(keys);
    }
    let source = entity.id.0;
    keys.push((source, which::TOP))?;
    keys.push((source, which::BOTTOM))?;
    if is_point(entity.kind) {
        keys.push((source, which::SIDE_LINE))?;
    }
    if entity.kind == entity_kind::LINE {
        keys.push((source, which::SIDE_FACE))?;
    }
    Ok(keys)
}

/// The first copy of a translation: one way, that in the source's place may be left out.
pub(crate) fn first_copy<const S: u32>(group: &Group<S>) -> u16
    ensures value { result ≡ first_copy group.now }
    ensures few { result ≤ 1 }
{
    u16::from(group.skip_first && !group.two_sided)
}

/// The number of copy `a`, where the copies end before `end`.
pub(crate) fn copy_number(end: u16, a: u16) -> u16
    requires { a < 65535 }
    ensures { result ≡ copy_number end a }
{
    if a + 1 == end { which::LAST } else { a }
}

// The copies that a translation has of an entity.
fn translated_as<const S: u32>(
    alloc: Global,
    group: &Group<S>,
    entity: &Entity<S>,
) -> Result<Vec<Key>, NoMemory>
    requires { group.now.copies ≤ 999 }
    ensures { IfOk result (λ v. v.items ≡ translated_as (moves_by kind.Translate group.now) entity.now) }
{
    let mut keys = Vec::new(alloc);
    if entity.kind == entity_kind::WORKPLANE {
        return Ok(keys);
    }
    let first = first_copy(group);
    let end = first + group.copies;
    for i in 0..group.copies {
        keys.push((entity.id.0, copy_number(end, first + i)))?;
    }
    Ok(keys)
}

// The copy that a linked group has of an entity of its part.
fn linked_as<const S: u32>(
    alloc: Global,
    source: &[Entity<S>],
    entity: &Entity<S>,
) -> Result<Vec<Key>, NoMemory>
    requires { Rise source.now }
    ensures { IfOk result (λ v. v.items ≡ linked_as source.now entity.now) }
{
    let mut keys = Vec::new(alloc);
    if is_linked(source, entity) {
        keys.push((entity.id.0, which::LINKED))?;
    }
    Ok(keys)
}

/// The copies of nothing that a group has: the faces at an extrusion's ends.
pub(crate) fn ends_by(alloc: Global, kind: GroupKind) -> Result<Vec<Key>, NoMemory>
    ensures { IfOk result (λ v. v.items ≡ ends_by kind) }
{
    let mut keys = Vec::new(alloc);
    if kind == GroupKind::Extrude {
        keys.push((0, which::TOP))?;
        keys.push((0, which::BOTTOM))?;
    }
    Ok(keys)
}

/// The copies that a group has of one of these entities.
pub(crate) fn wanted_as<const S: u32>(
    alloc: Global,
    group: &Group<S>,
    source: &[Entity<S>],
    entity: &Entity<S>,
) -> Result<Vec<Key>, NoMemory>
    requires copies { group.now.copies ≤ 999 }
    requires rise { Rise source.now }
    ensures { IfOk result (λ v. v.items ≡ wanted_as group.now.kind group.now source.now entity.now) }
{
    match group.kind {
        GroupKind::Space | GroupKind::Plane => Ok(Vec::new(alloc)),
        GroupKind::Extrude => extruded_as(alloc, entity),
        GroupKind::Translate => translated_as(alloc, group, entity),
        GroupKind::Linked => linked_as(alloc, source, entity),
    }
}
