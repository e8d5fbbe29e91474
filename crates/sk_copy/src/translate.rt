// What a translation makes.

ghost use Rattle.std.specs.Prelude.{◌≡◌, ◌≤◌, ◌<◌, ◌++◌, IfOk, OnOk};
ghost use Rattle.sk_copy.specs.Wanted.{times_of};
ghost use Rattle.sk_copy.specs.Known.{number_at};
ghost use Rattle.sk_copy.specs.Copies.{face_copy, translate, translate_as, translated_by};

use crate::NoMemory;
use crate::numbers::Numbers;
use crate::planes::{NONE, group_entity};
use crate::wanted::{copy_number, first_copy};
use sk_types::{Entity, EntityId, Group, Numbering, entity_kind, is_face};
use std::alloc::Global;

// How many times the vector copy a of so many stands, both ways from the source or one way.
fn times_of(two_sided: bool, count: u16, a: u16) -> i32
    requires count { count ≤ 1000 }
    requires copy { a ≤ 1000 }
    ensures { result ≡ times_of two_sided count a }
{
    let twice = 2 * i32::from(a);
    if two_sided {
        twice + 1 - i32::from(count)
    } else {
        twice
    }
}

// The copy of a face: through the copy of its first point.
fn face_copy<const S: u32>(
    alloc: Global,
    numbers: &Numbers,
    group: &Group<S>,
    face: &Entity<S>,
    copy: u16,
) -> Result<Entity<S>, NoMemory>
    requires { group.now.id.0 ≤ 32767 }
    ensures { IfOk result (λ e. e ≡ face_copy group.now (number_at numbers.now) face.now copy) }
{
    let first = match face.points.as_slice().first() {
        Some(point) => *point,
        None => NONE,
    };
    let mut points = Vec::new(alloc);
    points.push(numbers.copy_at(group, copy, first))?;
    let number = numbers.number(face.id, copy);
    let of_face = Numbering::Copied(face.id);
    Ok(group_entity(
        group,
        number,
        entity_kind::MOVED_FACE,
        points,
        NONE,
        of_face,
    ))
}

// One copy of an entity, a face or not.
fn translated<const S: u32>(
    alloc: Global,
    numbers: &Numbers,
    group: &Group<S>,
    entity: &Entity<S>,
    copy: u16,
    times: i32,
) -> Result<Entity<S>, NoMemory>
    requires { group.now.id.0 ≤ 32767 }
    ensures { IfOk result (λ e. e ≡ translated_by group.now (number_at numbers.now) entity.now (copy, times)) }
{
    if is_face(entity.kind) {
        face_copy(alloc, numbers, group, entity, copy)
    } else {
        numbers.moved_copy(alloc, group, entity, copy, times)
    }
}

// Adds what a translation makes of an entity.
fn add_translated<const S: u32>(
    alloc: Global,
    made: &mut Vec<Entity<S>>,
    numbers: &Numbers,
    group: &Group<S>,
    entity: &Entity<S>,
) -> Result<(), NoMemory>
    requires id { group.now.id.0 ≤ 32767 }
    requires copies { group.now.copies ≤ 999 }
    ensures { OnOk result (made.new.items ≡ made.old.items ++ translate_as group.now (number_at numbers.now) entity.now) }
{
    if entity.kind == entity_kind::WORKPLANE {
        return Ok(());
    }
    let first = first_copy(group);
    let end = first + group.copies;
    for i in 0..group.copies {
        let a = first + i;
        let times = times_of(group.two_sided, group.copies, a);
        made.push(translated(alloc, numbers, group, entity, copy_number(end, a), times)?)?;
    }
    Ok(())
}

/// The entities of a translation, by the numbers of its list.
pub(crate) fn translate<const S: u32>(
    alloc: Global,
    numbers: &Numbers,
    group: &Group<S>,
    source: &[Entity<S>],
) -> Result<Vec<Entity<S>>, NoMemory>
    requires id { group.now.id.0 ≤ 32767 }
    requires copies { group.now.copies ≤ 999 }
    ensures { IfOk result (λ v. v.items ≡ translate group.now (number_at numbers.now) source.now) }
{
    let mut made = Vec::new(alloc);
    for entity in source {
        add_translated(alloc, &mut made, numbers, group, entity)?;
    }
    Ok(made)
}
