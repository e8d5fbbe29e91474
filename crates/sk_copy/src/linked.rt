// What a linked group makes of its part's entities.

ghost use Rattle.std.specs.Prelude.{◌≡◌, ◌≤◌, ◌⊎◌, IfOk, IfErr, Some, None};
ghost use Rattle.sk_num.specs.Each.{each_some};
ghost use Rattle.sk_num.specs.Rounding.{rounded_product};
ghost use Rattle.sk_num.specs.Scale.{IsScale};
ghost use Rattle.sk_types.specs.Kinds.{is_distance, is_normal, is_point};
ghost use Rattle.sk_types.specs.Lookups.{Rise};
ghost use Rattle.sk_copy.specs.Wanted.{has_point, is_there_as, is_linked, is_whole, names_fit};
ghost use Rattle.sk_copy.specs.Known.{number_at};
ghost use Rattle.sk_copy.specs.Copies.{link, linked_copy, linked_kind, numbers_if, placed_as};

use crate::copy_number as which;
use crate::fault::CopyFault;
use crate::numbers::Numbers;
use sk_num::{Grid, rmul};
use sk_types::{
    Entity, EntityId, Group, Numbering, entity_at, entity_kind, has_numbers, is_distance,
    is_normal, is_point,
};
use std::alloc::Global;

// Whether a name is none, or one of the part's points.
fn is_point_or_none<const S: u32>(source: &[Entity<S>], id: EntityId) -> bool
    requires { Rise source.now }
    ensures { result ≡ is_there_as is_point source.now id }
{
    if id.0 == 0 {
        return true;
    }
    match entity_at(source, id) {
        Some(entity) => is_point(entity.kind),
        None => false,
    }
}

// Whether a name is none, or one of the part's normals.
fn is_normal_or_none<const S: u32>(source: &[Entity<S>], id: EntityId) -> bool
    requires { Rise source.now }
    ensures { result ≡ is_there_as is_normal source.now id }
{
    if id.0 == 0 {
        return true;
    }
    match entity_at(source, id) {
        Some(entity) => is_normal(entity.kind),
        None => false,
    }
}

// Whether a name is none, or one of the part's distances.
fn is_distance_or_none<const S: u32>(source: &[Entity<S>], id: EntityId) -> bool
    requires { Rise source.now }
    ensures { result ≡ is_there_as is_distance source.now id }
{
    if id.0 == 0 {
        return true;
    }
    match entity_at(source, id) {
        Some(entity) => is_distance(entity.kind),
        None => false,
    }
}

// Whether all that an entity names is there as what it has to be.
fn names_fit<const S: u32>(source: &[Entity<S>], entity: &Entity<S>) -> bool
    requires { Rise source.now }
    ensures { result ≡ names_fit source.now entity.now }
{
    for point in entity.points.as_slice() {
        if !is_point_or_none(source, *point) {
            return false;
        }
    }
    is_normal_or_none(source, entity.normal) && is_distance_or_none(source, entity.distance)
}

// Whether an entity names a point in this place.
fn has_point<const S: u32>(entity: &Entity<S>, place: usize) -> bool
    ensures { result ≡ has_point entity.now place }
{
    match entity.points.as_slice().get(place) {
        Some(point) => point.0 != 0,
        None => false,
    }
}

// Whether a curve names all that it needs.
fn is_whole<const S: u32>(entity: &Entity<S>) -> bool
    ensures { result ≡ is_whole entity.now }
{
    let has_normal = entity.normal.0 != 0;
    match entity.kind {
        entity_kind::LINE => has_point(entity, 0) && has_point(entity, 1),
        entity_kind::CIRCLE => has_point(entity, 0) && has_normal && entity.distance.0 != 0,
        entity_kind::ARC => {
            has_point(entity, 0) && has_point(entity, 1) && has_point(entity, 2) && has_normal
        }
        _ => false,
    }
}

/// Whether a linked group copies an entity of its part.
pub(crate) fn is_linked<const S: u32>(source: &[Entity<S>], entity: &Entity<S>) -> bool
    requires { Rise source.now }
    ensures { result ≡ is_linked source.now entity.now }
{
    has_numbers(entity.kind) || (is_whole(entity) && names_fit(source, entity))
}

// What a linked copy of an entity of this kind is.
fn linked_kind(kind: u16) -> u16
    ensures { result ≡ linked_kind kind }
{
    if is_point(kind) {
        entity_kind::TURNED_POINT
    } else if is_normal(kind) {
        entity_kind::TURNED_NORMAL
    } else if is_distance(kind) {
        entity_kind::COPIED_DISTANCE
    } else {
        kind
    }
}

// Four numbers times the scale.
fn scaled<const S: u32>(numbers: [Grid<S>; 4], scale: Grid<S>) -> Option<[Grid<S>; 4]>
    requires { IsScale S }
    ensures { result ≡ each_some (λ x. rounded_product S x scale.entry) numbers.entry }
{
    let [x, y, z, w] = numbers;
    Some([
        rmul(x, scale)?,
        rmul(y, scale)?,
        rmul(z, scale)?,
        rmul(w, scale)?,
    ])
}

// Where a linked copy stands in its part: points and distances are scaled, normals are not.
fn placed_as<const S: u32>(scale: Grid<S>, kind: u16, numbers: [Grid<S>; 4]) -> Option<[Grid<S>; 4]>
    requires { IsScale S }
    ensures { result ≡ placed_as S scale.entry kind numbers.entry }
{
    if is_normal(kind) {
        Some(numbers)
    } else {
        scaled(numbers, scale)
    }
}

// The numbers of a linked copy; what has none has none, nor has what isn't placed.
fn numbers_if<const S: u32>(scale: Grid<S>, entity: &Entity<S>) -> Option<Numbering<S>>
    requires { IsScale S }
    ensures { result ≡ numbers_if scale.entry entity.now }
{
    match entity.numbers {
        Numbering::Placed(numbers) if has_numbers(entity.kind) => {
            let numbers = placed_as(scale, entity.kind, numbers)?;
            Some(Numbering::Placed(numbers))
        }
        _ => Some(Numbering::Nothing),
    }
}

// The linked copy of an entity.
fn linked_copy<const S: u32>(
    alloc: Global,
    numbers: &Numbers,
    group: &Group<S>,
    entity: &Entity<S>,
) -> Result<Entity<S>, CopyFault>
    requires scale { IsScale S }
    requires id { group.now.id.0 ≤ 32767 }
    ensures made { IfOk result (λ e. linked_copy group.now (number_at numbers.now) entity.now ≡ Some e) }
    ensures past { IfErr result (λ f. (f ≡ CopyFault.NoMemory) ⊎ ((f ≡ CopyFault.PastLimit) × (linked_copy group.now (number_at numbers.now) entity.now ≡ None))) }
{
    let Some(placed) = numbers_if(group.scale, entity) else {
        return Err(CopyFault::PastLimit);
    };
    let kind = linked_kind(entity.kind);
    let copied = numbers.copy_of(alloc, group, which::LINKED, kind, placed, entity)?;
    Ok(copied)
}

/// The entities of a linked group, by the numbers of its list.
pub(crate) fn link<const S: u32>(
    alloc: Global,
    numbers: &Numbers,
    group: &Group<S>,
    source: &[Entity<S>],
) -> Result<Vec<Entity<S>>, CopyFault>
    requires scale { IsScale S }
    requires id { group.now.id.0 ≤ 32767 }
    requires rise { Rise source.now }
    ensures made { IfOk result (λ v. link group.now (number_at numbers.now) source.now ≡ Some v.items) }
    ensures past { IfErr result (λ f. (f ≡ CopyFault.NoMemory) ⊎ ((f ≡ CopyFault.PastLimit) × (link group.now (number_at numbers.now) source.now ≡ None))) }
{
    let mut made = Vec::new(alloc);
    for entity in source {
        if is_linked(source, entity) {
            made.push(linked_copy(alloc, numbers, group, entity)?)?;
        }
    }
    Ok(made)
}
