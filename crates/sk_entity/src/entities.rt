// The entities of a request.

ghost use Rattle.std.specs.Prelude.{◌≡◌, ◌≤◌, ◌<◌, ℕ, IfOk, length};
ghost use Rattle.sk_entity.specs.Requests.{bare, point_kind, point_of, normal_of, curve_of, request_entities, param_item, part_count};

use crate::NoMemory;
use crate::shape::{Shape, shape_of};
use sk_num::Items;
use sk_types::{Entity, EntityId, Numbering, ParamId, Request, entity_kind, request_kind};
use std::alloc::Global;

// No entity.
const NONE: EntityId = EntityId(0);

// An entity that names no other.
fn bare<const S: u32>(
    alloc: Global,
    r: &Request,
    item: u16,
    kind: u16,
    construction: bool,
    numbers: Numbering<S>,
) -> Entity<S>
    requires { r.now.id.0 ≤ 32767 }
    ensures { result ≡ bare S r.now item kind construction numbers.entry }
{
    Entity {
        id: EntityId::of_request(r.id, item),
        kind,
        group: r.group,
        construction,
        points: Items::of(Vec::new(alloc)),
        normal: NONE,
        distance: NONE,
        workplane: r.workplane,
        numbers,
    }
}

fn point_kind(r: &Request) -> u16
    ensures { result ≡ point_kind r.now }
{
    if r.workplane.0 == 0 {
        entity_kind::POINT_IN_SPACE
    } else {
        entity_kind::POINT_IN_WORKPLANE
    }
}

fn own<const S: u32>(r: &Request, item: u16) -> Numbering<S>
    requires { r.now.id.0 ≤ 32767 }
    ensures { result ≡ Numbering.Own (param_item r.now item) }
{
    Numbering::Own(ParamId::of_request(r.id, item))
}

fn point<const S: u32>(alloc: Global, r: &Request, i: u16) -> Entity<S>
    requires known { r.now.id.0 ≤ 32767 }
    requires few { i < 259 }
    ensures { result ≡ point_of S r.now i }
{
    bare(alloc, r, i + 1, point_kind(r), false, own(r, 16 + 3 * i))
}

fn normal<const S: u32>(alloc: Global, r: &Request) -> Entity<S>
    requires { r.now.id.0 ≤ 32767 }
    ensures { result ≡ normal_of S r.now }
{
    if r.workplane.0 == 0 {
        bare(
            alloc,
            r,
            32,
            entity_kind::NORMAL_IN_SPACE,
            false,
            own(r, 32),
        )
    } else {
        bare(
            alloc,
            r,
            32,
            entity_kind::NORMAL_IN_WORKPLANE,
            false,
            Numbering::Nothing,
        )
    }
}

// Entity 0, which names the others.
fn curve<const S: u32>(alloc: Global, r: &Request, shape: &Shape) -> Result<Entity<S>, NoMemory>
    requires known { r.now.id.0 ≤ 32767 }
    requires few { shape.now.points ≤ 259 }
    ensures { IfOk result (λ e. e ≡ curve_of S r.now shape.now) }
{
    let mut points = Vec::new(alloc);
    for i in 0..shape.points {
        points.push(EntityId::of_request(r.id, i + 1))?;
    }
    let normal = if shape.has_normal {
        EntityId::of_request(r.id, 32)
    } else {
        NONE
    };
    let distance = if shape.has_distance {
        EntityId::of_request(r.id, 64)
    } else {
        NONE
    };
    Ok(Entity {
        id: EntityId::of_request(r.id, 0),
        kind: shape.entity,
        group: r.group,
        construction: r.construction,
        points: Items::of(points),
        normal,
        distance,
        workplane: r.workplane,
        numbers: Numbering::Nothing,
    })
}

/// The entities of a request, in rising handle order; none where its number isn't known.
#[tactic(auto, unfolding(crate::specs::Requests::request_entities))]
pub fn request_entities<const S: u32>(
    alloc: Global,
    r: &Request,
) -> Result<Vec<Entity<S>>, NoMemory>
    requires { r.now.id.0 ≤ 32767 }
    ensures { IfOk result (λ v. v.items ≡ request_entities S r.now) }
{
    let mut entities = Vec::new(alloc);
    if r.kind == request_kind::DATUM_POINT {
        entities.push(bare(alloc, r, 0, point_kind(r), r.construction, own(r, 16)))?;
        return Ok(entities);
    }
    let Some(shape) = shape_of(r) else {
        return Ok(entities);
    };
    entities.push(curve(alloc, r, &shape)?)?;
    for i in 0..shape.points {
        entities.push(point(alloc, r, i))?;
    }
    if shape.has_normal {
        entities.push(normal(alloc, r))?;
    }
    if shape.has_distance {
        entities.push(bare(alloc, r, 64, entity_kind::DISTANCE, false, own(r, 64)))?;
    }
    Ok(entities)
}

/// How many entities a request makes.
#[tactic(auto, unfolding(crate::specs::Requests::request_entities))]
pub fn entity_count(r: &Request) -> usize
    ensures count { (s : ℕ) → result ≡ length (request_entities s r.now) }
    ensures few { result ≤ 262 }
{
    if r.kind == request_kind::DATUM_POINT {
        return 1;
    }
    match shape_of(r) {
        Some(shape) => count_of(&shape),
        None => 0,
    }
}

// How many parts a shape has, entity 0 among them.
fn count_of(shape: &Shape) -> usize
    requires { shape.now.points ≤ 259 }
    ensures count { result ≡ part_count shape.now }
    ensures few { result ≤ 262 }
{
    1 + usize::from(shape.points) + usize::from(shape.has_normal) + usize::from(shape.has_distance)
}
