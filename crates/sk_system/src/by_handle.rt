// Entities by their handles, as trees. What isn't there is 0.
#![tactic(auto)]

ghost use Rattle.std.specs.Prelude.{◌≡◌, [], map, IfOk};
ghost use Rattle.std.specs.Option.{option_copied};
ghost use Rattle.sk_num.specs.Scale.{IsScale};
ghost use Rattle.sk_types.specs.Needs.{named};
ghost use Rattle.sk_expr.specs.Trees.{poly_of};
ghost use Rattle.sk_expr.specs.Parts.{no_vector};
ghost use Rattle.sk_expr.specs.PartViews.{v3_of, pair_of, frame_of, axes_of};
ghost use Rattle.sk_geom.specs.Sources.{IsSource, three_numbers, four_numbers};
ghost use Rattle.sk_geom.specs.EntityTrees.{of_entity, normal_tree};
ghost use Rattle.sk_geom.specs.Views.{source_of};
ghost use Rattle.sk_system.specs.ByHandle.{entity_by, point_by, flat_by, frame_by, axes_by, distance_by, points_of, normal_of, distance_of, end_by, is_normal_by, is_arc_by, is_cubic_by, normal_plane};

use crate::NoMemory;
use sk_expr::{Expr, Frame, Tree, V3};
use sk_geom::{Source, distance_tree, frame, in_plane, point_tree, quat_axes, quat_tree};
use sk_num::Grid;
use sk_types::{Entity, EntityId, entity_at, entity_kind, is_normal};
use std::alloc::Global;

/// The entity with a handle.
pub(crate) fn entity_by<'a, const S: u32>(
    source: &'a Source<'_, S>,
    id: EntityId,
) -> Option<&'a Entity<S>>
    requires { IsSource (source_of source.now) }
    ensures { option_copied result ≡ entity_by (source_of source.now) id }
{
    entity_at(source.outline.entities.as_slice(), id)
}

pub(crate) fn no_point<const S: u32>() -> V3<S>
    ensures { v3_of result ≡ three_numbers [] }
{
    V3 {
        x: Expr::Num(Grid::zero()),
        y: Expr::Num(Grid::zero()),
        z: Expr::Num(Grid::zero()),
    }
}

fn no_pair<const S: u32>() -> [Tree<S>; 2]
    ensures { pair_of result ≡ no_vector }
{
    [Expr::Num(Grid::zero()), Expr::Num(Grid::zero())]
}

fn no_normal<const S: u32>() -> [Tree<S>; 4]
    ensures { map poly_of result ≡ four_numbers [] }
{
    [
        Expr::Num(Grid::zero()),
        Expr::Num(Grid::zero()),
        Expr::Num(Grid::zero()),
        Expr::Num(Grid::zero()),
    ]
}

/// A point in space.
#[tactic(auto, unfolding(crate::specs::ByHandle::point_by))]
pub(crate) fn point_by<const S: u32>(
    alloc: Global,
    source: &Source<'_, S>,
    id: EntityId,
) -> Result<V3<S>, NoMemory>
    requires scale { IsScale S }
    requires source { IsSource (source_of source.now) }
    ensures { IfOk result (λ v. v3_of v ≡ point_by (source_of source.now) id) }
{
    match entity_by(source, id) {
        Some(e) => point_tree(alloc, e, source),
        None => Ok(no_point()),
    }
}

/// A point in a workplane.
#[tactic(auto, unfolding(crate::specs::ByHandle::flat_by))]
pub(crate) fn flat_by<const S: u32>(
    alloc: Global,
    source: &Source<'_, S>,
    workplane: EntityId,
    id: EntityId,
) -> Result<[Tree<S>; 2], NoMemory>
    requires scale { IsScale S }
    requires source { IsSource (source_of source.now) }
    ensures { IfOk result (λ uv. pair_of uv ≡ flat_by (source_of source.now) workplane id) }
{
    let Some(w) = entity_by(source, workplane) else {
        return Ok(no_pair());
    };
    match entity_by(source, id) {
        Some(e) => in_plane(alloc, e, w, source),
        None => Ok(no_pair()),
    }
}

fn no_frame<const S: u32>() -> Frame<S>
    ensures { frame_of result ≡ record { origin = three_numbers []; u = three_numbers []; v = three_numbers []; n = three_numbers [] } }
{
    Frame {
        origin: no_point(),
        u: no_point(),
        v: no_point(),
        n: no_point(),
    }
}

/// The frame of a workplane.
#[tactic(auto, unfolding(crate::specs::ByHandle::frame_by))]
pub(crate) fn frame_by<const S: u32>(
    alloc: Global,
    source: &Source<'_, S>,
    id: EntityId,
) -> Result<Frame<S>, NoMemory>
    requires scale { IsScale S }
    requires source { IsSource (source_of source.now) }
    ensures { IfOk result (λ f. frame_of f ≡ frame_by (source_of source.now) id) }
{
    match entity_by(source, id) {
        Some(w) => frame(alloc, w, source),
        None => Ok(no_frame()),
    }
}

/// The quaternion of a normal.
fn quaternion_by<const S: u32>(
    alloc: Global,
    source: &Source<'_, S>,
    id: EntityId,
) -> Result<[Tree<S>; 4], NoMemory>
    requires { IsSource (source_of source.now) }
    ensures { IfOk result (λ q. map poly_of q ≡ of_entity (four_numbers []) (normal_tree (source_of source.now)) (entity_by (source_of source.now) id)) }
{
    match entity_by(source, id) {
        Some(e) => quat_tree(alloc, e, source),
        None => Ok(no_normal()),
    }
}

/// The axes of a normal.
#[tactic(auto, unfolding(crate::specs::ByHandle::axes_by))]
pub(crate) fn axes_by<const S: u32>(
    alloc: Global,
    source: &Source<'_, S>,
    id: EntityId,
) -> Result<[V3<S>; 3], NoMemory>
    requires scale { IsScale S }
    requires source { IsSource (source_of source.now) }
    ensures { IfOk result (λ a. axes_of a ≡ axes_by (source_of source.now) id) }
{
    let quaternion = quaternion_by(alloc, source, id)?;
    let axes = quat_axes(alloc, &quaternion)?;
    Ok(axes)
}

/// A distance.
#[tactic(auto, unfolding(crate::specs::ByHandle::distance_by))]
pub(crate) fn distance_by<const S: u32>(
    alloc: Global,
    source: &Source<'_, S>,
    id: EntityId,
) -> Result<Tree<S>, NoMemory>
    requires { IsSource (source_of source.now) }
    ensures { IfOk result (λ d. poly_of d ≡ distance_by (source_of source.now) id) }
{
    match entity_by(source, id) {
        Some(e) => distance_tree(alloc, e, source),
        None => Ok(Expr::Num(Grid::zero())),
    }
}

/// The points that an entity names; none where it isn't there.
pub(crate) fn points_of<'a, const S: u32>(source: &'a Source<'_, S>, id: EntityId) -> &'a [EntityId]
    requires { IsSource (source_of source.now) }
    ensures { result.now ≡ points_of (entity_by (source_of source.now) id) }
{
    match entity_by(source, id) {
        Some(e) => e.points.as_slice(),
        None => &[],
    }
}

/// The handle in this place, 0 where none is.
pub(crate) fn named(ids: &[EntityId], place: usize) -> EntityId
    ensures { result ≡ named ids.now place }
{
    match ids.get(place) {
        Some(id) => *id,
        None => EntityId(0),
    }
}

/// The point that an entity names in this place.
pub(crate) fn end_by<const S: u32>(source: &Source<'_, S>, id: EntityId, place: usize) -> EntityId
    requires { IsSource (source_of source.now) }
    ensures { result ≡ end_by (source_of source.now) id place }
{
    named(points_of(source, id), place)
}

/// The normal that an entity names.
pub(crate) fn normal_of<const S: u32>(source: &Source<'_, S>, id: EntityId) -> EntityId
    requires { IsSource (source_of source.now) }
    ensures { result ≡ normal_of (entity_by (source_of source.now) id) }
{
    match entity_by(source, id) {
        Some(e) => e.normal,
        None => EntityId(0),
    }
}

/// The distance that an entity names.
pub(crate) fn distance_of<const S: u32>(source: &Source<'_, S>, id: EntityId) -> EntityId
    requires { IsSource (source_of source.now) }
    ensures { result ≡ distance_of (entity_by (source_of source.now) id) }
{
    match entity_by(source, id) {
        Some(e) => e.distance,
        None => EntityId(0),
    }
}

pub(crate) fn is_normal_by<const S: u32>(source: &Source<'_, S>, id: EntityId) -> bool
    requires { IsSource (source_of source.now) }
    ensures { result ≡ is_normal_by (source_of source.now) id }
{
    match entity_by(source, id) {
        Some(e) => is_normal(e.kind),
        None => false,
    }
}

pub(crate) fn is_arc_by<const S: u32>(source: &Source<'_, S>, id: EntityId) -> bool
    requires { IsSource (source_of source.now) }
    ensures { result ≡ is_arc_by (source_of source.now) id }
{
    match entity_by(source, id) {
        Some(e) => e.kind == entity_kind::ARC,
        None => false,
    }
}

pub(crate) fn is_cubic_by<const S: u32>(source: &Source<'_, S>, id: EntityId) -> bool
    requires { IsSource (source_of source.now) }
    ensures { result ≡ is_cubic_by (source_of source.now) id }
{
    match entity_by(source, id) {
        Some(e) => e.kind == entity_kind::CUBIC,
        None => false,
    }
}

/// The workplane of a circle's or an arc's normal, where that is drawn in one.
pub(crate) fn normal_plane<const S: u32>(source: &Source<'_, S>, id: EntityId) -> Option<EntityId>
    requires { IsSource (source_of source.now) }
    ensures { result ≡ normal_plane (source_of source.now) id }
{
    let normal = normal_of(source, id);
    match entity_by(source, normal) {
        Some(n) if n.kind == entity_kind::NORMAL_IN_WORKPLANE => Some(n.workplane),
        _ => None,
    }
}
