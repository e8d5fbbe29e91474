// The needed parts of a constraint.
#![tactic(auto)]

ghost use Rattle.std.specs.Prelude.{◌≡◌, ◌++◌, not, map, option_to_list, IfOk};
ghost use Rattle.std.specs.List.{filter};
ghost use Rattle.sk_num.specs.Scale.{IsScale};
ghost use Rattle.sk_types.specs.declared.entity_kind.TheConstants as entity_kinds;
ghost use Rattle.sk_expr.specs.PartViews.{v3_of, pair_of, pairs_of, frame_of, axes_of, line_of, round_of, parts_of};
ghost use Rattle.sk_geom.specs.Sources.{IsSource};
ghost use Rattle.sk_geom.specs.Views.{source_of};
ghost use Rattle.sk_system.specs.ByHandle.{flat_by, frame_by, axes_by, is_normal_by};
ghost use Rattle.sk_system.specs.FlatPoints.{flat_alone};
ghost use Rattle.sk_system.specs.ConstraintParts.{needed, workplane_of, space_points, flat_points, points_plane, line_by, round_plane, round_by, constraint_parts};

use crate::NoMemory;
use crate::by_handle::{axes_by, end_by, flat_by, frame_by, is_normal_by, normal_plane, point_by};
use crate::rounds::round_by;
use sk_expr::{ConstraintParts, Frame, LineParts, RadiusParts, Tree, V3};
use sk_geom::Source;
use sk_num::Items;
use sk_types::{Constraint, EntityId, constraint_kind, entity_kind};
use std::alloc::Global;

/// The needed parts in whose place an entity of this number can stand.
#[tactic(auto, using(crate::proofs::Needed::needed_by), unfolding(crate::specs::ConstraintParts::needed))]
fn needed<const S: u32>(
    alloc: Global,
    c: &Constraint<S>,
    kind: u16,
) -> Result<Vec<EntityId>, NoMemory>
    ensures { IfOk result (λ v. v.items ≡ needed c.now kind) }
{
    let mut ids = Vec::new(alloc);
    let needs = c.needs();
    for need in &needs {
        if let Some(need) = need
            && need.part.takes(kind)
        {
            ids.push(need.entity)?;
        }
    }
    Ok(ids)
}

/// The constraint's workplane, where it has one.
pub(crate) fn workplane_of<const S: u32>(c: &Constraint<S>) -> Option<EntityId>
    ensures { result ≡ workplane_of c.now }
{
    if c.workplane.0 == 0 {
        None
    } else {
        Some(c.workplane)
    }
}

/// Points in space.
pub(crate) fn space_points<const S: u32>(
    alloc: Global,
    source: &Source<'_, S>,
    ids: &[EntityId],
) -> Result<Items<V3<S>>, NoMemory>
    requires scale { IsScale S }
    requires source { IsSource (source_of source.now) }
    ensures { IfOk result (λ v. map v3_of v ≡ space_points (source_of source.now) ids.now) }
{
    let mut points = Vec::new(alloc);
    for id in ids {
        points.push(point_by(alloc, source, *id)?)?;
    }
    Ok(Items::of(points))
}

/// Points in a workplane.
fn points_in<const S: u32>(
    alloc: Global,
    source: &Source<'_, S>,
    workplane: EntityId,
    ids: &[EntityId],
) -> Result<Vec<[Tree<S>; 2]>, NoMemory>
    requires scale { IsScale S }
    requires source { IsSource (source_of source.now) }
    ensures { IfOk result (λ v. map pair_of v.items ≡ map (flat_by (source_of source.now) workplane) ids.now) }
{
    let mut points = Vec::new(alloc);
    for id in ids {
        points.push(flat_by(alloc, source, workplane, *id)?)?;
    }
    Ok(points)
}

/// Points in a plane; none where there is no plane.
pub(crate) fn flat_points<const S: u32>(
    alloc: Global,
    source: &Source<'_, S>,
    plane: Option<EntityId>,
    ids: &[EntityId],
) -> Result<Items<[Tree<S>; 2]>, NoMemory>
    requires scale { IsScale S }
    requires source { IsSource (source_of source.now) }
    ensures { IfOk result (λ v. map pair_of v ≡ flat_points (source_of source.now) plane ids.now) }
{
    match plane {
        Some(w) => {
            let points = points_in(alloc, source, w, ids)?;
            Ok(Items::of(points))
        }
        None => Ok(Items::of(Vec::new(alloc))),
    }
}

/// The plane in which a constraint's points are taken: the constraint's workplane; for a point on a circle or an arc that of
/// the curve's normal.
fn points_plane<const S: u32>(source: &Source<'_, S>, c: &Constraint<S>) -> Option<EntityId>
    requires { IsSource (source_of source.now) }
    ensures { result ≡ points_plane (source_of source.now) c.now }
{
    if c.kind == constraint_kind::POINT_ON_CIRCLE {
        normal_plane(source, c.entities[0])
    } else {
        workplane_of(c)
    }
}

/// The ends of a line in a plane.
#[tactic(auto, unfolding(crate::specs::ConstraintParts::line_by))]
fn flat_ends<const S: u32>(
    alloc: Global,
    source: &Source<'_, S>,
    plane: Option<EntityId>,
    id: EntityId,
) -> Result<Option<[[Tree<S>; 2]; 2]>, NoMemory>
    requires scale { IsScale S }
    requires source { IsSource (source_of source.now) }
    ensures { IfOk result (λ ends. pairs_of ends ≡ (line_by (source_of source.now) plane id).flat) }
{
    match plane {
        Some(w) => {
            let start = flat_by(alloc, source, w, end_by(source, id, 0))?;
            let end = flat_by(alloc, source, w, end_by(source, id, 1))?;
            Ok(Some([start, end]))
        }
        None => Ok(None),
    }
}

/// A line, in space and in a plane.
#[tactic(auto, unfolding(crate::specs::ConstraintParts::line_by))]
fn line_by<const S: u32>(
    alloc: Global,
    source: &Source<'_, S>,
    plane: Option<EntityId>,
    id: EntityId,
) -> Result<LineParts<S>, NoMemory>
    requires scale { IsScale S }
    requires source { IsSource (source_of source.now) }
    ensures { IfOk result (λ l. line_of l ≡ line_by (source_of source.now) plane id) }
{
    let start = point_by(alloc, source, end_by(source, id, 0))?;
    let end = point_by(alloc, source, end_by(source, id, 1))?;
    let flat = flat_ends(alloc, source, plane, id)?;
    Ok(LineParts {
        ends: [start, end],
        flat,
    })
}

/// The lines among these lines and normals.
fn lines<const S: u32>(
    alloc: Global,
    source: &Source<'_, S>,
    plane: Option<EntityId>,
    ids: &[EntityId],
) -> Result<Items<LineParts<S>>, NoMemory>
    requires scale { IsScale S }
    requires source { IsSource (source_of source.now) }
    ensures { IfOk result (λ v. map line_of v ≡ map (line_by (source_of source.now) plane) (filter (λ e. not (is_normal_by (source_of source.now) e)) ids.now)) }
{
    let mut lines = Vec::new(alloc);
    for id in ids {
        if !is_normal_by(source, *id) {
            lines.push(line_by(alloc, source, plane, *id)?)?;
        }
    }
    Ok(Items::of(lines))
}

/// The axes of the normals among these lines and normals.
fn axes<const S: u32>(
    alloc: Global,
    source: &Source<'_, S>,
    ids: &[EntityId],
) -> Result<Items<[V3<S>; 3]>, NoMemory>
    requires scale { IsScale S }
    requires source { IsSource (source_of source.now) }
    ensures { IfOk result (λ v. map axes_of v ≡ map (axes_by (source_of source.now)) (filter (is_normal_by (source_of source.now)) ids.now)) }
{
    let mut axes = Vec::new(alloc);
    for id in ids {
        if is_normal_by(source, *id) {
            axes.push(axes_by(alloc, source, *id)?)?;
        }
    }
    Ok(Items::of(axes))
}

/// The frames of workplanes, and of one more.
fn frames<const S: u32>(
    alloc: Global,
    source: &Source<'_, S>,
    ids: &[EntityId],
    more: Option<EntityId>,
) -> Result<Items<Frame<S>>, NoMemory>
    requires scale { IsScale S }
    requires source { IsSource (source_of source.now) }
    ensures { IfOk result (λ v. map frame_of v ≡ map (frame_by (source_of source.now)) (ids.now ++ option_to_list more)) }
{
    let mut frames = Vec::new(alloc);
    for id in ids {
        frames.push(frame_by(alloc, source, *id)?)?;
    }
    if let Some(id) = more {
        frames.push(frame_by(alloc, source, id)?)?;
    }
    Ok(Items::of(frames))
}

/// The plane in which a circle or an arc is taken: that of its normal; for curves that touch the constraint's workplane.
fn round_plane<const S: u32>(
    source: &Source<'_, S>,
    c: &Constraint<S>,
    id: EntityId,
) -> Option<EntityId>
    requires { IsSource (source_of source.now) }
    ensures { result ≡ round_plane (source_of source.now) c.now id }
{
    if c.kind == constraint_kind::CURVE_CURVE_TANGENT {
        workplane_of(c)
    } else {
        normal_plane(source, id)
    }
}

/// Circles and arcs.
fn radii<const S: u32>(
    alloc: Global,
    source: &Source<'_, S>,
    c: &Constraint<S>,
    ids: &[EntityId],
) -> Result<Items<RadiusParts<S>>, NoMemory>
    requires scale { IsScale S }
    requires source { IsSource (source_of source.now) }
    ensures { IfOk result (λ v. map round_of v ≡ map (λ e. round_by (source_of source.now) (round_plane (source_of source.now) c.now e) e) ids.now) }
{
    let mut radii = Vec::new(alloc);
    for id in ids {
        radii.push(round_by(alloc, source, round_plane(source, c, *id), *id)?)?;
    }
    Ok(Items::of(radii))
}

/// Whether each of these entities is a normal.
fn are_normals<const S: u32>(source: &Source<'_, S>, ids: &[EntityId; 4]) -> [bool; 4]
    requires { IsSource (source_of source.now) }
    ensures { result ≡ map (is_normal_by (source_of source.now)) ids.now }
{
    let [a, b, c, d] = *ids;
    [
        is_normal_by(source, a),
        is_normal_by(source, b),
        is_normal_by(source, c),
        is_normal_by(source, d),
    ]
}

/// The points of a constraint, in space.
#[tactic(auto, unfolding(crate::specs::ConstraintParts::constraint_parts))]
fn points_for<const S: u32>(
    alloc: Global,
    source: &Source<'_, S>,
    c: &Constraint<S>,
) -> Result<Items<V3<S>>, NoMemory>
    requires scale { IsScale S }
    requires source { IsSource (source_of source.now) }
    ensures { IfOk result (λ v. map v3_of v ≡ (constraint_parts (source_of source.now) c.now).points) }
{
    let ids = needed(alloc, c, entity_kind::POINT_IN_SPACE)?;
    let points = space_points(alloc, source, &ids)?;
    Ok(points)
}

/// Its points in their plane.
#[tactic(auto, unfolding(crate::specs::ConstraintParts::constraint_parts))]
fn flat_points_for<const S: u32>(
    alloc: Global,
    source: &Source<'_, S>,
    c: &Constraint<S>,
) -> Result<Items<[Tree<S>; 2]>, NoMemory>
    requires scale { IsScale S }
    requires source { IsSource (source_of source.now) }
    ensures { IfOk result (λ v. map pair_of v ≡ (constraint_parts (source_of source.now) c.now).flat_points) }
{
    let ids = needed(alloc, c, entity_kind::POINT_IN_SPACE)?;
    let points = flat_points(alloc, source, points_plane(source, c), &ids)?;
    Ok(points)
}

/// Its lines.
#[tactic(auto, unfolding(crate::specs::ConstraintParts::constraint_parts))]
fn lines_for<const S: u32>(
    alloc: Global,
    source: &Source<'_, S>,
    c: &Constraint<S>,
) -> Result<Items<LineParts<S>>, NoMemory>
    requires scale { IsScale S }
    requires source { IsSource (source_of source.now) }
    ensures { IfOk result (λ v. map line_of v ≡ (constraint_parts (source_of source.now) c.now).lines) }
{
    let ids = needed(alloc, c, entity_kind::LINE)?;
    let lines = lines(alloc, source, workplane_of(c), &ids)?;
    Ok(lines)
}

/// Its workplanes' frames.
#[tactic(auto, unfolding(crate::specs::ConstraintParts::constraint_parts))]
fn frames_for<const S: u32>(
    alloc: Global,
    source: &Source<'_, S>,
    c: &Constraint<S>,
) -> Result<Items<Frame<S>>, NoMemory>
    requires scale { IsScale S }
    requires source { IsSource (source_of source.now) }
    ensures { IfOk result (λ v. map frame_of v ≡ (constraint_parts (source_of source.now) c.now).frames) }
{
    let ids = needed(alloc, c, entity_kind::WORKPLANE)?;
    let frames = frames(alloc, source, &ids, workplane_of(c))?;
    Ok(frames)
}

/// Its normals' axes.
#[tactic(auto, unfolding(crate::specs::ConstraintParts::constraint_parts))]
fn axes_for<const S: u32>(
    alloc: Global,
    source: &Source<'_, S>,
    c: &Constraint<S>,
) -> Result<Items<[V3<S>; 3]>, NoMemory>
    requires scale { IsScale S }
    requires source { IsSource (source_of source.now) }
    ensures { IfOk result (λ v. map axes_of v ≡ (constraint_parts (source_of source.now) c.now).axes) }
{
    let ids = needed(alloc, c, entity_kind::NORMAL_IN_SPACE)?;
    let axes = axes(alloc, source, &ids)?;
    Ok(axes)
}

/// Its circles and arcs.
#[tactic(auto, unfolding(crate::specs::ConstraintParts::constraint_parts))]
fn radii_for<const S: u32>(
    alloc: Global,
    source: &Source<'_, S>,
    c: &Constraint<S>,
) -> Result<Items<RadiusParts<S>>, NoMemory>
    requires scale { IsScale S }
    requires source { IsSource (source_of source.now) }
    ensures { IfOk result (λ v. map round_of v ≡ (constraint_parts (source_of source.now) c.now).rounds) }
{
    let ids = needed(alloc, c, entity_kind::ARC)?;
    let radii = radii(alloc, source, c, &ids)?;
    Ok(radii)
}

/// Whether each of its entities is a normal.
#[tactic(auto, unfolding(crate::specs::ConstraintParts::constraint_parts))]
fn normals_for<const S: u32>(source: &Source<'_, S>, c: &Constraint<S>) -> [bool; 4]
    requires { IsSource (source_of source.now) }
    ensures { result ≡ (constraint_parts (source_of source.now) c.now).normals }
{
    are_normals(source, &c.entities)
}

/// The parts of a constraint, each kind in the order in which they are needed.
#[tactic(auto, using(crate::proofs::SameParts::same_parts), unfolding(sk_expr::specs::PartViews::parts_of))]
pub(crate) fn constraint_parts<const S: u32>(
    alloc: Global,
    source: &Source<'_, S>,
    c: &Constraint<S>,
) -> Result<ConstraintParts<S>, NoMemory>
    requires scale { IsScale S }
    requires source { IsSource (source_of source.now) }
    ensures { IfOk result (λ m. parts_of m ≡ constraint_parts (source_of source.now) c.now) }
{
    let is_normal = normals_for(source, c);
    let points = points_for(alloc, source, c)?;
    let flat_points = flat_points_for(alloc, source, c)?;
    let lines = lines_for(alloc, source, c)?;
    let frames = frames_for(alloc, source, c)?;
    let axes = axes_for(alloc, source, c)?;
    let radii = radii_for(alloc, source, c)?;
    Ok(ConstraintParts {
        points,
        flat_points,
        lines,
        frames,
        axes,
        radii,
        is_normal,
    })
}

/// Of the parts of a constraint its points in the workplane alone.
#[tactic(auto, using(crate::proofs::SameParts::same_parts), unfolding(sk_expr::specs::PartViews::parts_of))]
pub(crate) fn flat_parts<const S: u32>(
    alloc: Global,
    source: &Source<'_, S>,
    c: &Constraint<S>,
) -> Result<ConstraintParts<S>, NoMemory>
    requires scale { IsScale S }
    requires source { IsSource (source_of source.now) }
    ensures { IfOk result (λ m. parts_of m ≡ flat_alone (constraint_parts (source_of source.now) c.now)) }
{
    let flat_points = flat_points_for(alloc, source, c)?;
    Ok(ConstraintParts {
        points: Items::of(Vec::new(alloc)),
        flat_points,
        lines: Items::of(Vec::new(alloc)),
        frames: Items::of(Vec::new(alloc)),
        axes: Items::of(Vec::new(alloc)),
        radii: Items::of(Vec::new(alloc)),
        is_normal: [false; 4],
    })
}
