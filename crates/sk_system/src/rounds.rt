// Circles and arcs.
#![tactic(auto)]

ghost use Rattle.std.specs.Prelude.{◌≡◌, map, option_map, IfOk};
ghost use Rattle.sk_num.specs.Scale.{IsScale};
ghost use Rattle.sk_expr.specs.Trees.{poly_of};
ghost use Rattle.sk_expr.specs.PartViews.{v3_of, pair_of, vectors_of, round_of};
ghost use Rattle.sk_geom.specs.Sources.{IsSource};
ghost use Rattle.sk_geom.specs.Views.{source_of};
ghost use Rattle.sk_system.specs.ByHandle.{flat_by, axes_by, end_by};
ghost use Rattle.sk_system.specs.ConstraintParts.{arc_ends, radius_by, two_axes, axes_unless, round_by};

use crate::NoMemory;
use crate::by_handle::{
    axes_by, distance_by, distance_of, end_by, flat_by, is_arc_by, normal_of, normal_plane,
    point_by,
};
use crate::parts::{flat_points, space_points};
use sk_expr::{RadiusParts, Tree, V3};
use sk_geom::Source;
use sk_types::EntityId;
use std::alloc::Global;

/// The start and the end of an arc; none of a circle.
fn arc_ends<const S: u32>(
    alloc: Global,
    source: &Source<'_, S>,
    id: EntityId,
) -> Result<Vec<EntityId>, NoMemory>
    requires { IsSource (source_of source.now) }
    ensures { IfOk result (λ v. v.items ≡ arc_ends (source_of source.now) id) }
{
    let mut ends = Vec::new(alloc);
    if is_arc_by(source, id) {
        ends.push(end_by(source, id, 1))?;
        ends.push(end_by(source, id, 2))?;
        return Ok(ends);
    }
    Ok(ends)
}

/// The distance of a circle; None of an arc.
fn radius_by<const S: u32>(
    alloc: Global,
    source: &Source<'_, S>,
    id: EntityId,
) -> Result<Option<Tree<S>>, NoMemory>
    requires { IsSource (source_of source.now) }
    ensures { IfOk result (λ t. option_map poly_of t ≡ radius_by (source_of source.now) id) }
{
    if is_arc_by(source, id) {
        return Ok(None);
    }
    let distance = distance_by(alloc, source, distance_of(source, id))?;
    Ok(Some(distance))
}

/// The axes U and V of a normal.
fn two_axes<const S: u32>(
    alloc: Global,
    source: &Source<'_, S>,
    normal: EntityId,
) -> Result<[V3<S>; 2], NoMemory>
    requires scale { IsScale S }
    requires source { IsSource (source_of source.now) }
    ensures { IfOk result (λ a. map v3_of a ≡ two_axes (axes_by (source_of source.now) normal)) }
{
    let [u, v, _] = axes_by(alloc, source, normal)?;
    Ok([u, v])
}

/// The axes U and V of a normal that isn't drawn in a workplane.
fn axes_unless<const S: u32>(
    alloc: Global,
    source: &Source<'_, S>,
    plane: Option<EntityId>,
    normal: EntityId,
) -> Result<Option<[V3<S>; 2]>, NoMemory>
    requires scale { IsScale S }
    requires source { IsSource (source_of source.now) }
    ensures { IfOk result (λ a. vectors_of {s = S} a ≡ axes_unless (source_of source.now) plane normal) }
{
    match plane {
        Some(_) => Ok(None),
        None => {
            let axes = two_axes(alloc, source, normal)?;
            Ok(Some(axes))
        }
    }
}

/// A centre in a plane.
fn flat_centre<const S: u32>(
    alloc: Global,
    source: &Source<'_, S>,
    plane: Option<EntityId>,
    id: EntityId,
) -> Result<Option<[Tree<S>; 2]>, NoMemory>
    requires scale { IsScale S }
    requires source { IsSource (source_of source.now) }
    ensures { IfOk result (λ t. option_map pair_of t ≡ option_map (λ p. flat_by (source_of source.now) p (end_by (source_of source.now) id 0)) plane) }
{
    match plane {
        Some(w) => {
            let centre = flat_by(alloc, source, w, end_by(source, id, 0))?;
            Ok(Some(centre))
        }
        None => Ok(None),
    }
}

/// A circle or an arc, in space and in a plane.
#[tactic(auto, unfolding(crate::specs::ConstraintParts::round_by))]
pub(crate) fn round_by<const S: u32>(
    alloc: Global,
    source: &Source<'_, S>,
    plane: Option<EntityId>,
    id: EntityId,
) -> Result<RadiusParts<S>, NoMemory>
    requires scale { IsScale S }
    requires source { IsSource (source_of source.now) }
    ensures { IfOk result (λ r. round_of r ≡ round_by (source_of source.now) plane id) }
{
    let centre = point_by(alloc, source, end_by(source, id, 0))?;
    let flat_centre = flat_centre(alloc, source, plane, id)?;
    let arc_ends = arc_ends(alloc, source, id)?;
    let ends = space_points(alloc, source, &arc_ends)?;
    let flat_ends = flat_points(alloc, source, plane, &arc_ends)?;
    let distance = radius_by(alloc, source, id)?;
    let axes = axes_unless(
        alloc,
        source,
        normal_plane(source, id),
        normal_of(source, id),
    )?;
    Ok(RadiusParts {
        centre,
        ends,
        flat_centre,
        flat_ends,
        distance,
        axes,
    })
}
