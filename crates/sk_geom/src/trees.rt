// The trees of points, normals, distances and workplanes of any kind.
#![tactic(auto)]

ghost use Rattle.std.specs.Prelude.{◌≡◌, IfOk, map};
ghost use Rattle.std.specs.Option.{option_copied};
ghost use Rattle.sk_num.specs.Scale.{IsScale};
ghost use Rattle.sk_expr.specs.Trees.{poly_of};
ghost use Rattle.sk_expr.specs.PartViews.{v3_of, frame_of};
ghost use Rattle.sk_geom.specs.Sources.{IsSource, number_at};
ghost use Rattle.sk_geom.specs.EntityTrees.{frame, own_pair, point_in, drawn_point, point_tree, normal_tree, distance_tree, projected, flat_tree};
ghost use Rattle.sk_geom.specs.Views.{source_of};

use crate::NoMemory;
use crate::quaternions::quat_axes;
use crate::source::Source;
use crate::space::{first_named, no_normal, no_point};
use sk_expr::{Expr, Frame, Tree, V3};
use sk_num::Grid;
use sk_types::{Entity, Numbering, entity_kind};
use std::alloc::Global;

/// The frame of a workplane: its origin is its point, its axes are those of its normal.
#[tactic(auto, unfolding(crate::specs::EntityTrees::frame))]
pub fn frame<const S: u32>(
    alloc: Global,
    workplane: &Entity<S>,
    source: &Source<'_, S>,
) -> Result<Frame<S>, NoMemory>
    requires scale { IsScale S }
    requires source { IsSource (source_of source.now) }
    ensures { IfOk result (λ f. frame_of f ≡ frame (source_of source.now) workplane.now) }
{
    let normal = source.normal_named(alloc, workplane.normal)?;
    let point = first_named(workplane.points.as_slice());
    let origin = source.point_named(alloc, point)?;
    let [u, v, n] = quat_axes(alloc, &normal)?;
    Ok(Frame { origin, u, v, n })
}

/// The two parameters of a point in a workplane.
fn own_pair<const S: u32>(source: &Source<'_, S>, numbers: &Numbering<S>) -> [Tree<S>; 2]
    requires { IsSource (source_of source.now) }
    ensures { map poly_of result ≡ own_pair (source_of source.now) numbers.now }
{
    match numbers {
        Numbering::Own(param) => {
            let first = u64::from(param.0);
            [source.param(first), source.param(first + 1)]
        }
        _ => [Expr::Num(Grid::zero()), Expr::Num(Grid::zero())],
    }
}

/// `o + u U + v V`.
#[tactic(auto, unfolding(crate::specs::EntityTrees::point_in))]
fn point_in<const S: u32>(alloc: Global, f: Frame<S>, uv: &[Tree<S>; 2]) -> Result<V3<S>, NoMemory>
    ensures { IfOk result (λ v. v3_of v ≡ point_in (frame_of f.entry) (map poly_of uv.now)) }
{
    let [u, v] = uv;
    let Frame {
        origin,
        u: right,
        v: up,
        n: _,
    } = f;
    let right = right.times(alloc, u)?;
    let up = up.times(alloc, v)?;
    let point = origin.plus(alloc, right)?;
    let point = point.plus(alloc, up)?;
    Ok(point)
}

fn drawn_point<const S: u32>(
    alloc: Global,
    e: &Entity<S>,
    workplane: Option<&Entity<S>>,
    source: &Source<'_, S>,
) -> Result<V3<S>, NoMemory>
    requires scale { IsScale S }
    requires source { IsSource (source_of source.now) }
    ensures { IfOk result (λ v. v3_of v ≡ drawn_point (source_of source.now) e.now (option_copied workplane.entry)) }
{
    match workplane {
        Some(w) => {
            let f = frame(alloc, w, source)?;
            point_in(alloc, f, &own_pair(source, &e.numbers))
        }
        None => Ok(no_point()),
    }
}

/// A point in space.
#[tactic(auto, unfolding(crate::specs::EntityTrees::point_tree))]
pub fn point_tree<const S: u32>(
    alloc: Global,
    e: &Entity<S>,
    source: &Source<'_, S>,
) -> Result<V3<S>, NoMemory>
    requires scale { IsScale S }
    requires source { IsSource (source_of source.now) }
    ensures { IfOk result (λ v. v3_of v ≡ point_tree (source_of source.now) e.now) }
{
    if e.group.0 == source.group.0 && e.kind == entity_kind::POINT_IN_WORKPLANE {
        drawn_point(alloc, e, source.entity(e.workplane), source)
    } else {
        source.space_point(alloc, e)
    }
}

/// The quaternion (w, x, y, z) of a normal.
#[tactic(auto, unfolding(crate::specs::EntityTrees::normal_tree))]
pub fn quat_tree<const S: u32>(
    alloc: Global,
    e: &Entity<S>,
    source: &Source<'_, S>,
) -> Result<[Tree<S>; 4], NoMemory>
    requires { IsSource (source_of source.now) }
    ensures { IfOk result (λ q. map poly_of q ≡ normal_tree (source_of source.now) e.now) }
{
    if e.group.0 == source.group.0 && e.kind == entity_kind::NORMAL_IN_WORKPLANE {
        match source.entity(e.workplane) {
            Some(w) => source.normal_named(alloc, w.normal),
            None => Ok(no_normal()),
        }
    } else {
        source.space_normal(alloc, e)
    }
}

fn first_number<const S: u32>(values: &[Grid<S>; 4]) -> Tree<S>
    ensures { poly_of result ≡ number_at values.now 0 }
{
    let [first, _, _, _] = values;
    Expr::Num(*first)
}

/// A distance, as a circle's radius.
#[tactic(auto, unfolding(crate::specs::EntityTrees::distance_tree))]
pub fn distance_tree<const S: u32>(
    alloc: Global,
    e: &Entity<S>,
    source: &Source<'_, S>,
) -> Result<Tree<S>, NoMemory>
    requires { IsSource (source_of source.now) }
    ensures { IfOk result (λ d. poly_of d ≡ distance_tree (source_of source.now) e.now) }
{
    if e.group.0 != source.group.0 {
        return Ok(first_number(&source.act_numbers(e.id)));
    }
    match &e.numbers {
        Numbering::Own(param) => Ok(source.param(u64::from(param.0))),
        Numbering::Placed(values) => Ok(first_number(values)),
        Numbering::Copied(from) => Ok(first_number(&source.act_numbers(*from))),
        _ => Ok(Expr::Num(Grid::zero())),
    }
}

/// `((p - o) . U, (p - o) . V)`.
#[tactic(auto, unfolding(crate::specs::EntityTrees::projected))]
fn projected<const S: u32>(alloc: Global, f: Frame<S>, p: V3<S>) -> Result<[Tree<S>; 2], NoMemory>
    ensures { IfOk result (λ uv. map poly_of uv ≡ projected (frame_of f.entry) (v3_of p.entry)) }
{
    let Frame { origin, u, v, n: _ } = f;
    let from_origin = p.less(alloc, origin)?;
    let u = from_origin.dot(alloc, &u)?;
    let v = from_origin.dot(alloc, &v)?;
    Ok([u, v])
}

/// The coordinates u and v of a point in a workplane: its own two parameters where it is drawn in that very workplane, in
/// whatever group, or else those of its projection.
#[tactic(auto, unfolding(crate::specs::EntityTrees::flat_tree))]
pub fn in_plane<const S: u32>(
    alloc: Global,
    e: &Entity<S>,
    workplane: &Entity<S>,
    source: &Source<'_, S>,
) -> Result<[Tree<S>; 2], NoMemory>
    requires scale { IsScale S }
    requires source { IsSource (source_of source.now) }
    ensures { IfOk result (λ uv. map poly_of uv ≡ flat_tree (source_of source.now) workplane.now e.now) }
{
    if e.kind == entity_kind::POINT_IN_WORKPLANE && e.workplane.0 == workplane.id.0 {
        Ok(own_pair(source, &e.numbers))
    } else {
        let f = frame(alloc, workplane, source)?;
        let p = point_tree(alloc, e, source)?;
        projected(alloc, f, p)
    }
}
