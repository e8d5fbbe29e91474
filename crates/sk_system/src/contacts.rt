// Faces, and the ends of curves that touch.
#![tactic(auto)]

ghost use Rattle.std.specs.Prelude.{◌≡◌, IfOk, Option};
ghost use Rattle.sk_num.specs.Scale.{IsScale};
ghost use Rattle.sk_expr.specs.PartViews.{v3_of, pair_of};
ghost use Rattle.sk_expr.specs.Vectors.{vector_difference};
ghost use Rattle.sk_geom.specs.Sources.{IsSource, act_numbers};
ghost use Rattle.sk_geom.specs.Views.{source_of};
ghost use Rattle.sk_face.specs.FaceViews.{face_of as face_view};
ghost use Rattle.sk_cubic.specs.CubicViews.{both_of, end_of, contact_of};
ghost use Rattle.sk_system.specs.ByHandle.{entity_by, axes_by, points_of};
ghost use Rattle.sk_system.specs.Contacts.{last_three, copied_normal, named_normal, own_face, face_of, face_by, tangent_chord, spoke_chord, line_chord, space_chord, flat_chord, both_chords, curve_end, contact_in, has_cubic};

use crate::NoMemory;
use crate::by_handle::{
    axes_by, entity_by, flat_by, is_cubic_by, named, no_point, point_by, points_of,
};
use sk_cubic::{CubicParts, EndParts};
use sk_expr::{Expr, Tree, V3, sub};
use sk_face::FaceParts;
use sk_geom::Source;
use sk_num::Grid;
use sk_types::{Constraint, Entity, EntityId, Numbering, act_at, constraint_kind, entity_kind};
use std::alloc::Global;

/// The normal vector of a face among the numbers at which it stands.
fn last_three<const S: u32>(values: &[Grid<S>; 4]) -> V3<S>
    ensures { v3_of result ≡ last_three values.now }
{
    let [_, x, y, z] = values;
    V3 {
        x: Expr::Num(*x),
        y: Expr::Num(*y),
        z: Expr::Num(*z),
    }
}

/// That of a face of another group.
#[tactic(auto, unfolding(sk_geom::specs::Sources::act_numbers))]
fn act_normal<const S: u32>(source: &Source<'_, S>, id: EntityId) -> V3<S>
    requires { IsSource (source_of source.now) }
    ensures { v3_of result ≡ last_three (act_numbers (source_of source.now) id) }
{
    match act_at(source.numbers.acts.as_slice(), id) {
        Some(act) => last_three(&act.values),
        None => no_point(),
    }
}

/// That of a copied face.
fn copied_normal<const S: u32>(source: &Source<'_, S>, numbers: &Numbering<S>) -> V3<S>
    requires { IsSource (source_of source.now) }
    ensures { v3_of result ≡ copied_normal (source_of source.now) numbers.now }
{
    match numbers {
        Numbering::Copied(from) => act_normal(source, *from),
        _ => no_point(),
    }
}

/// The normal that a face names, or else the group's vector.
fn named_normal<const S: u32>(
    alloc: Global,
    source: &Source<'_, S>,
    normal: EntityId,
) -> Result<V3<S>, NoMemory>
    requires scale { IsScale S }
    requires source { IsSource (source_of source.now) }
    ensures { IfOk result (λ v. v3_of v ≡ named_normal (source_of source.now) normal) }
{
    if normal.0 == 0 {
        return Ok(source.group_vector());
    }
    let [_, _, n] = axes_by(alloc, source, normal)?;
    Ok(n)
}

/// A face of the group.
fn own_face<const S: u32>(
    alloc: Global,
    source: &Source<'_, S>,
    e: &Entity<S>,
) -> Result<FaceParts<S>, NoMemory>
    requires scale { IsScale S }
    requires source { IsSource (source_of source.now) }
    ensures { IfOk result (λ f. face_view f ≡ own_face (source_of source.now) e.now) }
{
    let on = point_by(alloc, source, named(e.points.as_slice(), 0))?;
    match e.kind {
        entity_kind::FACE_BY_LINE => {
            let to = point_by(alloc, source, named(e.points.as_slice(), 1))?;
            let vector = source.group_vector();
            Ok(FaceParts::Side { on, to, vector })
        }
        entity_kind::FACE_BY_NORMAL => {
            let normal = named_normal(alloc, source, e.normal)?;
            Ok(FaceParts::Flat { on, normal })
        }
        _ => {
            let normal = copied_normal(source, &e.numbers);
            Ok(FaceParts::Flat { on, normal })
        }
    }
}

/// A face; one of another group by its numbers.
#[tactic(auto, unfolding(crate::specs::Contacts::face_of))]
pub(crate) fn face_of<const S: u32>(
    alloc: Global,
    source: &Source<'_, S>,
    e: &Entity<S>,
) -> Result<FaceParts<S>, NoMemory>
    requires scale { IsScale S }
    requires source { IsSource (source_of source.now) }
    ensures { IfOk result (λ f. face_view f ≡ face_of (source_of source.now) e.now) }
{
    if e.group.0 == source.group.0 {
        let face = own_face(alloc, source, e)?;
        return Ok(face);
    }
    let on = point_by(alloc, source, named(e.points.as_slice(), 0))?;
    let normal = act_normal(source, e.id);
    Ok(FaceParts::Flat { on, normal })
}

/// The face with a handle.
#[tactic(auto, unfolding(crate::specs::Contacts::face_by))]
pub(crate) fn face_by<const S: u32>(
    alloc: Global,
    source: &Source<'_, S>,
    id: EntityId,
) -> Result<FaceParts<S>, NoMemory>
    requires scale { IsScale S }
    requires source { IsSource (source_of source.now) }
    ensures { IfOk result (λ f. face_view f ≡ face_by (source_of source.now) id) }
{
    match entity_by(source, id) {
        Some(e) => face_of(alloc, source, e),
        None => Ok(FaceParts::Flat {
            on: no_point(),
            normal: no_point(),
        }),
    }
}

/// Two points, the second less the first.
#[derive(Clone, Copy, Debug)]
pub struct Chord {
    from: EntityId,
    to: EntityId,
}

/// A cubic's tangent: at its start from point 0 to point 1, at its end from the last point but one to the last.
fn tangent_chord(points: &[EntityId], at_end: bool) -> Chord
    ensures { result ≡ tangent_chord points.now at_end }
{
    let count = points.len();
    if at_end {
        Chord {
            from: named(points, count.saturating_sub(2)),
            to: named(points, count.saturating_sub(1)),
        }
    } else {
        Chord {
            from: named(points, 0),
            to: named(points, 1),
        }
    }
}

/// An arc's spoke: from its centre to its start, or to its end.
fn spoke_chord(points: &[EntityId], at_end: bool) -> Chord
    ensures { result ≡ spoke_chord points.now at_end }
{
    if at_end {
        Chord {
            from: named(points, 0),
            to: named(points, 2),
        }
    } else {
        Chord {
            from: named(points, 0),
            to: named(points, 1),
        }
    }
}

/// A line's vector, its first point less its second.
fn line_chord(points: &[EntityId]) -> Chord
    ensures { result ≡ line_chord points.now }
{
    Chord {
        from: named(points, 1),
        to: named(points, 0),
    }
}

#[tactic(auto, unfolding(crate::specs::Contacts::space_chord))]
fn space_chord<const S: u32>(
    alloc: Global,
    source: &Source<'_, S>,
    chord: Chord,
) -> Result<V3<S>, NoMemory>
    requires scale { IsScale S }
    requires source { IsSource (source_of source.now) }
    ensures { IfOk result (λ v. v3_of v ≡ space_chord (source_of source.now) chord) }
{
    let to = point_by(alloc, source, chord.to)?;
    let from = point_by(alloc, source, chord.from)?;
    let chord = to.less(alloc, from)?;
    Ok(chord)
}

#[tactic(auto, unfolding(sk_expr::specs::Vectors::vector_difference))]
fn flat_less<const S: u32>(
    alloc: Global,
    a: [Tree<S>; 2],
    b: [Tree<S>; 2],
) -> Result<[Tree<S>; 2], NoMemory>
    ensures { IfOk result (λ d. pair_of d ≡ vector_difference (pair_of a.entry) (pair_of b.entry)) }
{
    let [u, v] = a;
    let [from_u, from_v] = b;
    let u = sub(alloc, u, from_u)?;
    let v = sub(alloc, v, from_v)?;
    Ok([u, v])
}

#[tactic(auto, unfolding(crate::specs::Contacts::flat_chord))]
fn flat_chord<const S: u32>(
    alloc: Global,
    source: &Source<'_, S>,
    workplane: EntityId,
    chord: Chord,
) -> Result<[Tree<S>; 2], NoMemory>
    requires scale { IsScale S }
    requires source { IsSource (source_of source.now) }
    ensures { IfOk result (λ d. pair_of d ≡ flat_chord (source_of source.now) workplane chord) }
{
    let to = flat_by(alloc, source, workplane, chord.to)?;
    let from = flat_by(alloc, source, workplane, chord.from)?;
    let chord = flat_less(alloc, to, from)?;
    Ok(chord)
}

/// The end of a curve in a workplane: a cubic's tangent, or an arc's spoke.
#[tactic(auto, unfolding(crate::specs::Contacts::curve_end))]
fn curve_end<const S: u32>(
    alloc: Global,
    source: &Source<'_, S>,
    workplane: EntityId,
    id: EntityId,
    at_end: bool,
) -> Result<EndParts<S>, NoMemory>
    requires scale { IsScale S }
    requires source { IsSource (source_of source.now) }
    ensures { IfOk result (λ e. end_of e ≡ curve_end (source_of source.now) workplane id at_end) }
{
    let points = points_of(source, id);
    if is_cubic_by(source, id) {
        let tangent = flat_chord(alloc, source, workplane, tangent_chord(points, at_end))?;
        Ok(EndParts::Cubic(tangent))
    } else {
        let spoke = flat_chord(alloc, source, workplane, spoke_chord(points, at_end))?;
        Ok(EndParts::Arc(spoke))
    }
}

/// Two vectors in the constraint's workplane, where it has one.
fn both_chords<const S: u32>(
    alloc: Global,
    source: &Source<'_, S>,
    workplane: EntityId,
    tangent: Chord,
    line: Chord,
) -> Result<Option<[[Tree<S>; 2]; 2]>, NoMemory>
    requires scale { IsScale S }
    requires source { IsSource (source_of source.now) }
    ensures { IfOk result (λ b. both_of b ≡ both_chords (source_of source.now) workplane tangent line) }
{
    if workplane.0 == 0 {
        return Ok(None);
    }
    let tangent = flat_chord(alloc, source, workplane, tangent)?;
    let line = flat_chord(alloc, source, workplane, line)?;
    Ok(Some([tangent, line]))
}

/// A cubic and a line, or two curves.
#[tactic(auto, unfolding(crate::specs::Contacts::contact_in))]
pub(crate) fn contact_in<const S: u32>(
    alloc: Global,
    source: &Source<'_, S>,
    c: &Constraint<S>,
) -> Result<CubicParts<S>, NoMemory>
    requires scale { IsScale S }
    requires source { IsSource (source_of source.now) }
    ensures { IfOk result (λ m. contact_of m ≡ contact_in (source_of source.now) c.now) }
{
    let [a, b, _, _] = c.entities;
    if c.kind == constraint_kind::CUBIC_LINE_TANGENT {
        let tangent = tangent_chord(points_of(source, a), c.other);
        let along = line_chord(points_of(source, b));
        let d = space_chord(alloc, source, tangent)?;
        let line = space_chord(alloc, source, along)?;
        let flat = both_chords(alloc, source, c.workplane, tangent, along)?;
        Ok(CubicParts::Line { d, line, flat })
    } else {
        let first = curve_end(alloc, source, c.workplane, a, c.other)?;
        let second = curve_end(alloc, source, c.workplane, b, c.other2)?;
        Ok(CubicParts::Curves(first, second))
    }
}

/// Whether a cubic touches something.
pub(crate) fn has_cubic<const S: u32>(source: &Source<'_, S>, c: &Constraint<S>) -> bool
    requires { IsSource (source_of source.now) }
    ensures { result ≡ has_cubic (source_of source.now) c.now }
{
    match c.kind {
        constraint_kind::CUBIC_LINE_TANGENT => true,
        constraint_kind::CURVE_CURVE_TANGENT => {
            is_cubic_by(source, c.entities[0]) || is_cubic_by(source, c.entities[1])
        }
        _ => false,
    }
}
