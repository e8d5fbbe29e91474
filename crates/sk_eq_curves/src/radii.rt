ghost use Rattle.std.specs.Prelude.{◌≡◌, ◌≤◌, ◌+◌, length, IfOk, if◌then◌else◌};
ghost use Rattle.sk_expr.specs.Trees.{poly_of};
ghost use Rattle.sk_expr.specs.VectorViews.{vector_of};
ghost use Rattle.sk_expr.specs.PartViews.{parts_of, round_of};
ghost use Rattle.sk_expr.specs.Parts.{no_round, round_at, vector_at};
ghost use Rattle.sk_expr.specs.FormulaViews.{formula_of};
ghost use Rattle.sk_expr.specs.Formula.{then_auxiliaries};
ghost use Rattle.sk_eq_curves.specs.CurveRows.{spoke, flat_spoke, start_spoke, radius_auxiliaries, radius_of, from_centre};

use crate::NoMemory;
use sk_expr::{Auxiliary, ConstraintParts, Expr, Formula, RadiusParts, Tree, V3, Vector, copy};
use sk_num::{Grid, Items};
use std::alloc::Global;

/// The curve that stands for one that isn't there.
pub(crate) fn no_radius<const S: u32>(alloc: Global) -> RadiusParts<S>
    ensures { round_of result ≡ no_round }
{
    RadiusParts {
        centre: V3 {
            x: Expr::Num(Grid::zero()),
            y: Expr::Num(Grid::zero()),
            z: Expr::Num(Grid::zero()),
        },
        ends: Items::of(Vec::new(alloc)),
        flat_centre: None,
        flat_ends: Items::of(Vec::new(alloc)),
        distance: None,
        axes: None,
    }
}

/// The circle or arc in this place, or else `absent`.
#[tactic(auto, using(sk_expr::specs::PartViews::part_facts), unfolding(sk_expr::specs::Parts::round_at, sk_expr::specs::PartViews::parts_of))]
pub(crate) fn radius_at<'a, const S: u32>(
    parts: &'a ConstraintParts<S>,
    i: usize,
    absent: &'a RadiusParts<S>,
) -> &'a RadiusParts<S>
    requires { round_of absent.now ≡ no_round }
    ensures { round_of result.now ≡ round_at (parts_of parts.now) i }
{
    match parts.radii.as_slice().get(i) {
        Some(r) => r,
        None => absent,
    }
}

/// The end in this place: 0 for the start, and 1 for the end.
fn place_of(at_end: bool) -> usize
    ensures { result ≡ (if at_end then 1 else 0) }
{
    if at_end { 1 } else { 0 }
}

/// From the centre of an arc to its start, or to its end, in space.
#[tactic(auto, unfolding(crate::specs::CurveRows::spoke))]
pub(crate) fn spoke<const S: u32>(
    alloc: Global,
    r: &RadiusParts<S>,
    at_end: bool,
) -> Result<Vector<S>, NoMemory>
    ensures { IfOk result (λ v. vector_of v ≡ spoke (round_of r.now) at_end) }
{
    let end = Vector::among(alloc, r.ends.as_slice(), place_of(at_end))?;
    let centre = r.centre.vector(alloc)?;
    let spoke = end.less(alloc, &centre)?;
    Ok(spoke)
}

/// The same in the curve's plane.
#[tactic(auto, unfolding(crate::specs::CurveRows::flat_spoke))]
pub(crate) fn flat_spoke<const S: u32>(
    alloc: Global,
    r: &RadiusParts<S>,
    at_end: bool,
) -> Result<Vector<S>, NoMemory>
    ensures { IfOk result (λ v. vector_of v ≡ flat_spoke (round_of r.now) at_end) }
{
    let end = Vector::flat_among(alloc, r.flat_ends.as_slice(), place_of(at_end))?;
    match &r.flat_centre {
        Some(centre) => {
            let centre = Vector::flat(alloc, centre)?;
            let spoke = end.less(alloc, &centre)?;
            Ok(spoke)
        }
        None => {
            let centre = Vector::zero();
            let spoke = end.less(alloc, &centre)?;
            Ok(spoke)
        }
    }
}

/// From the centre of an arc to its start, in its plane where it has one.
#[tactic(auto, unfolding(crate::specs::CurveRows::start_spoke))]
fn start_spoke<const S: u32>(alloc: Global, r: &RadiusParts<S>) -> Result<Vector<S>, NoMemory>
    ensures { IfOk result (λ v. vector_of v ≡ start_spoke (round_of r.now) (round_of r.now).flat_centre) }
{
    match &r.flat_centre {
        Some(_) => {
            let spoke = flat_spoke(alloc, r, false)?;
            Ok(spoke)
        }
        None => {
            let spoke = spoke(alloc, r, false)?;
            Ok(spoke)
        }
    }
}

/// The radius of a curve, where that of an arc is the unknown `i`.
#[tactic(auto, unfolding(crate::specs::CurveRows::radius_of))]
pub(crate) fn radius<const S: u32>(
    alloc: Global,
    r: &RadiusParts<S>,
    i: u16,
) -> Result<Tree<S>, NoMemory>
    ensures { IfOk result (λ e. poly_of e ≡ radius_of i (round_of r.now).distance) }
{
    match &r.distance {
        Some(distance) => {
            let radius = copy(alloc, distance)?;
            Ok(radius)
        }
        None => Ok(Expr::Var(i)),
    }
}

/// Adds the length that is an arc's radius; nothing for a circle.
#[tactic(auto, unfolding(crate::specs::CurveRows::radius_auxiliaries))]
pub(crate) fn with_radius<const S: u32>(
    alloc: Global,
    formula: Formula<S>,
    r: &RadiusParts<S>,
) -> Result<Formula<S>, NoMemory>
    ensures formula { IfOk result (λ f. formula_of f ≡ then_auxiliaries (formula_of formula.entry) (radius_auxiliaries (round_of r.now) (round_of r.now).distance)) }
    ensures auxiliaries { IfOk result (λ f.
        length f.auxiliaries ≡ length formula.entry.auxiliaries + length (radius_auxiliaries (round_of r.now) (round_of r.now).distance)) }
    ensures sizes { IfOk result (λ f. (length f.auxiliaries ≤ length formula.entry.auxiliaries + 1)
        × (length f.cosines ≡ length formula.entry.cosines) × (length f.relations ≡ length formula.entry.relations)) }
{
    match &r.distance {
        Some(_) => Ok(formula),
        None => {
            let start = start_spoke(alloc, r)?;
            let formula = formula.auxiliary(Auxiliary::Length(start))?;
            Ok(formula)
        }
    }
}

/// An axis of the curve's normal, where that is no workplane's own: 0 for U and 1 for V.
fn axis<const S: u32>(alloc: Global, r: &RadiusParts<S>, i: usize) -> Result<Vector<S>, NoMemory>
    ensures { IfOk result (λ v. vector_of v ≡ vector_at (round_of r.now).axes i) }
{
    match &r.axes {
        Some(axes) => {
            let axis = Vector::among(alloc, axes.as_slice(), i)?;
            Ok(axis)
        }
        None => Ok(Vector::zero()),
    }
}

/// From the centre to the first point, in the plane of the curve's normal.
#[tactic(auto, unfolding(crate::specs::CurveRows::from_centre, sk_expr::specs::VectorViews::vector_of))]
pub(crate) fn from_centre<const S: u32>(
    alloc: Global,
    parts: &ConstraintParts<S>,
    r: &RadiusParts<S>,
) -> Result<Vector<S>, NoMemory>
    ensures { IfOk result (λ v. vector_of v ≡ from_centre (parts_of parts.now) (round_of r.now) (round_of r.now).flat_centre) }
{
    match &r.flat_centre {
        Some(centre) => {
            let p = parts.point(alloc, true, 0)?;
            let centre = Vector::flat(alloc, centre)?;
            let from_centre = p.less(alloc, &centre)?;
            Ok(from_centre)
        }
        None => {
            let p = parts.point(alloc, false, 0)?;
            let centre = r.centre.vector(alloc)?;
            let from_centre = p.less(alloc, &centre)?;
            let u = axis(alloc, r, 0)?;
            let v = axis(alloc, r, 1)?;
            let along_u = from_centre.dot(alloc, &u)?;
            let along_v = from_centre.dot(alloc, &v)?;
            Ok(Vector {
                x: along_u,
                y: along_v,
                z: None,
            })
        }
    }
}
