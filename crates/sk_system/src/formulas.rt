// The formula of a constraint by its number.
#![tactic(auto)]

ghost use Rattle.std.specs.Prelude.{◌≡◌, ◌≤◌, ◌+◌, map, length, IfOk};
ghost use Rattle.std.specs.List.{All};
ghost use Rattle.sk_num.specs.Scale.{IsScale};
ghost use Rattle.sk_expr.specs.FormulaViews.{formula_of, IsSmall};
ghost use Rattle.sk_geom.specs.Sources.{IsSource};
ghost use Rattle.sk_geom.specs.Views.{source_of};
ghost use Rattle.sk_eq_points.specs.PointRows.{point_kinds, point_formula};
ghost use Rattle.sk_eq_lines.specs.LineRows.{line_kinds, line_formula};
ghost use Rattle.sk_types.specs.Standings.{IsInTurn};
ghost use Rattle.sk_eq_curves.specs.CurveRows.{curve_kinds, curve_formula};
ghost use Rattle.sk_face.specs.FaceRows.{face_kinds, face_formula};
ghost use Rattle.sk_cubic.specs.CubicRows.{cubic_formula};
ghost use Rattle.sk_types.specs.Lists.{is_among};
ghost use Rattle.sk_types.specs.Needs.{named};
ghost use Rattle.sk_system.specs.ByHandle.{point_by};
ghost use Rattle.sk_system.specs.ConstraintParts.{constraint_parts};
ghost use Rattle.sk_system.specs.FlatPoints.{is_flat, flat_kinds};
ghost use Rattle.sk_system.specs.Contacts.{face_by, contact_in};
ghost use Rattle.sk_system.specs.Formulas.{constraint_formula, formulas_from};
ghost use Rattle.sk_system.specs.Sizes.{auxiliaries_in, cosines_in};
ghost use Rattle.sk_system.specs.Views.{formula_view};
ghost use Rattle.sk_system.specs.declared.formulas.NamedFormula.{NamedFormula as KeptFormula};

use crate::NoMemory;
use crate::by_handle::point_by;
use crate::contacts::{contact_in, face_by, has_cubic};
use crate::parts::{constraint_parts, flat_parts};
use sk_expr::Formula;
use sk_geom::Source;
use sk_types::{Constraint, ConstraintId, constraint_kind as kind};
use std::alloc::Global;

/// A constraint with its formula.
#[derive(Debug, Drop)]
pub struct NamedFormula<const S: u32> {
    /// The constraint.
    pub constraint: ConstraintId,
    /// Its formula.
    pub formula: Formula<S>,
}

/// Whether a number is that of a constraint whose rows take nothing but points, in the workplane where there is one.
fn is_of_points_alone(number: u16) -> bool
    ensures { result ≡ is_among number flat_kinds }
{
    matches!(
        number,
        kind::POINTS_COINCIDENT
            | kind::POINT_POINT_DISTANCE
            | kind::SYMMETRIC_HORIZONTAL
            | kind::SYMMETRIC_VERTICAL
    )
}

/// Whether the rows of a constraint are made of points in its workplane alone.
#[tactic(auto, unfolding(crate::specs::FlatPoints::is_flat))]
fn is_flat<const S: u32>(c: &Constraint<S>) -> bool
    ensures { result ≡ is_flat c.now }
{
    c.workplane.0 != 0 && is_of_points_alone(c.kind)
}

#[tactic(auto, using(crate::proofs::FlatRows::flat_rows))]
fn of_points<const S: u32>(
    alloc: Global,
    source: &Source<'_, S>,
    c: &Constraint<S>,
) -> Result<Formula<S>, NoMemory>
    requires scale { IsScale S }
    requires source { IsSource (source_of source.now) }
    ensures formula { IfOk result (λ f. formula_of f ≡ point_formula S c.now (constraint_parts (source_of source.now) c.now)) }
    ensures small { IfOk result (λ f. IsSmall f) }
{
    let parts = if is_flat(c) {
        flat_parts(alloc, source, c)?
    } else {
        constraint_parts(alloc, source, c)?
    };
    let formula = sk_eq_points::formula(alloc, c, &parts)?;
    Ok(formula)
}

fn of_lines<const S: u32>(
    alloc: Global,
    source: &Source<'_, S>,
    i: u16,
    k: u16,
    c: &Constraint<S>,
) -> Result<Formula<S>, NoMemory>
    requires scale { IsScale S }
    requires source { IsSource (source_of source.now) }
    requires in_turn { IsInTurn c.now }
    requires room { i ≤ 60000 }
    ensures formula { IfOk result (λ f. formula_of f ≡ line_formula S i k c.now (constraint_parts (source_of source.now) c.now)) }
    ensures small { IfOk result (λ f. IsSmall f) }
{
    let parts = constraint_parts(alloc, source, c)?;
    let formula = sk_eq_lines::formula(alloc, i, k, c, &parts)?;
    Ok(formula)
}

fn of_curves<const S: u32>(
    alloc: Global,
    source: &Source<'_, S>,
    i: u16,
    c: &Constraint<S>,
) -> Result<Formula<S>, NoMemory>
    requires scale { IsScale S }
    requires source { IsSource (source_of source.now) }
    requires room { i ≤ 60000 }
    ensures formula { IfOk result (λ f. formula_of f ≡ curve_formula S i c.now (constraint_parts (source_of source.now) c.now)) }
    ensures small { IfOk result (λ f. IsSmall f) }
{
    let parts = constraint_parts(alloc, source, c)?;
    let formula = sk_eq_curves::formula(alloc, i, c, &parts)?;
    Ok(formula)
}

fn of_face<const S: u32>(
    alloc: Global,
    source: &Source<'_, S>,
    i: u16,
    c: &Constraint<S>,
) -> Result<Formula<S>, NoMemory>
    requires scale { IsScale S }
    requires source { IsSource (source_of source.now) }
    ensures formula { IfOk result (λ f. formula_of f ≡ face_formula S i c.now (point_by (source_of source.now) (named c.now.points 0)) (face_by (source_of source.now) (named c.now.entities 0))) }
    ensures small { IfOk result (λ f. IsSmall f) }
{
    let p = point_by(alloc, source, c.points[0])?;
    let face = face_by(alloc, source, c.entities[0])?;
    let formula = sk_face::formula(alloc, i, c, &p, &face)?;
    Ok(formula)
}

fn of_cubic<const S: u32>(
    alloc: Global,
    source: &Source<'_, S>,
    c: &Constraint<S>,
) -> Result<Formula<S>, NoMemory>
    requires scale { IsScale S }
    requires source { IsSource (source_of source.now) }
    ensures formula { IfOk result (λ f. formula_of f ≡ cubic_formula S c.now (contact_in (source_of source.now) c.now)) }
    ensures small { IfOk result (λ f. IsSmall f) }
{
    let contact = contact_in(alloc, source, c)?;
    let formula = sk_cubic::formula(alloc, c, &contact)?;
    Ok(formula)
}

/// Whether a number is that of a constraint of points.
fn is_of_points(number: u16) -> bool
    ensures { result ≡ is_among number point_kinds }
{
    matches!(
        number,
        kind::POINTS_COINCIDENT
            | kind::POINT_POINT_DISTANCE
            | kind::POINT_PLANE_DISTANCE
            | kind::POINT_IN_PLANE
            | kind::SYMMETRIC
            | kind::SYMMETRIC_HORIZONTAL
            | kind::SYMMETRIC_VERTICAL
            | kind::SYMMETRIC_LINE
            | kind::AT_MIDPOINT
            | kind::HORIZONTAL
            | kind::VERTICAL
    )
}

/// Whether it is that of a constraint of lines and normals.
fn is_of_lines(number: u16) -> bool
    ensures { result ≡ is_among number line_kinds }
{
    matches!(
        number,
        kind::POINT_LINE_DISTANCE
            | kind::PROJECTED_DISTANCE
            | kind::POINT_ON_LINE
            | kind::EQUAL_LENGTHS
            | kind::LENGTH_RATIO
            | kind::EQUAL_LENGTH_AND_DISTANCE
            | kind::EQUAL_DISTANCES
            | kind::EQUAL_ANGLES
            | kind::LENGTH_DIFFERENCE
            | kind::SAME_ORIENTATION
            | kind::ANGLE
            | kind::PARALLEL
            | kind::PERPENDICULAR
    )
}

/// Whether it is that of a point and a face.
fn is_of_face(number: u16) -> bool
    ensures { result ≡ is_among number face_kinds }
{
    matches!(number, kind::POINT_FACE_DISTANCE | kind::POINT_ON_FACE)
}

/// Whether it is that of circles and arcs.
fn is_of_curves(number: u16) -> bool
    ensures { result ≡ is_among number curve_kinds }
{
    matches!(
        number,
        kind::DIAMETER
            | kind::POINT_ON_CIRCLE
            | kind::ARC_LINE_TANGENT
            | kind::CURVE_CURVE_TANGENT
            | kind::EQUAL_RADII
    )
}

/// The formula of a constraint, where `i` unknowns and `k` cosines stand before: its auxiliaries, its cosines and its rows. A
/// reference has nothing.
#[tactic(auto, unfolding(crate::specs::Formulas::constraint_formula))]
fn constraint_formula<const S: u32>(
    alloc: Global,
    source: &Source<'_, S>,
    i: u16,
    k: u16,
    c: &Constraint<S>,
) -> Result<Formula<S>, NoMemory>
    requires scale { IsScale S }
    requires source { IsSource (source_of source.now) }
    requires in_turn { IsInTurn c.now }
    requires room { i ≤ 60000 }
    ensures formula { IfOk result (λ f. formula_of f ≡ constraint_formula (source_of source.now) i k c.now) }
    ensures small { IfOk result (λ f. IsSmall f) }
{
    if c.reference {
        return Ok(Formula::empty(alloc));
    }
    if is_of_points(c.kind) {
        return Ok(of_points(alloc, source, c)?);
    }
    if is_of_lines(c.kind) {
        return Ok(of_lines(alloc, source, i, k, c)?);
    }
    if is_of_face(c.kind) {
        return Ok(of_face(alloc, source, i, c)?);
    }
    if has_cubic(source, c) {
        return Ok(of_cubic(alloc, source, c)?);
    }
    if is_of_curves(c.kind) {
        return Ok(of_curves(alloc, source, i, c)?);
    }
    Ok(Formula::empty(alloc))
}

/// The formulas of constraints, one after another, behind all parameters that are to be solved.
pub(crate) fn formulas_of<const S: u32>(
    alloc: Global,
    source: &Source<'_, S>,
    constraints: &[Constraint<S>],
) -> Result<Vec<NamedFormula<S>>, NoMemory>
    requires scale { IsScale S }
    requires source { IsSource (source_of source.now) }
    requires in_turn { All (IsInTurn {s = S}) constraints.now }
    requires room { length source.now.unknowns.now + auxiliaries_in (formulas_from (source_of source.now) (length source.now.unknowns.now) 0 constraints.now) ≤ 60000 }
    requires few_cosines { cosines_in (formulas_from (source_of source.now) (length source.now.unknowns.now) 0 constraints.now) ≤ 60000 }
    ensures formulas { IfOk result (λ v. map formula_view v.items ≡ formulas_from (source_of source.now) (length source.now.unknowns.now) 0 constraints.now) }
    ensures small { IfOk result (λ v. All (λ (f : KeptFormula S). IsSmall f.formula) v.items) }
{
    let mut formulas = Vec::new(alloc);
    let mut unknowns = source.unknowns.len();
    let mut cosines = 0;
    for c in constraints {
        let formula = constraint_formula(alloc, source, unknowns as u16, cosines as u16, c)?;
        unknowns += formula.auxiliaries.as_slice().len();
        cosines += formula.cosines.as_slice().len();
        formulas.push(NamedFormula {
            constraint: c.id,
            formula,
        })?;
    }
    Ok(formulas)
}
