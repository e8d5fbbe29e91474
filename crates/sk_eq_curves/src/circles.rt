#![tactic(auto, unfolding(crate::specs::CurveRows::diameter, crate::specs::CurveRows::on_circle, crate::specs::CurveRows::arc_touches_line, crate::specs::CurveRows::arcs_touch, crate::specs::CurveRows::equal_radii))]

ghost use Rattle.std.specs.Prelude.{◌≡◌, ◌≤◌, IfOk};
ghost use Rattle.sk_num.specs.Scale.{IsScale};
ghost use Rattle.sk_expr.specs.PartViews.{parts_of};
ghost use Rattle.sk_expr.specs.FormulaViews.{formula_of, IsSmall};
ghost use Rattle.sk_eq_curves.specs.CurveRows.{diameter, on_circle, arc_touches_line, arcs_touch, equal_radii};

use crate::NoMemory;
use crate::radii::{flat_spoke, from_centre, no_radius, radius, radius_at, spoke, with_radius};
use sk_expr::{ConstraintParts, Expr, Formula, copy, mul, sub};
use sk_num::Grid;
use std::alloc::Global;

pub(crate) fn diameter<const S: u32>(
    alloc: Global,
    i: u16,
    value: Grid<S>,
    parts: &ConstraintParts<S>,
) -> Result<Formula<S>, NoMemory>
    requires { IsScale S }
    ensures formula { IfOk result (λ f. formula_of f ≡ diameter S i value.entry (parts_of parts.now)) }
    ensures small { IfOk result (λ f. IsSmall f) }
{
    let absent = no_radius(alloc);
    let r = radius_at(parts, 0, &absent);
    let radius = radius(alloc, r, i)?;
    let twice = mul(alloc, Expr::Num(Grid::whole(2)), radius)?;
    let formula = with_radius(alloc, Formula::empty(alloc), r)?;
    let formula = formula.row(sub(alloc, twice, Expr::Num(value))?)?;
    Ok(formula)
}

pub(crate) fn on_circle<const S: u32>(
    alloc: Global,
    i: u16,
    parts: &ConstraintParts<S>,
) -> Result<Formula<S>, NoMemory>
    ensures formula { IfOk result (λ f. formula_of f ≡ on_circle i (parts_of parts.now)) }
    ensures small { IfOk result (λ f. IsSmall f) }
{
    let absent = no_radius(alloc);
    let r = radius_at(parts, 0, &absent);
    let apart = from_centre(alloc, parts, r)?.squared(alloc)?;
    let radius = radius(alloc, r, i)?;
    let again = copy(alloc, &radius)?;
    let squared = mul(alloc, radius, again)?;
    let formula = with_radius(alloc, Formula::empty(alloc), r)?;
    let formula = formula.row(sub(alloc, apart, squared)?)?;
    Ok(formula)
}

pub(crate) fn arc_touches_line<const S: u32>(
    alloc: Global,
    other: bool,
    parts: &ConstraintParts<S>,
) -> Result<Formula<S>, NoMemory>
    ensures formula { IfOk result (λ f. formula_of f ≡ arc_touches_line other (parts_of parts.now)) }
    ensures small { IfOk result (λ f. IsSmall f) }
{
    let absent = no_radius(alloc);
    let spoke = spoke(alloc, radius_at(parts, 0, &absent), other)?;
    let along = parts.line_vector(alloc, false, 0)?;
    let formula = Formula::perpendicular(alloc, &spoke, &along)?;
    Ok(formula)
}

pub(crate) fn arcs_touch<const S: u32>(
    alloc: Global,
    other: bool,
    other2: bool,
    parts: &ConstraintParts<S>,
) -> Result<Formula<S>, NoMemory>
    ensures formula { IfOk result (λ f. formula_of f ≡ arcs_touch other other2 (parts_of parts.now)) }
    ensures small { IfOk result (λ f. IsSmall f) }
{
    let absent = no_radius(alloc);
    let first = flat_spoke(alloc, radius_at(parts, 0, &absent), other)?;
    let second = flat_spoke(alloc, radius_at(parts, 1, &absent), other2)?;
    let row = first.flat_cross(alloc, &second)?;
    let formula = Formula::empty(alloc).row(row)?;
    Ok(formula)
}

pub(crate) fn equal_radii<const S: u32>(
    alloc: Global,
    i: u16,
    parts: &ConstraintParts<S>,
) -> Result<Formula<S>, NoMemory>
    requires { i ≤ 65000 }
    ensures formula { IfOk result (λ f. formula_of f ≡ equal_radii i (parts_of parts.now)) }
    ensures small { IfOk result (λ f. IsSmall f) }
{
    let absent = no_radius(alloc);
    let (a, b) = (radius_at(parts, 0, &absent), radius_at(parts, 1, &absent));
    let formula = with_radius(alloc, Formula::empty(alloc), a)?;
    let second = i + formula.auxiliaries.as_slice().len() as u16;
    let formula = with_radius(alloc, formula, b)?;
    let first_radius = radius(alloc, a, i)?;
    let second_radius = radius(alloc, b, second)?;
    let row = sub(alloc, first_radius, second_radius)?;
    let formula = formula.row(row)?;
    Ok(formula)
}
