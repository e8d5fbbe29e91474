#![tactic(auto, unfolding(crate::specs::PointRows::symmetric_over_plane, crate::specs::PointRows::mirrored, crate::specs::PointRows::symmetric_over_line, sk_expr::specs::VectorViews::vector_of))]

ghost use Rattle.std.specs.Prelude.{◌≡◌, IfOk};
ghost use Rattle.sk_num.specs.Scale.{IsScale};
ghost use Rattle.sk_expr.specs.VectorViews.{vector_of};
ghost use Rattle.sk_expr.specs.PartViews.{parts_of};
ghost use Rattle.sk_expr.specs.FormulaViews.{formula_of, IsSmall};
ghost use Rattle.sk_expr.specs.Formula.{rows_only};
ghost use Rattle.sk_expr.specs.Vectors.{cross};
ghost use Rattle.sk_eq_points.specs.PointRows.{symmetric_over_plane, mirrored, symmetric_over_line};

use crate::NoMemory;
use crate::points::{about, points_difference};
use sk_expr::{ConstraintParts, Formula, Vector, add, sub};
use std::alloc::Global;

pub(crate) fn symmetric_over_plane<const S: u32>(
    alloc: Global,
    flat: bool,
    parts: &ConstraintParts<S>,
) -> Result<Formula<S>, NoMemory>
    requires { IsScale S }
    ensures formula { IfOk result (λ f. formula_of f ≡ rows_only (symmetric_over_plane S flat (parts_of parts.now))) }
    ensures small { IfOk result (λ f. IsSmall f) }
{
    let p = parts.point(alloc, false, 0)?;
    let q = parts.point(alloc, false, 1)?;
    let origin = parts.frame_origin(alloc, 0)?;
    let n = parts.frame_n(alloc, 0)?;
    let middle = about(alloc, &p, &q, &origin)?.dot(alloc, &n)?;
    let formula = Formula::empty(alloc).row(middle)?;
    let difference = points_difference(alloc, false, parts)?;
    if flat {
        let n_of_constraint = parts.frame_n(alloc, 1)?;
        let along = n.cross(alloc, &n_of_constraint)?;
        let formula = formula.row(along.dot(alloc, &difference)?)?;
        return Ok(formula);
    }
    let u = parts.frame_u(alloc, 0)?;
    let v = parts.frame_v(alloc, 0)?;
    let formula = formula.row(difference.dot(alloc, &u)?)?;
    let formula = formula.row(difference.dot(alloc, &v)?)?;
    Ok(formula)
}

/// About the second axis of the workplane: the second coordinates are equal, the first ones opposite.
pub(crate) fn mirrored_over_v<const S: u32>(
    alloc: Global,
    parts: &ConstraintParts<S>,
) -> Result<Formula<S>, NoMemory>
    ensures formula { IfOk result (λ f. formula_of f ≡ rows_only (mirrored 1 0 (parts_of parts.now))) }
    ensures small { IfOk result (λ f. IsSmall f) }
{
    let p = parts.point(alloc, true, 0)?;
    let q = parts.point(alloc, true, 1)?;
    let formula = Formula::empty(alloc).row(sub(alloc, p.y, q.y)?)?;
    let formula = formula.row(add(alloc, p.x, q.x)?)?;
    Ok(formula)
}

/// About the first axis of the workplane: the first coordinates are equal, the second ones opposite.
pub(crate) fn mirrored_over_u<const S: u32>(
    alloc: Global,
    parts: &ConstraintParts<S>,
) -> Result<Formula<S>, NoMemory>
    ensures formula { IfOk result (λ f. formula_of f ≡ rows_only (mirrored 0 1 (parts_of parts.now))) }
    ensures small { IfOk result (λ f. IsSmall f) }
{
    let p = parts.point(alloc, true, 0)?;
    let q = parts.point(alloc, true, 1)?;
    let formula = Formula::empty(alloc).row(sub(alloc, p.x, q.x)?)?;
    let formula = formula.row(add(alloc, p.y, q.y)?)?;
    Ok(formula)
}

pub(crate) fn symmetric_over_line<const S: u32>(
    alloc: Global,
    parts: &ConstraintParts<S>,
) -> Result<Formula<S>, NoMemory>
    requires { IsScale S }
    ensures formula { IfOk result (λ f. formula_of f ≡ rows_only (symmetric_over_line S (parts_of parts.now))) }
    ensures small { IfOk result (λ f. IsSmall f) }
{
    let p = parts.point(alloc, true, 0)?;
    let q = parts.point(alloc, true, 1)?;
    let start = parts.line_end(alloc, true, 0, 0)?;
    let along = parts.line_vector(alloc, true, 0)?;
    let difference = points_difference(alloc, true, parts)?;
    let from_start = about(alloc, &p, &q, &start)?;
    let formula = Formula::empty(alloc).row(along.dot(alloc, &difference)?)?;
    let formula = formula.row(along.flat_cross(alloc, &from_start)?)?;
    Ok(formula)
}
