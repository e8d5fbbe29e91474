#![tactic(auto, unfolding(crate::specs::PointRows::points_difference, crate::specs::PointRows::points_apart, crate::specs::PointRows::height_over, crate::specs::PointRows::over_plane, crate::specs::PointRows::in_plane, crate::specs::PointRows::middle, crate::specs::PointRows::level, sk_expr::specs::VectorViews::vector_of))]

ghost use Rattle.std.specs.Prelude.{◌≡◌, IfOk, if◌then◌else◌};
ghost use Rattle.sk_num.specs.Scale.{IsScale};
ghost use Rattle.sk_expr.specs.Trees.{poly_of};
ghost use Rattle.sk_expr.specs.VectorViews.{vector_of};
ghost use Rattle.sk_expr.specs.PartViews.{parts_of};
ghost use Rattle.sk_expr.specs.FormulaViews.{formula_of, IsSmall};
ghost use Rattle.sk_expr.specs.Formula.{rows_only};
ghost use Rattle.sk_expr.specs.Vectors.{about, component};
ghost use Rattle.sk_eq_points.specs.PointRows.{points_difference, points_apart, height_over, over_plane, in_plane, middle, level_end, level};

use crate::NoMemory;
use sk_expr::{ConstraintParts, Expr, Formula, Tree, Vector, squared_number, sub};
use sk_num::Grid;
use std::alloc::Global;

/// `p - q`.
pub(crate) fn points_difference<const S: u32>(
    alloc: Global,
    flat: bool,
    parts: &ConstraintParts<S>,
) -> Result<Vector<S>, NoMemory>
    ensures { IfOk result (λ v. vector_of v ≡ points_difference flat (parts_of parts.now)) }
{
    let p = parts.point(alloc, flat, 0)?;
    let q = parts.point(alloc, flat, 1)?;
    p.less(alloc, &q)
}

/// `p + q - 2 m`.
pub(crate) fn about<const S: u32>(
    alloc: Global,
    p: &Vector<S>,
    q: &Vector<S>,
    m: &Vector<S>,
) -> Result<Vector<S>, NoMemory>
    requires { IsScale S }
    ensures { IfOk result (λ v. vector_of v ≡ about S (vector_of p.now) (vector_of q.now) (vector_of m.now)) }
{
    let two = Expr::Num(Grid::whole(2));
    let sum = p.plus(alloc, q)?;
    let twice = m.times(alloc, &two)?;
    sum.less(alloc, &twice)
}

pub(crate) fn coincident<const S: u32>(
    alloc: Global,
    flat: bool,
    parts: &ConstraintParts<S>,
) -> Result<Formula<S>, NoMemory>
    ensures formula { IfOk result (λ f. formula_of f ≡ rows_only (points_difference flat (parts_of parts.now))) }
    ensures small { IfOk result (λ f. IsSmall f) }
{
    let difference = points_difference(alloc, flat, parts)?;
    let formula = Formula::empty(alloc).components(difference)?;
    Ok(formula)
}

pub(crate) fn points_apart<const S: u32>(
    alloc: Global,
    flat: bool,
    value: Grid<S>,
    parts: &ConstraintParts<S>,
) -> Result<Formula<S>, NoMemory>
    ensures formula { IfOk result (λ f. formula_of f ≡ rows_only (points_apart flat value.entry (parts_of parts.now))) }
    ensures small { IfOk result (λ f. IsSmall f) }
{
    let difference = points_difference(alloc, flat, parts)?;
    let squared = difference.squared(alloc)?;
    let row = sub(alloc, squared, squared_number(alloc, value)?)?;
    let formula = Formula::empty(alloc).row(row)?;
    Ok(formula)
}

/// How high the first point lies over the first workplane, times the length of its normal.
fn height_over<const S: u32>(alloc: Global, parts: &ConstraintParts<S>) -> Result<Tree<S>, NoMemory>
    ensures { IfOk result (λ e. poly_of e ≡ height_over (parts_of parts.now)) }
{
    let p = parts.point(alloc, false, 0)?;
    let origin = parts.frame_origin(alloc, 0)?;
    let n = parts.frame_n(alloc, 0)?;
    let from_origin = p.less(alloc, &origin)?;
    let height = from_origin.dot(alloc, &n)?;
    Ok(height)
}

pub(crate) fn over_plane<const S: u32>(
    alloc: Global,
    value: Grid<S>,
    parts: &ConstraintParts<S>,
) -> Result<Formula<S>, NoMemory>
    ensures formula { IfOk result (λ f. formula_of f ≡ rows_only (over_plane value.entry (parts_of parts.now))) }
    ensures small { IfOk result (λ f. IsSmall f) }
{
    let height = height_over(alloc, parts)?;
    let row = sub(alloc, height, Expr::Num(value))?;
    let formula = Formula::empty(alloc).row(row)?;
    Ok(formula)
}

pub(crate) fn in_plane<const S: u32>(
    alloc: Global,
    parts: &ConstraintParts<S>,
) -> Result<Formula<S>, NoMemory>
    ensures formula { IfOk result (λ f. formula_of f ≡ rows_only (in_plane (parts_of parts.now))) }
    ensures small { IfOk result (λ f. IsSmall f) }
{
    let row = height_over(alloc, parts)?;
    let formula = Formula::empty(alloc).row(row)?;
    Ok(formula)
}

pub(crate) fn middle<const S: u32>(
    alloc: Global,
    has_point: bool,
    flat: bool,
    parts: &ConstraintParts<S>,
) -> Result<Formula<S>, NoMemory>
    requires { IsScale S }
    ensures formula { IfOk result (λ f. formula_of f ≡ rows_only (middle S has_point flat (parts_of parts.now))) }
    ensures small { IfOk result (λ f. IsSmall f) }
{
    if has_point {
        let start = parts.line_end(alloc, flat, 0, 0)?;
        let end = parts.line_end(alloc, flat, 0, 1)?;
        let p = parts.point(alloc, flat, 0)?;
        let rows = about(alloc, &start, &end, &p)?;
        let formula = Formula::empty(alloc).components(rows)?;
        return Ok(formula);
    }
    let start = parts.line_end(alloc, false, 0, 0)?;
    let end = parts.line_end(alloc, false, 0, 1)?;
    let origin = parts.frame_origin(alloc, 0)?;
    let n = parts.frame_n(alloc, 0)?;
    let row = about(alloc, &start, &end, &origin)?.dot(alloc, &n)?;
    let formula = Formula::empty(alloc).row(row)?;
    Ok(formula)
}

/// A coordinate of a vector in a workplane: the first or the second.
fn coordinate<const S: u32>(a: Vector<S>, second: bool) -> Tree<S>
    ensures { poly_of result ≡ component (vector_of a.entry) (if second then 1 else 0) }
{
    if second { a.y } else { a.x }
}

/// An end of the first line, or else a point, in the workplane.
#[tactic(auto, unfolding(crate::specs::PointRows::level_end))]
fn flat_end<const S: u32>(
    alloc: Global,
    has_line: bool,
    i: usize,
    parts: &ConstraintParts<S>,
) -> Result<Vector<S>, NoMemory>
    ensures { IfOk result (λ v. vector_of v ≡ level_end has_line (parts_of parts.now) i) }
{
    if has_line {
        let end = parts.line_end(alloc, true, 0, i)?;
        Ok(end)
    } else {
        let point = parts.point(alloc, true, i)?;
        Ok(point)
    }
}

#[tactic(auto, unfolding(crate::specs::PointRows::level))]
pub(crate) fn level<const S: u32>(
    alloc: Global,
    has_line: bool,
    second: bool,
    parts: &ConstraintParts<S>,
) -> Result<Formula<S>, NoMemory>
    ensures formula { IfOk result (λ f. formula_of f ≡ rows_only (level has_line (if second then 1 else 0) (parts_of parts.now))) }
    ensures small { IfOk result (λ f. IsSmall f) }
{
    let start = flat_end(alloc, has_line, 0, parts)?;
    let end = flat_end(alloc, has_line, 1, parts)?;
    let first = coordinate(start, second);
    let other = coordinate(end, second);
    let row = sub(alloc, first, other)?;
    let formula = Formula::empty(alloc).row(row)?;
    Ok(formula)
}
