#![tactic(auto, unfolding(crate::specs::LineRows::from_line, crate::specs::LineRows::apart_along, crate::specs::LineRows::on_line, crate::specs::LineRows::equal_heights, crate::specs::LineRows::length_as_height))]

ghost use Rattle.std.specs.Prelude.{◌≡◌, ◌≤◌, IfOk};
ghost use Rattle.sk_expr.specs.Poly.{unknown};
ghost use Rattle.sk_expr.specs.Trees.{poly_of};
ghost use Rattle.sk_expr.specs.PartViews.{parts_of};
ghost use Rattle.sk_expr.specs.FormulaViews.{formula_of, IsSmall};
ghost use Rattle.sk_eq_lines.specs.LineRows.{unknown_squared, from_line, apart_along, on_line, length_as_height, equal_heights};

use crate::NoMemory;
use crate::auxiliaries::{foot, from_foot, side_of, with_height};
use crate::directions::direction;
use sk_expr::{
    Auxiliary, ConstraintParts, Expr, Formula, Relation, Tree, mul, squared_number, sub,
};
use sk_num::Grid;
use std::alloc::Global;

pub(crate) fn from_line<const S: u32>(
    alloc: Global,
    i: u16,
    flat: bool,
    value: Grid<S>,
    parts: &ConstraintParts<S>,
) -> Result<Formula<S>, NoMemory>
    ensures formula { IfOk result (λ f. formula_of f ≡ from_line i flat value.entry (parts_of parts.now)) }
    ensures small { IfOk result (λ f. IsSmall f) }
{
    let p = parts.point(alloc, flat, 0)?;
    if flat {
        let along = parts.line_vector(alloc, true, 0)?;
        let side = side_of(alloc, &p, 0, parts)?;
        let far = mul(alloc, Expr::Num(value), Expr::Var(i))?;
        let formula = Formula::empty(alloc).auxiliary(Auxiliary::Length(along))?;
        let formula = formula.row(sub(alloc, side, far)?)?;
        return Ok(formula);
    }
    let place = foot(alloc, &p, 0, parts)?;
    let apart = from_foot(alloc, i, &p, 0, parts)?.squared(alloc)?;
    let far = squared_number(alloc, value)?;
    let formula = Formula::empty(alloc).auxiliary(place)?;
    let formula = formula.row(sub(alloc, apart, far)?)?;
    Ok(formula)
}

pub(crate) fn apart_along<const S: u32>(
    alloc: Global,
    i: u16,
    value: Grid<S>,
    parts: &ConstraintParts<S>,
) -> Result<Formula<S>, NoMemory>
    ensures formula { IfOk result (λ f. formula_of f ≡ apart_along i value.entry (parts_of parts.now)) }
    ensures small { IfOk result (λ f. IsSmall f) }
{
    let p = parts.point(alloc, false, 0)?;
    let q = parts.point(alloc, false, 1)?;
    let along = direction(alloc, false, 0, parts)?;
    let apart = q.less(alloc, &p)?.dot(alloc, &along)?;
    let far = mul(alloc, Expr::Num(value), Expr::Var(i))?;
    let formula = Formula::empty(alloc).auxiliary(Auxiliary::Length(along))?;
    let formula = formula.row(sub(alloc, apart, far)?)?;
    Ok(formula)
}

pub(crate) fn on_line<const S: u32>(
    alloc: Global,
    i: u16,
    flat: bool,
    parts: &ConstraintParts<S>,
) -> Result<Formula<S>, NoMemory>
    ensures formula { IfOk result (λ f. formula_of f ≡ on_line i flat (parts_of parts.now)) }
    ensures small { IfOk result (λ f. IsSmall f) }
{
    let p = parts.point(alloc, flat, 0)?;
    if flat {
        let side = side_of(alloc, &p, 0, parts)?;
        let formula = Formula::empty(alloc).row(side)?;
        return Ok(formula);
    }
    let place = foot(alloc, &p, 0, parts)?;
    let along = parts.line_vector(alloc, false, 0)?;
    let beside = from_foot(alloc, i, &p, 0, parts)?;
    let formula = Formula::empty(alloc).auxiliary(place)?;
    let formula = formula.relation(Relation::WithoutGreatest(along, beside))?;
    Ok(formula)
}

/// The square of an unknown.
fn unknown_squared<const S: u32>(alloc: Global, i: u16) -> Result<Tree<S>, NoMemory>
    ensures { IfOk result (λ e. poly_of e ≡ unknown_squared i) }
{
    let squared = mul(alloc, Expr::Var(i), Expr::Var(i))?;
    Ok(squared)
}

pub(crate) fn length_as_height<const S: u32>(
    alloc: Global,
    i: u16,
    flat: bool,
    parts: &ConstraintParts<S>,
) -> Result<Formula<S>, NoMemory>
    requires { i ≤ 65000 }
    ensures formula { IfOk result (λ f. formula_of f ≡ length_as_height i flat (parts_of parts.now)) }
    ensures small { IfOk result (λ f. IsSmall f) }
{
    let long = parts.line_vector(alloc, flat, 0)?.squared(alloc)?;
    let p = parts.point(alloc, flat, 0)?;
    let formula = Formula::empty(alloc);
    if flat {
        let formula = with_height(alloc, formula, i, &p, 1, parts)?;
        let high = unknown_squared(alloc, i + 1)?;
        let formula = formula.row(sub(alloc, long, high)?)?;
        return Ok(formula);
    }
    let place = foot(alloc, &p, 1, parts)?;
    let high = from_foot(alloc, i, &p, 1, parts)?.squared(alloc)?;
    let formula = formula.auxiliary(place)?;
    let formula = formula.row(sub(alloc, long, high)?)?;
    Ok(formula)
}

pub(crate) fn equal_heights<const S: u32>(
    alloc: Global,
    i: u16,
    flat: bool,
    parts: &ConstraintParts<S>,
) -> Result<Formula<S>, NoMemory>
    requires { i ≤ 65000 }
    ensures formula { IfOk result (λ f. formula_of f ≡ equal_heights i flat (parts_of parts.now)) }
    ensures small { IfOk result (λ f. IsSmall f) }
{
    let p = parts.point(alloc, flat, 0)?;
    let q = parts.point(alloc, flat, 1)?;
    let formula = Formula::empty(alloc);
    if flat {
        let formula = with_height(alloc, formula, i, &p, 0, parts)?;
        let formula = with_height(alloc, formula, i + 2, &q, 1, parts)?;
        let first = unknown_squared(alloc, i + 1)?;
        let second = unknown_squared(alloc, i + 3)?;
        let formula = formula.row(sub(alloc, first, second)?)?;
        return Ok(formula);
    }
    let first = from_foot(alloc, i, &p, 0, parts)?.squared(alloc)?;
    let second = from_foot(alloc, i + 1, &q, 1, parts)?.squared(alloc)?;
    let formula = formula.auxiliary(foot(alloc, &p, 0, parts)?)?;
    let formula = formula.auxiliary(foot(alloc, &q, 1, parts)?)?;
    let formula = formula.row(sub(alloc, first, second)?)?;
    Ok(formula)
}
