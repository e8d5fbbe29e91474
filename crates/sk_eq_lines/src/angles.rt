#![tactic(auto, unfolding(crate::specs::LineRows::equal_angles, crate::specs::LineRows::same_orientation, crate::specs::LineRows::in_angle))]

ghost use Rattle.std.specs.Prelude.{◌≡◌, ◌≤◌, ◌*◌, ◌^◌, unsigned_abs, IfOk};
ghost use Rattle.sk_num.specs.Scale.{IsScale};
ghost use Rattle.sk_cosine.specs.Rule.{cosine_ends};
ghost use Rattle.sk_expr.specs.PartViews.{parts_of};
ghost use Rattle.sk_expr.specs.FormulaViews.{formula_of, IsSmall};
ghost use Rattle.sk_expr.specs.Formula.{parallel, perpendicular};
ghost use Rattle.sk_eq_lines.specs.LineRows.{direction_at, equal_angles, same_orientation, in_angle};

use crate::NoMemory;
use crate::auxiliaries::with_cosine;
use crate::directions::{direction, first_direction};
use sk_cosine::cosine;
use sk_expr::{Auxiliary, ConstraintParts, Expr, Formula, Relation, mul, sub};
use sk_num::{Grid, Span};
use std::alloc::Global;

pub(crate) fn equal_angles<const S: u32>(
    alloc: Global,
    i: u16,
    other: bool,
    flat: bool,
    parts: &ConstraintParts<S>,
) -> Result<Formula<S>, NoMemory>
    requires { i ≤ 60000 }
    ensures formula { IfOk result (λ f. formula_of f ≡ equal_angles i other flat (parts_of parts.now)) }
    ensures small { IfOk result (λ f. IsSmall f) }
{
    let a = first_direction(alloc, other, flat, parts)?;
    let b = direction(alloc, flat, 1, parts)?;
    let c = direction(alloc, flat, 2, parts)?;
    let d = direction(alloc, flat, 3, parts)?;
    let formula = with_cosine(alloc, Formula::empty(alloc), i, a, b)?;
    let formula = with_cosine(alloc, formula, i + 3, c, d)?;
    let formula = formula.row(sub(alloc, Expr::Var(i + 2), Expr::Var(i + 5))?)?;
    Ok(formula)
}

pub(crate) fn same_orientation<const S: u32>(
    alloc: Global,
    parts: &ConstraintParts<S>,
) -> Result<Formula<S>, NoMemory>
    ensures formula { IfOk result (λ f. formula_of f ≡ same_orientation (parts_of parts.now)) }
    ensures small { IfOk result (λ f. IsSmall f) }
{
    let n = parts.normal_n(alloc, 0)?;
    let other = parts.normal_n(alloc, 1)?;
    let cross = n.cross(alloc, &other)?;
    let u = parts.normal_u(alloc, 0)?;
    let other_v = parts.normal_v(alloc, 1)?;
    let other_u = parts.normal_u(alloc, 1)?;
    let first = u.dot(alloc, &other_v)?;
    let second = u.dot(alloc, &other_u)?;
    let formula = Formula::empty(alloc).relation(Relation::WithoutGreatest(n, cross))?;
    let formula = formula.relation(Relation::Lesser(first, second))?;
    Ok(formula)
}

/// The span of the cosine of an angle that is at most a turn.
fn cosine_span<const S: u32>(degrees: Grid<S>) -> Span<S>
    requires scale { IsScale S }
    requires in_turn { unsigned_abs degrees ≤ 360 * 2 ^ S }
    ensures { result ≡ cosine_ends S degrees.entry }
{
    match cosine(degrees) {
        Ok(span) => span,
        Err(_) => Span::new(degrees, degrees),
    }
}

pub(crate) fn in_angle<const S: u32>(
    alloc: Global,
    i: u16,
    k: u16,
    other: bool,
    flat: bool,
    degrees: Grid<S>,
    parts: &ConstraintParts<S>,
) -> Result<Formula<S>, NoMemory>
    requires scale { IsScale S }
    requires in_turn { unsigned_abs degrees ≤ 360 * 2 ^ S }
    requires room { i ≤ 65000 }
    ensures formula { IfOk result (λ f. formula_of f ≡ in_angle i k other flat (cosine_ends S degrees.entry) (parts_of parts.now)) }
    ensures small { IfOk result (λ f. IsSmall f) }
{
    let a = first_direction(alloc, other, flat, parts)?;
    let b = direction(alloc, flat, 1, parts)?;
    let dot = a.dot(alloc, &b)?;
    let first = mul(alloc, Expr::Cos(k), Expr::Var(i))?;
    let both = mul(alloc, first, Expr::Var(i + 1))?;
    let formula = Formula::empty(alloc).auxiliary(Auxiliary::Length(a))?;
    let formula = formula.auxiliary(Auxiliary::Length(b))?;
    let formula = formula.cosine(cosine_span(degrees))?;
    let formula = formula.row(sub(alloc, dot, both)?)?;
    Ok(formula)
}

pub(crate) fn parallel<const S: u32>(
    alloc: Global,
    flat: bool,
    parts: &ConstraintParts<S>,
) -> Result<Formula<S>, NoMemory>
    ensures formula { IfOk result (λ f. formula_of f ≡ parallel flat (direction_at flat (parts_of parts.now) 0) (direction_at flat (parts_of parts.now) 1)) }
    ensures small { IfOk result (λ f. IsSmall f) }
{
    let a = direction(alloc, flat, 0, parts)?;
    let b = direction(alloc, flat, 1, parts)?;
    let formula = Formula::parallel(alloc, flat, a, &b)?;
    Ok(formula)
}

pub(crate) fn perpendicular<const S: u32>(
    alloc: Global,
    flat: bool,
    parts: &ConstraintParts<S>,
) -> Result<Formula<S>, NoMemory>
    ensures formula { IfOk result (λ f. formula_of f ≡ perpendicular (direction_at flat (parts_of parts.now) 0) (direction_at flat (parts_of parts.now) 1)) }
    ensures small { IfOk result (λ f. IsSmall f) }
{
    let a = direction(alloc, flat, 0, parts)?;
    let b = direction(alloc, flat, 1, parts)?;
    let formula = Formula::perpendicular(alloc, &a, &b)?;
    Ok(formula)
}
