#![tactic(auto, unfolding(crate::specs::LineRows::equal_lengths, crate::specs::LineRows::length_ratio, crate::specs::LineRows::longer_by))]

ghost use Rattle.std.specs.Prelude.{◌≡◌, ◌≤◌, IfOk};
ghost use Rattle.sk_expr.specs.PartViews.{parts_of};
ghost use Rattle.sk_expr.specs.FormulaViews.{formula_of, IsSmall};
ghost use Rattle.sk_eq_lines.specs.LineRows.{equal_lengths, length_ratio, longer_by};

use crate::NoMemory;
use sk_expr::{Auxiliary, ConstraintParts, Expr, Formula, mul, squared_number, sub};
use sk_num::Grid;
use std::alloc::Global;

pub(crate) fn equal_lengths<const S: u32>(
    alloc: Global,
    flat: bool,
    parts: &ConstraintParts<S>,
) -> Result<Formula<S>, NoMemory>
    ensures formula { IfOk result (λ f. formula_of f ≡ equal_lengths flat (parts_of parts.now)) }
    ensures small { IfOk result (λ f. IsSmall f) }
{
    let first = parts.line_vector(alloc, flat, 0)?.squared(alloc)?;
    let second = parts.line_vector(alloc, flat, 1)?.squared(alloc)?;
    let formula = Formula::empty(alloc).row(sub(alloc, first, second)?)?;
    Ok(formula)
}

pub(crate) fn length_ratio<const S: u32>(
    alloc: Global,
    flat: bool,
    value: Grid<S>,
    parts: &ConstraintParts<S>,
) -> Result<Formula<S>, NoMemory>
    ensures formula { IfOk result (λ f. formula_of f ≡ length_ratio flat value.entry (parts_of parts.now)) }
    ensures small { IfOk result (λ f. IsSmall f) }
{
    let first = parts.line_vector(alloc, flat, 0)?.squared(alloc)?;
    let second = parts.line_vector(alloc, flat, 1)?.squared(alloc)?;
    let ratio = squared_number(alloc, value)?;
    let scaled = mul(alloc, ratio, second)?;
    let formula = Formula::empty(alloc).row(sub(alloc, first, scaled)?)?;
    Ok(formula)
}

pub(crate) fn longer_by<const S: u32>(
    alloc: Global,
    i: u16,
    flat: bool,
    value: Grid<S>,
    parts: &ConstraintParts<S>,
) -> Result<Formula<S>, NoMemory>
    requires { i ≤ 65000 }
    ensures formula { IfOk result (λ f. formula_of f ≡ longer_by i flat value.entry (parts_of parts.now)) }
    ensures small { IfOk result (λ f. IsSmall f) }
{
    let first = parts.line_vector(alloc, flat, 0)?;
    let second = parts.line_vector(alloc, flat, 1)?;
    let difference = sub(alloc, Expr::Var(i), Expr::Var(i + 1))?;
    let formula = Formula::empty(alloc).auxiliary(Auxiliary::Length(first))?;
    let formula = formula.auxiliary(Auxiliary::Length(second))?;
    let formula = formula.row(sub(alloc, difference, Expr::Num(value))?)?;
    Ok(formula)
}
