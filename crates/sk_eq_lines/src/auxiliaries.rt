#![tactic(auto, unfolding(crate::specs::LineRows::foot, crate::specs::LineRows::from_foot, crate::specs::LineRows::side_of, crate::specs::LineRows::height, crate::specs::LineRows::cosine_of))]

ghost use Rattle.std.specs.Prelude.{◌≡◌, ◌<◌, ◌≤◌, ◌+◌, length, IfOk};
ghost use Rattle.sk_expr.specs.Poly.{unknown};
ghost use Rattle.sk_expr.specs.Trees.{poly_of};
ghost use Rattle.sk_expr.specs.VectorViews.{vector_of};
ghost use Rattle.sk_expr.specs.PartViews.{parts_of};
ghost use Rattle.sk_expr.specs.FormulaViews.{formula_of, auxiliary_of};
ghost use Rattle.sk_expr.specs.Formula.{then_auxiliaries};
ghost use Rattle.sk_expr.specs.Parts.{line_at};
ghost use Rattle.sk_eq_lines.specs.LineRows.{foot, from_foot, side_of, height, cosine_of};

use crate::NoMemory;
use sk_expr::{Auxiliary, ConstraintParts, Expr, Formula, Tree, Vector, mul};
use std::alloc::Global;

/// Where the foot of a point on a line lies, in space: 0 at the line's first point, and -1 at its second.
pub(crate) fn foot<const S: u32>(
    alloc: Global,
    p: &Vector<S>,
    line: usize,
    parts: &ConstraintParts<S>,
) -> Result<Auxiliary<S>, NoMemory>
    ensures { IfOk result (λ x. auxiliary_of {s = S} x ≡ foot (vector_of p.now) (line_at (parts_of parts.now) line)) }
{
    let along = parts.line_vector(alloc, false, line)?;
    let start = parts.line_end(alloc, false, line, 0)?;
    let from_start = p.less(alloc, &start)?;
    let n = from_start.dot(alloc, &along)?;
    let d = along.squared(alloc)?;
    Ok(Auxiliary::Quotient(n, d))
}

/// From its foot to a point, where the foot's place is the unknown `t`.
pub(crate) fn from_foot<const S: u32>(
    alloc: Global,
    t: u16,
    p: &Vector<S>,
    line: usize,
    parts: &ConstraintParts<S>,
) -> Result<Vector<S>, NoMemory>
    ensures { IfOk result (λ v. vector_of v ≡ from_foot (unknown t) (vector_of p.now) (line_at (parts_of parts.now) line)) }
{
    let along = parts.line_vector(alloc, false, line)?;
    let start = parts.line_end(alloc, false, line, 0)?;
    let from_start = p.less(alloc, &start)?;
    let place = Expr::Var(t);
    let to_foot = along.times(alloc, &place)?;
    let from_foot = from_start.less(alloc, &to_foot)?;
    Ok(from_foot)
}

/// How far a point lies beside a line in the workplane, times the line's length.
pub(crate) fn side_of<const S: u32>(
    alloc: Global,
    p: &Vector<S>,
    line: usize,
    parts: &ConstraintParts<S>,
) -> Result<Tree<S>, NoMemory>
    ensures { IfOk result (λ e. poly_of e ≡ side_of (vector_of p.now) (line_at (parts_of parts.now) line)) }
{
    let along = parts.line_vector(alloc, true, line)?;
    let start = parts.line_end(alloc, true, line, 0)?;
    let to_start = start.less(alloc, p)?;
    let side = along.side(alloc, &to_start)?;
    Ok(side)
}

/// Adds the length of a line, which is the unknown `i`, and how far a point lies from it, in the workplane.
pub(crate) fn with_height<const S: u32>(
    alloc: Global,
    formula: Formula<S>,
    i: u16,
    p: &Vector<S>,
    line: usize,
    parts: &ConstraintParts<S>,
) -> Result<Formula<S>, NoMemory>
    ensures formula { IfOk result (λ f. formula_of f ≡ then_auxiliaries (formula_of formula.entry) (height i (vector_of p.now) (line_at (parts_of parts.now) line))) }
    ensures sizes { IfOk result (λ f. (length f.auxiliaries ≡ length formula.entry.auxiliaries + 2)
        × (length f.cosines ≡ length formula.entry.cosines) × (length f.relations ≡ length formula.entry.relations)) }
{
    let along = parts.line_vector(alloc, true, line)?;
    let n = side_of(alloc, p, line, parts)?;
    let formula = formula.auxiliary(Auxiliary::Length(along))?;
    let formula = formula.auxiliary(Auxiliary::Quotient(n, Expr::Var(i)))?;
    Ok(formula)
}

/// Adds the lengths of two vectors, which are the unknowns `i` and `i + 1`, and the cosine of their angle.
pub(crate) fn with_cosine<const S: u32>(
    alloc: Global,
    formula: Formula<S>,
    i: u16,
    a: Vector<S>,
    b: Vector<S>,
) -> Result<Formula<S>, NoMemory>
    requires { i ≤ 65000 }
    ensures formula { IfOk result (λ f. formula_of f ≡ then_auxiliaries (formula_of formula.entry) (cosine_of i (vector_of a.entry) (vector_of b.entry))) }
    ensures sizes { IfOk result (λ f. (length f.auxiliaries ≡ length formula.entry.auxiliaries + 3)
        × (length f.cosines ≡ length formula.entry.cosines) × (length f.relations ≡ length formula.entry.relations)) }
{
    let n = a.dot(alloc, &b)?;
    let d = mul(alloc, Expr::Var(i), Expr::Var(i + 1))?;
    let formula = formula.auxiliary(Auxiliary::Length(a))?;
    let formula = formula.auxiliary(Auxiliary::Length(b))?;
    let formula = formula.auxiliary(Auxiliary::Quotient(n, d))?;
    Ok(formula)
}
