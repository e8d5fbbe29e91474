ghost use Rattle.std.specs.Prelude.{◌≡◌, ◌==◌, ◌^◌, pos, slice_get, option_map, IfOk, IfErr, Some, None, if◌then◌else◌};
ghost use Rattle.sk_num.specs.Scale.{IsScale};
ghost use Rattle.sk_num.specs.Each.{each_some};
ghost use Rattle.sk_num.specs.Ends.{point};
ghost use Rattle.sk_expr.specs.Trees.{poly_of};
ghost use Rattle.sk_expr.specs.SpanValue.{dual_of, dual_value, span_slope};
ghost use Rattle.sk_expr.specs.Enclosing.{EnclosesSlopes};
ghost use Rattle.sk_expr.specs.declared.fault.VisitFault.TheVariants.{PastLimit};

use crate::dual::Dual;
use crate::expr::Expr;
use crate::fault::VisitFault;
use sk_num::{Grid, Kernel, OfGrid, Span};
use std::alloc::Global;

/// The slope of an unknown in a column: 1 in its own, 0 elsewhere.
fn unit<const S: u32>(place: u16, column: u16) -> Span<S>
    requires { IsScale S }
    ensures { result ≡ (if place == column then point (pos (2 ^ S)) else point (pos 0)) }
{
    if place == column {
        Span::new(Grid::one(), Grid::one())
    } else {
        Span::new(Grid::zero(), Grid::zero())
    }
}

fn unknown_dual<const S: u32>(unknowns: &[Span<S>], place: u16, column: u16) -> Option<Dual<S>>
    requires { IsScale S }
    ensures { result ≡ option_map (λ x. dual_of x (if place == column then point (pos (2 ^ S)) else point (pos 0))) (slice_get unknowns.now place) }
{
    match unknowns.get(place as usize) {
        Some(x) => Some(Dual::new(*x, unit(place, column))),
        None => None,
    }
}

/// The value of a tree with its slope in a column, None past the limit.
fn dual_value<const S: u32>(
    tree: &Expr<Grid<S>>,
    unknowns: &[Span<S>],
    cosines: &[Span<S>],
    column: u16,
) -> Option<Dual<S>>
    requires { IsScale S }
    ensures { result ≡ dual_value S unknowns.now cosines.now column (poly_of tree.now) }
{
    match tree {
        Expr::Num(g) => Some(Dual::of_grid(*g)),
        Expr::Cos(place) => match cosines.get(*place as usize) {
            Some(x) => Some(Dual::constant(*x)),
            None => None,
        },
        Expr::Var(place) => unknown_dual(unknowns, *place, column),
        Expr::Add(a, b) => {
            let a = dual_value(a, unknowns, cosines, column)?;
            let b = dual_value(b, unknowns, cosines, column)?;
            a.add(&b)
        }
        Expr::Sub(a, b) => {
            let a = dual_value(a, unknowns, cosines, column)?;
            let b = dual_value(b, unknowns, cosines, column)?;
            a.sub(&b)
        }
        Expr::Mul(a, b) => {
            let a = dual_value(a, unknowns, cosines, column)?;
            let b = dual_value(b, unknowns, cosines, column)?;
            a.mul(&b)
        }
    }
}

/// The slope of a tree in a column, None past the limit.
#[tactic(auto, unfolding(crate::specs::SpanValue::span_slope))]
fn slope_in<const S: u32>(
    tree: &Expr<Grid<S>>,
    unknowns: &[Span<S>],
    cosines: &[Span<S>],
    column: u16,
) -> Option<Span<S>>
    requires { IsScale S }
    ensures { result ≡ span_slope S unknowns.now cosines.now column (poly_of tree.now) }
{
    let dual = dual_value(tree, unknowns, cosines, column)?;
    Some(dual.slope())
}

fn all_slopes<const S: u32>(
    alloc: Global,
    tree: &Expr<Grid<S>>,
    unknowns: &[Span<S>],
    cosines: &[Span<S>],
    columns: &[u16],
) -> Result<Vec<Span<S>>, VisitFault>
    requires { IsScale S }
    ensures value { IfOk result (λ v.
        each_some (λ c. span_slope S unknowns.now cosines.now c (poly_of tree.now)) columns.now ≡ Some v.items) }
    ensures past { IfErr result (λ e. e ≡ PastLimit →
        each_some (λ c. span_slope S unknowns.now cosines.now c (poly_of tree.now)) columns.now ≡ None) }
{
    let mut slopes = Vec::with_capacity(alloc, columns.len())?;
    for column in columns {
        match slope_in(tree, unknowns, cosines, *column) {
            Some(slope) => slopes.push(slope)?,
            None => return Err(VisitFault::PastLimit),
        }
    }
    Ok(slopes)
}

/// The slopes of a tree in the columns, over spans of the unknowns and cosines: over duals, the slope where the unknown of
/// the column has the slope 1, and all else 0. PastLimit comes exactly where one of these evaluations passes the limit; an
/// unknown or cosine that isn't listed counts as past it. They enclose the exact slopes between any two points of the box.
pub fn slopes<const S: u32>(
    alloc: Global,
    tree: &Expr<Grid<S>>,
    unknowns: &[Span<S>],
    cosines: &[Span<S>],
    columns: &[u16],
) -> Result<Vec<Span<S>>, VisitFault>
    requires { IsScale S }
    ensures value { IfOk result (λ v.
        each_some (λ c. span_slope S unknowns.now cosines.now c (poly_of tree.now)) columns.now ≡ Some v.items) }
    ensures past { IfErr result (λ e. e ≡ PastLimit →
        each_some (λ c. span_slope S unknowns.now cosines.now c (poly_of tree.now)) columns.now ≡ None) }
    ensures encloses { IfOk result (λ v. EnclosesSlopes S unknowns.now cosines.now (poly_of tree.now) columns.now v.items) }
{
    all_slopes(alloc, tree, unknowns, cosines, columns)
}
