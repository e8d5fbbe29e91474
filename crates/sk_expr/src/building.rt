ghost use Rattle.std.specs.Prelude.{◌≡◌, IfOk};
ghost use Rattle.sk_expr.specs.Poly.{number, plus, minus, times};
ghost use Rattle.sk_expr.specs.Trees.{poly_of};

use crate::NoMemory;
use crate::expr::Expr;
use sk_num::Grid;
use std::alloc::Global;

/// The sum of two trees.
pub fn add<const S: u32>(
    alloc: Global,
    a: Expr<Grid<S>>,
    b: Expr<Grid<S>>,
) -> Result<Expr<Grid<S>>, NoMemory>
    ensures { IfOk result (λ e. poly_of e ≡ plus (poly_of a.entry) (poly_of b.entry)) }
{
    let a = Box::new(alloc, a)?;
    let b = Box::new(alloc, b)?;
    Ok(Expr::Add(a, b))
}

/// The difference of two trees.
pub fn sub<const S: u32>(
    alloc: Global,
    a: Expr<Grid<S>>,
    b: Expr<Grid<S>>,
) -> Result<Expr<Grid<S>>, NoMemory>
    ensures { IfOk result (λ e. poly_of e ≡ minus (poly_of a.entry) (poly_of b.entry)) }
{
    let a = Box::new(alloc, a)?;
    let b = Box::new(alloc, b)?;
    Ok(Expr::Sub(a, b))
}

/// The product of two trees.
pub fn mul<const S: u32>(
    alloc: Global,
    a: Expr<Grid<S>>,
    b: Expr<Grid<S>>,
) -> Result<Expr<Grid<S>>, NoMemory>
    ensures { IfOk result (λ e. poly_of e ≡ times (poly_of a.entry) (poly_of b.entry)) }
{
    let a = Box::new(alloc, a)?;
    let b = Box::new(alloc, b)?;
    Ok(Expr::Mul(a, b))
}

/// A number times itself, as a tree.
pub fn squared_number<const S: u32>(
    alloc: Global,
    value: Grid<S>,
) -> Result<Expr<Grid<S>>, NoMemory>
    ensures { IfOk result (λ e. poly_of e ≡ times (number value.entry) (number value.entry)) }
{
    mul(alloc, Expr::Num(value), Expr::Num(value))
}

/// An equal tree in memory of its own.
pub fn copy<const S: u32>(alloc: Global, e: &Expr<Grid<S>>) -> Result<Expr<Grid<S>>, NoMemory>
    ensures { IfOk result (λ f. poly_of f ≡ poly_of e.now) }
{
    match e {
        Expr::Num(g) => Ok(Expr::Num(*g)),
        Expr::Cos(place) => Ok(Expr::Cos(*place)),
        Expr::Var(place) => Ok(Expr::Var(*place)),
        Expr::Add(a, b) => {
            let a = copy(alloc, a)?;
            let b = copy(alloc, b)?;
            add(alloc, a, b)
        }
        Expr::Sub(a, b) => {
            let a = copy(alloc, a)?;
            let b = copy(alloc, b)?;
            sub(alloc, a, b)
        }
        Expr::Mul(a, b) => {
            let a = copy(alloc, a)?;
            let b = copy(alloc, b)?;
            mul(alloc, a, b)
        }
    }
}
