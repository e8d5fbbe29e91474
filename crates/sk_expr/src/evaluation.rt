ghost use Rattle.std.specs.Prelude.{◌≡◌, ◌≤◌, ◌<◌, ◌^◌, IfOk, MatchResult, Some, None};
ghost use Rattle.sk_num.specs.Scale.{IsScale};
ghost use Rattle.sk_expr.specs.Poly.{degree, leaves};
ghost use Rattle.sk_expr.specs.Trees.{poly_of};
ghost use Rattle.sk_expr.specs.SpanValue.{value_by};
ghost use Rattle.sk_expr.specs.EvaluationLaws.{EnclosesPoly};

use crate::expr::Expr;
use sk_num::{Grid, Kernel, OfGrid, PastLimit};

fn value<const S: u32, K: Kernel<S>>(
    tree: &Expr<Grid<S>>,
    unknowns: &[K],
    cosines: &[K],
) -> Option<K>
    requires { IsScale S }
    ensures { result ≡ value_by K.of K.sum_of K.difference_of K.product_of unknowns.now cosines.now (poly_of tree.now) }
{
    match tree {
        Expr::Num(g) => Some(K::of_grid(*g)),
        Expr::Cos(place) => match cosines.get(*place as usize) {
            Some(cosine) => Some(cosine.same()),
            None => None,
        },
        Expr::Var(place) => match unknowns.get(*place as usize) {
            Some(unknown) => Some(unknown.same()),
            None => None,
        },
        Expr::Add(a, b) => {
            let a = value::<S, K>(a, unknowns, cosines)?;
            let b = value::<S, K>(b, unknowns, cosines)?;
            a.add(&b)
        }
        Expr::Sub(a, b) => {
            let a = value::<S, K>(a, unknowns, cosines)?;
            let b = value::<S, K>(b, unknowns, cosines)?;
            a.sub(&b)
        }
        Expr::Mul(a, b) => {
            let a = value::<S, K>(a, unknowns, cosines)?;
            let b = value::<S, K>(b, unknowns, cosines)?;
            a.mul(&b)
        }
    }
}

/// The value of a tree over any kind of number. PastLimit comes exactly where a number on the way
/// passes the limit; an unknown or cosine that isn't listed counts as one. The value encloses the
/// exact one, and over duals the exact slope, of whatever the listed numbers enclose.
pub fn eval<const S: u32, K: Kernel<S>>(
    tree: &Expr<Grid<S>>,
    unknowns: &[K],
    cosines: &[K],
) -> Result<K, PastLimit>
    requires { IsScale S }
    ensures value { MatchResult result
        (λ k. value_by K.of K.sum_of K.difference_of K.product_of unknowns.now cosines.now (poly_of tree.now) ≡ Some k)
        (λ _. value_by K.of K.sum_of K.difference_of K.product_of unknowns.now cosines.now (poly_of tree.now) ≡ None) }
    ensures encloses { IfOk result (λ k. EnclosesPoly S K.encloses unknowns.now cosines.now (poly_of tree.now) k) }
{
    match value::<S, K>(tree, unknowns, cosines) {
        Some(k) => Ok(k),
        None => Err(PastLimit),
    }
}

/// The degree: 1 for a leaf, the greater one for a sum or difference, the sum for a product.
pub fn degree<const S: u32>(tree: &Expr<Grid<S>>) -> u32
    requires { leaves (poly_of tree.now) < 2 ^ 31 }
    ensures value { result ≡ degree (poly_of tree.now) }
    ensures small { result ≤ leaves (poly_of tree.now) }
{
    match tree {
        Expr::Num(_) | Expr::Cos(_) | Expr::Var(_) => 1,
        Expr::Add(a, b) | Expr::Sub(a, b) => degree(a).max(degree(b)),
        Expr::Mul(a, b) => degree(a) + degree(b),
    }
}
