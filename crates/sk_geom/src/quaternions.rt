// The axes of quaternions, and their product.
#![tactic(auto, unfolding(crate::specs::Quaternions::quaternion_axes, crate::specs::Quaternions::quaternion_product))]

ghost use Rattle.std.specs.Prelude.{◌≡◌, ◌*◌, ◌^◌, IfOk, map, pos};
ghost use Rattle.sk_num.specs.Scale.{IsScale};
ghost use Rattle.sk_expr.specs.Poly.{times};
ghost use Rattle.sk_expr.specs.Trees.{poly_of};
ghost use Rattle.sk_expr.specs.PartViews.{v3_of, axes_of};
ghost use Rattle.sk_geom.specs.Quaternions.{quaternion_axes, quaternion_product, twice};

use crate::NoMemory;
use sk_expr::{Expr, Tree, V3, add, copy, mul, sub};
use sk_num::Grid;
use std::alloc::Global;

/// The number 2.
fn two<const S: u32>() -> Grid<S>
    requires { IsScale S }
    ensures { result ≡ pos (2 * 2 ^ S) }
{
    Grid::whole(2)
}

/// `a b`.
fn product<const S: u32>(alloc: Global, a: &Tree<S>, b: &Tree<S>) -> Result<Tree<S>, NoMemory>
    ensures { IfOk result (λ e. poly_of e ≡ times (poly_of a.now) (poly_of b.now)) }
{
    let (a, b) = (copy(alloc, a)?, copy(alloc, b)?);
    mul(alloc, a, b)
}

/// `2 a b`.
fn twice<const S: u32>(alloc: Global, a: &Tree<S>, b: &Tree<S>) -> Result<Tree<S>, NoMemory>
    requires { IsScale S }
    ensures { IfOk result (λ e. poly_of e ≡ twice S (poly_of a.now) (poly_of b.now)) }
{
    let a = mul(alloc, Expr::Num(two::<S>()), copy(alloc, a)?)?;
    mul(alloc, a, copy(alloc, b)?)
}

fn axis_u<const S: u32>(alloc: Global, q: &[Tree<S>; 4]) -> Result<V3<S>, NoMemory>
    requires { IsScale S }
    ensures { IfOk result (λ v. v3_of v ≡ (quaternion_axes S (map poly_of q.now)).u) }
{
    let [w, x, y, z] = q;
    let along = add(alloc, product(alloc, w, w)?, product(alloc, x, x)?)?;
    let along = sub(alloc, along, product(alloc, y, y)?)?;
    Ok(V3 {
        x: sub(alloc, along, product(alloc, z, z)?)?,
        y: add(alloc, twice(alloc, w, z)?, twice(alloc, x, y)?)?,
        z: sub(alloc, twice(alloc, x, z)?, twice(alloc, w, y)?)?,
    })
}

fn axis_v<const S: u32>(alloc: Global, q: &[Tree<S>; 4]) -> Result<V3<S>, NoMemory>
    requires { IsScale S }
    ensures { IfOk result (λ v. v3_of v ≡ (quaternion_axes S (map poly_of q.now)).v) }
{
    let [w, x, y, z] = q;
    let along = sub(alloc, product(alloc, w, w)?, product(alloc, x, x)?)?;
    let along = add(alloc, along, product(alloc, y, y)?)?;
    Ok(V3 {
        x: sub(alloc, twice(alloc, x, y)?, twice(alloc, w, z)?)?,
        y: sub(alloc, along, product(alloc, z, z)?)?,
        z: add(alloc, twice(alloc, w, x)?, twice(alloc, y, z)?)?,
    })
}

fn axis_n<const S: u32>(alloc: Global, q: &[Tree<S>; 4]) -> Result<V3<S>, NoMemory>
    requires { IsScale S }
    ensures { IfOk result (λ v. v3_of v ≡ (quaternion_axes S (map poly_of q.now)).n) }
{
    let [w, x, y, z] = q;
    let along = sub(alloc, product(alloc, w, w)?, product(alloc, x, x)?)?;
    let along = sub(alloc, along, product(alloc, y, y)?)?;
    Ok(V3 {
        x: add(alloc, twice(alloc, x, z)?, twice(alloc, w, y)?)?,
        y: sub(alloc, twice(alloc, y, z)?, twice(alloc, w, x)?)?,
        z: add(alloc, along, product(alloc, z, z)?)?,
    })
}

/// The axes U, V and N of the quaternion (w, x, y, z): where it turns the first, second and third axis of space, times its
/// squared length. SolveSpace's own formulas.
#[tactic(auto)]
pub fn quat_axes<const S: u32>(alloc: Global, q: &[Tree<S>; 4]) -> Result<[V3<S>; 3], NoMemory>
    requires { IsScale S }
    ensures { IfOk result (λ a. axes_of a ≡ quaternion_axes S (map poly_of q.now)) }
{
    let u = axis_u(alloc, q)?;
    let v = axis_v(alloc, q)?;
    let n = axis_n(alloc, q)?;
    Ok([u, v, n])
}

/// The product of two quaternions: it turns by `q`, then by `p`.
pub(crate) fn quat_product<const S: u32>(
    alloc: Global,
    p: &[Tree<S>; 4],
    q: &[Tree<S>; 4],
) -> Result<[Tree<S>; 4], NoMemory>
    ensures { IfOk result (λ r. map poly_of r ≡ quaternion_product (map poly_of p.now) (map poly_of q.now)) }
{
    let [w, x, y, z] = p;
    let [a, b, c, d] = q;
    let first = sub(alloc, product(alloc, w, a)?, product(alloc, x, b)?)?;
    let first = sub(alloc, first, product(alloc, y, c)?)?;
    let first = sub(alloc, first, product(alloc, z, d)?)?;
    let second = add(alloc, product(alloc, w, b)?, product(alloc, x, a)?)?;
    let second = add(alloc, second, product(alloc, y, d)?)?;
    let second = sub(alloc, second, product(alloc, z, c)?)?;
    let third = sub(alloc, product(alloc, w, c)?, product(alloc, x, d)?)?;
    let third = add(alloc, third, product(alloc, y, a)?)?;
    let third = add(alloc, third, product(alloc, z, b)?)?;
    let fourth = add(alloc, product(alloc, w, d)?, product(alloc, x, c)?)?;
    let fourth = sub(alloc, fourth, product(alloc, y, b)?)?;
    let fourth = add(alloc, fourth, product(alloc, z, a)?)?;
    Ok([first, second, third, fourth])
}
