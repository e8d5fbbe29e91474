#![tactic(auto, unfolding(crate::specs::Vectors::vector_sum, crate::specs::Vectors::vector_difference, crate::specs::Vectors::scaled, crate::specs::Vectors::scaled_by, crate::specs::Vectors::negated, crate::specs::Vectors::dot, crate::specs::Vectors::squared, crate::specs::Vectors::minor, crate::specs::Vectors::cross, crate::specs::VectorViews::vector_of))]

ghost use Rattle.std.specs.Prelude.{◌≡◌, IfOk};
ghost use Rattle.sk_expr.specs.Poly.{number, plus, minus, times};
ghost use Rattle.sk_expr.specs.Trees.{poly_of};
ghost use Rattle.sk_expr.specs.PartViews.{v3_of};
ghost use Rattle.sk_expr.specs.VectorViews.{third_of, vector_of};
ghost use Rattle.sk_expr.specs.Vectors.{component, vector_sum, vector_difference, scaled, scaled_by, negated, dot, squared, minor, cross, flat_cross, side};

use crate::NoMemory;
use crate::building::{add, copy, mul, sub};
use crate::expr::{Expr, Tree};
use crate::parts::V3;
use sk_num::Grid;
use std::alloc::Global;

/// A vector with two components, in a workplane, or three, in space.
#[derive(Debug, Drop)]
pub struct Vector<const S: u32> {
    /// The first component.
    pub x: Tree<S>,
    /// The second component.
    pub y: Tree<S>,
    /// The third component, in space.
    pub z: Option<Tree<S>>,
}

/// `a + b`.
fn sum<const S: u32>(alloc: Global, a: &Tree<S>, b: &Tree<S>) -> Result<Tree<S>, NoMemory>
    ensures { IfOk result (λ e. poly_of e ≡ plus (poly_of a.now) (poly_of b.now)) }
{
    let (a, b) = (copy(alloc, a)?, copy(alloc, b)?);
    add(alloc, a, b)
}

/// `a - b`.
fn difference<const S: u32>(alloc: Global, a: &Tree<S>, b: &Tree<S>) -> Result<Tree<S>, NoMemory>
    ensures { IfOk result (λ e. poly_of e ≡ minus (poly_of a.now) (poly_of b.now)) }
{
    let (a, b) = (copy(alloc, a)?, copy(alloc, b)?);
    sub(alloc, a, b)
}

/// `a b`.
fn product<const S: u32>(alloc: Global, a: &Tree<S>, b: &Tree<S>) -> Result<Tree<S>, NoMemory>
    ensures { IfOk result (λ e. poly_of e ≡ times (poly_of a.now) (poly_of b.now)) }
{
    let (a, b) = (copy(alloc, a)?, copy(alloc, b)?);
    mul(alloc, a, b)
}

impl<const S: u32> V3<S> {
    /// `a + b`.
    pub fn plus(self, alloc: Global, b: V3<S>) -> Result<V3<S>, NoMemory>
        ensures { IfOk result (λ v. v3_of v ≡ vector_sum (v3_of self.entry) (v3_of b.entry)) }
    {
        Ok(V3 {
            x: add(alloc, self.x, b.x)?,
            y: add(alloc, self.y, b.y)?,
            z: add(alloc, self.z, b.z)?,
        })
    }

    /// `a - b`.
    pub fn less(self, alloc: Global, b: V3<S>) -> Result<V3<S>, NoMemory>
        ensures { IfOk result (λ v. v3_of v ≡ vector_difference (v3_of self.entry) (v3_of b.entry)) }
    {
        Ok(V3 {
            x: sub(alloc, self.x, b.x)?,
            y: sub(alloc, self.y, b.y)?,
            z: sub(alloc, self.z, b.z)?,
        })
    }

    /// `k a`.
    pub fn times(self, alloc: Global, k: &Tree<S>) -> Result<V3<S>, NoMemory>
        ensures { IfOk result (λ v. v3_of v ≡ scaled (poly_of k.now) (v3_of self.entry)) }
    {
        Ok(V3 {
            x: mul(alloc, copy(alloc, k)?, self.x)?,
            y: mul(alloc, copy(alloc, k)?, self.y)?,
            z: mul(alloc, copy(alloc, k)?, self.z)?,
        })
    }

    /// `a k`.
    pub fn times_number(self, alloc: Global, k: Grid<S>) -> Result<V3<S>, NoMemory>
        ensures { IfOk result (λ v. v3_of v ≡ scaled_by (v3_of self.entry) (number k.entry)) }
    {
        Ok(V3 {
            x: mul(alloc, self.x, Expr::Num(k))?,
            y: mul(alloc, self.y, Expr::Num(k))?,
            z: mul(alloc, self.z, Expr::Num(k))?,
        })
    }

    /// `a . b`.
    pub fn dot(&self, alloc: Global, b: &V3<S>) -> Result<Tree<S>, NoMemory>
        ensures { IfOk result (λ e. poly_of e ≡ dot (v3_of self.now) (v3_of b.now)) }
    {
        let x = product(alloc, &self.x, &b.x)?;
        let y = product(alloc, &self.y, &b.y)?;
        let flat = add(alloc, x, y)?;
        let z = product(alloc, &self.z, &b.z)?;
        add(alloc, flat, z)
    }

    /// The cross product of `a` and `b`.
    pub fn cross(&self, alloc: Global, b: &V3<S>) -> Result<V3<S>, NoMemory>
        ensures { IfOk result (λ v. v3_of v ≡ cross (v3_of self.now) (v3_of b.now)) }
    {
        Ok(V3 {
            x: minor(alloc, &self.y, &b.z, &self.z, &b.y)?,
            y: minor(alloc, &self.z, &b.x, &self.x, &b.z)?,
            z: minor(alloc, &self.x, &b.y, &self.y, &b.x)?,
        })
    }

    /// An equal vector in memory of its own.
    pub fn copy(&self, alloc: Global) -> Result<V3<S>, NoMemory>
        ensures { IfOk result (λ v. v3_of v ≡ v3_of self.now) }
    {
        Ok(V3 {
            x: copy(alloc, &self.x)?,
            y: copy(alloc, &self.y)?,
            z: copy(alloc, &self.z)?,
        })
    }
}

/// `a b - c d`.
fn minor<const S: u32>(
    alloc: Global,
    a: &Tree<S>,
    b: &Tree<S>,
    c: &Tree<S>,
    d: &Tree<S>,
) -> Result<Tree<S>, NoMemory>
    ensures { IfOk result (λ e. poly_of e ≡
        minus (times (poly_of a.now) (poly_of b.now)) (times (poly_of c.now) (poly_of d.now))) }
{
    let first = product(alloc, a, b)?;
    let second = product(alloc, c, d)?;
    sub(alloc, first, second)
}

impl<const S: u32> Vector<S> {
    /// `a + b`, with three components where both have three.
    pub fn plus(&self, alloc: Global, b: &Vector<S>) -> Result<Vector<S>, NoMemory>
        ensures { IfOk result (λ v. vector_of v ≡ vector_sum (vector_of self.now) (vector_of b.now)) }
    {
        let z = match (&self.z, &b.z) {
            (Some(z), Some(w)) => Some(sum(alloc, z, w)?),
            _ => None,
        };
        Ok(Vector {
            x: sum(alloc, &self.x, &b.x)?,
            y: sum(alloc, &self.y, &b.y)?,
            z,
        })
    }

    /// `a - b`, with three components where both have three.
    pub fn less(&self, alloc: Global, b: &Vector<S>) -> Result<Vector<S>, NoMemory>
        ensures { IfOk result (λ v. vector_of v ≡ vector_difference (vector_of self.now) (vector_of b.now)) }
    {
        let z = match (&self.z, &b.z) {
            (Some(z), Some(w)) => Some(difference(alloc, z, w)?),
            _ => None,
        };
        Ok(Vector {
            x: difference(alloc, &self.x, &b.x)?,
            y: difference(alloc, &self.y, &b.y)?,
            z,
        })
    }

    /// `k a`.
    pub fn times(&self, alloc: Global, k: &Tree<S>) -> Result<Vector<S>, NoMemory>
        ensures { IfOk result (λ v. vector_of v ≡ scaled (poly_of k.now) (vector_of self.now)) }
    {
        let z = match &self.z {
            Some(z) => Some(product(alloc, k, z)?),
            None => None,
        };
        Ok(Vector {
            x: product(alloc, k, &self.x)?,
            y: product(alloc, k, &self.y)?,
            z,
        })
    }

    /// `0 - a`.
    pub fn negated(&self, alloc: Global) -> Result<Vector<S>, NoMemory>
        ensures { IfOk result (λ v. vector_of v ≡ negated (vector_of self.now)) }
    {
        let zero = Expr::Num(Grid::zero());
        let z = match &self.z {
            Some(z) => Some(difference(alloc, &zero, z)?),
            None => None,
        };
        Ok(Vector {
            x: difference(alloc, &zero, &self.x)?,
            y: difference(alloc, &zero, &self.y)?,
            z,
        })
    }

    /// `a . b`.
    pub fn dot(&self, alloc: Global, b: &Vector<S>) -> Result<Tree<S>, NoMemory>
        ensures { IfOk result (λ e. poly_of e ≡ dot (vector_of self.now) (vector_of b.now)) }
    {
        let x = product(alloc, &self.x, &b.x)?;
        let y = product(alloc, &self.y, &b.y)?;
        let flat = add(alloc, x, y)?;
        match (&self.z, &b.z) {
            (Some(z), Some(w)) => {
                let across = product(alloc, z, w)?;
                add(alloc, flat, across)
            }
            _ => Ok(flat),
        }
    }

    /// `|a|^2`.
    pub fn squared(&self, alloc: Global) -> Result<Tree<S>, NoMemory>
        ensures { IfOk result (λ e. poly_of e ≡ squared (vector_of self.now)) }
    {
        self.dot(alloc, self)
    }

    /// `a.u b.v - a.v b.u`, of the first two components.
    pub fn flat_cross(&self, alloc: Global, b: &Vector<S>) -> Result<Tree<S>, NoMemory>
        ensures { IfOk result (λ e. poly_of e ≡ flat_cross (vector_of self.now) (vector_of b.now)) }
    {
        minor(alloc, &self.x, &b.y, &self.y, &b.x)
    }

    /// `a.v b.u - a.u b.v`, of the first two components.
    pub fn side(&self, alloc: Global, b: &Vector<S>) -> Result<Tree<S>, NoMemory>
        ensures { IfOk result (λ e. poly_of e ≡ side (vector_of self.now) (vector_of b.now)) }
    {
        minor(alloc, &self.y, &b.x, &self.x, &b.y)
    }

    /// The third component, 0 in a workplane.
    fn third(&self, alloc: Global) -> Result<Tree<S>, NoMemory>
        ensures { IfOk result (λ e. poly_of e ≡ component (vector_of self.now) 2) }
    {
        match &self.z {
            Some(z) => Ok(copy(alloc, z)?),
            None => Ok(Expr::Num(Grid::zero())),
        }
    }

    /// The cross product of `a` and `b`, in space.
    pub fn cross(&self, alloc: Global, b: &Vector<S>) -> Result<Vector<S>, NoMemory>
        ensures { IfOk result (λ v. vector_of v ≡ cross (vector_of self.now) (vector_of b.now)) }
    {
        let (z, w) = (self.third(alloc)?, b.third(alloc)?);
        Ok(Vector {
            x: minor(alloc, &self.y, &w, &z, &b.y)?,
            y: minor(alloc, &z, &b.x, &self.x, &w)?,
            z: Some(minor(alloc, &self.x, &b.y, &self.y, &b.x)?),
        })
    }
}
