ghost use Rattle.std.specs.Prelude.{◌≡◌, ◌<◌, ◌≤◌, IfOk};
ghost use Rattle.sk_expr.specs.VectorViews.{vector_of};
ghost use Rattle.sk_expr.specs.PartViews.{parts_of};
ghost use Rattle.sk_expr.specs.Parts.{axes_at};
ghost use Rattle.sk_eq_lines.specs.LineRows.{normal_vector, normals_before, is_normal_at, direction_at, first_direction};

use crate::NoMemory;
use sk_expr::{ConstraintParts, Vector};
use std::alloc::Global;

/// The vector of a normal: its axis N, or the components of that in the workplane.
#[tactic(auto, unfolding(crate::specs::LineRows::normal_vector, sk_expr::specs::VectorViews::vector_of))]
fn normal_vector<const S: u32>(
    alloc: Global,
    flat: bool,
    i: usize,
    parts: &ConstraintParts<S>,
) -> Result<Vector<S>, NoMemory>
    ensures { IfOk result (λ v. vector_of v ≡ normal_vector flat (parts_of parts.now) (axes_at (parts_of parts.now) i)) }
{
    let n = parts.normal_n(alloc, i)?;
    if !flat {
        return Ok(n);
    }
    let u = parts.frame_u(alloc, 0)?;
    let v = parts.frame_v(alloc, 0)?;
    let along_u = n.dot(alloc, &u)?;
    let along_v = n.dot(alloc, &v)?;
    Ok(Vector {
        x: along_u,
        y: along_v,
        z: None,
    })
}

/// Whether the entity in this place is a normal.
#[tactic(auto, unfolding(crate::specs::LineRows::is_normal_at, sk_expr::specs::PartViews::parts_of))]
fn is_normal<const S: u32>(i: usize, parts: &ConstraintParts<S>) -> bool
    requires { i < 4 }
    ensures { result ≡ is_normal_at i (parts_of parts.now) }
{
    parts.is_normal[i]
}

/// How many of the entities before this one are normals.
#[tactic(auto, unfolding(crate::specs::LineRows::normals_before, sk_expr::specs::PartViews::parts_of))]
fn normals_before<const S: u32>(i: usize, parts: &ConstraintParts<S>) -> usize
    requires { i < 4 }
    ensures value { result ≡ normals_before i (parts_of parts.now) }
    ensures few { result ≤ i }
{
    parts.is_normal[..i].iter().filter(|n| **n).count()
}

/// The vector of entity A, B, C or D, a line or a normal.
#[tactic(auto, unfolding(crate::specs::LineRows::direction_at))]
pub(crate) fn direction<const S: u32>(
    alloc: Global,
    flat: bool,
    i: usize,
    parts: &ConstraintParts<S>,
) -> Result<Vector<S>, NoMemory>
    requires { i < 4 }
    ensures { IfOk result (λ v. vector_of v ≡ direction_at flat (parts_of parts.now) i) }
{
    let before = normals_before(i, parts);
    if is_normal(i, parts) {
        let normal = normal_vector(alloc, flat, before, parts)?;
        Ok(normal)
    } else {
        let line = parts.line_vector(alloc, flat, i - before)?;
        Ok(line)
    }
}

/// The vector of entity A, the other way round where the other angle is meant.
#[tactic(auto, unfolding(crate::specs::LineRows::first_direction))]
pub(crate) fn first_direction<const S: u32>(
    alloc: Global,
    other: bool,
    flat: bool,
    parts: &ConstraintParts<S>,
) -> Result<Vector<S>, NoMemory>
    ensures { IfOk result (λ v. vector_of v ≡ first_direction other flat (parts_of parts.now)) }
{
    let a = direction(alloc, flat, 0, parts)?;
    if other {
        let turned = a.negated(alloc)?;
        return Ok(turned);
    }
    Ok(a)
}
