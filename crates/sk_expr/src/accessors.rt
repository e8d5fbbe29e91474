#![tactic(auto, using(crate::specs::PartViews::part_facts), unfolding(crate::specs::Parts::point_at, crate::specs::Parts::line_at, crate::specs::Parts::end_at, crate::specs::Parts::line_vector, crate::specs::Parts::frame_at, crate::specs::Parts::axes_at, crate::specs::VectorViews::vector_of, crate::specs::PartViews::parts_of))]

ghost use Rattle.std.specs.Prelude.{◌≡◌, IfOk, map};
ghost use Rattle.sk_expr.specs.VectorViews.{vector_of};
ghost use Rattle.sk_expr.specs.PartViews.{v3_of, pair_of, line_of, parts_of};
ghost use Rattle.sk_expr.specs.Parts.{no_vector, vector_at, point_at, line_at, end_at, line_vector, frame_at, axes_at};

use crate::NoMemory;
use crate::building::copy;
use crate::expr::{Expr, Tree};
use crate::parts::{ConstraintParts, LineParts, V3};
use crate::vectors::Vector;
use sk_num::Grid;
use std::alloc::Global;

impl<const S: u32> Vector<S> {
    /// The zero vector with two components, which stands for what isn't there.
    pub fn zero() -> Vector<S>
        ensures { vector_of result ≡ no_vector }
    {
        Vector {
            x: Expr::Num(Grid::zero()),
            y: Expr::Num(Grid::zero()),
            z: None,
        }
    }

    /// The vector in a workplane with these components.
    pub fn flat(alloc: Global, components: &[Tree<S>; 2]) -> Result<Vector<S>, NoMemory>
        ensures { IfOk result (λ v. vector_of v ≡ pair_of components.now) }
    {
        let [u, v] = components;
        Ok(Vector {
            x: copy(alloc, u)?,
            y: copy(alloc, v)?,
            z: None,
        })
    }

    /// The vector in this place of a list, in space.
    pub fn among(alloc: Global, vectors: &[V3<S>], place: usize) -> Result<Vector<S>, NoMemory>
        ensures { IfOk result (λ v. vector_of v ≡ vector_at (map v3_of vectors.now) place) }
    {
        match vectors.get(place) {
            Some(v) => v.vector(alloc),
            None => Ok(Vector::zero()),
        }
    }

    /// The vector in this place of a list, in a workplane.
    pub fn flat_among(
        alloc: Global,
        vectors: &[[Tree<S>; 2]],
        place: usize,
    ) -> Result<Vector<S>, NoMemory>
        ensures { IfOk result (λ v. vector_of v ≡ vector_at (map pair_of vectors.now) place) }
    {
        match vectors.get(place) {
            Some(v) => Vector::flat(alloc, v),
            None => Ok(Vector::zero()),
        }
    }
}

impl<const S: u32> V3<S> {
    /// An equal vector in memory of its own.
    pub fn vector(&self, alloc: Global) -> Result<Vector<S>, NoMemory>
        ensures { IfOk result (λ v. vector_of v ≡ v3_of self.now) }
    {
        Ok(Vector {
            x: copy(alloc, &self.x)?,
            y: copy(alloc, &self.y)?,
            z: Some(copy(alloc, &self.z)?),
        })
    }
}

impl<const S: u32> LineParts<S> {
    /// Point 0 or 1, in the workplane or in space.
    fn end(&self, alloc: Global, flat: bool, i: usize) -> Result<Vector<S>, NoMemory>
        ensures { IfOk result (λ v. vector_of v ≡ end_at flat (line_of self.now) i) }
    {
        match &self.flat {
            Some(ends) if flat => Vector::flat_among(alloc, ends.as_slice(), i),
            None if flat => Ok(Vector::zero()),
            _ => Vector::among(alloc, self.ends.as_slice(), i),
        }
    }
}

/// The parts in their places, from 0; the zero vector for what isn't there.
impl<const S: u32> ConstraintParts<S> {
    /// A point, in the workplane or in space.
    pub fn point(&self, alloc: Global, flat: bool, i: usize) -> Result<Vector<S>, NoMemory>
        ensures { IfOk result (λ v. vector_of v ≡ point_at flat (parts_of self.now) i) }
    {
        if flat {
            Vector::flat_among(alloc, self.flat_points.as_slice(), i)
        } else {
            Vector::among(alloc, self.points.as_slice(), i)
        }
    }

    /// Point 0 or 1 of a line, in the workplane or in space.
    pub fn line_end(
        &self,
        alloc: Global,
        flat: bool,
        line: usize,
        i: usize,
    ) -> Result<Vector<S>, NoMemory>
        ensures { IfOk result (λ v. vector_of v ≡ end_at flat (line_at (parts_of self.now) line) i) }
    {
        match self.lines.as_slice().get(line) {
            Some(l) => l.end(alloc, flat, i),
            None => Ok(Vector::zero()),
        }
    }

    /// The vector of a line, point 0 less point 1, in the workplane or in space.
    pub fn line_vector(&self, alloc: Global, flat: bool, line: usize) -> Result<Vector<S>, NoMemory>
        ensures { IfOk result (λ v. vector_of v ≡ line_vector flat (line_at (parts_of self.now) line)) }
    {
        let start = self.line_end(alloc, flat, line, 0)?;
        let end = self.line_end(alloc, flat, line, 1)?;
        start.less(alloc, &end)
    }
}

/// Frames and axes in their places, from 0; the zero vector for what isn't there.
impl<const S: u32> ConstraintParts<S> {
    /// The origin of a workplane.
    pub fn frame_origin(&self, alloc: Global, i: usize) -> Result<Vector<S>, NoMemory>
        ensures { IfOk result (λ v. vector_of v ≡ (frame_at (parts_of self.now) i).origin) }
    {
        match self.frames.as_slice().get(i) {
            Some(frame) => frame.origin.vector(alloc),
            None => Ok(Vector::zero()),
        }
    }

    /// The axis U of a workplane.
    pub fn frame_u(&self, alloc: Global, i: usize) -> Result<Vector<S>, NoMemory>
        ensures { IfOk result (λ v. vector_of v ≡ (frame_at (parts_of self.now) i).u) }
    {
        match self.frames.as_slice().get(i) {
            Some(frame) => frame.u.vector(alloc),
            None => Ok(Vector::zero()),
        }
    }

    /// The axis V of a workplane.
    pub fn frame_v(&self, alloc: Global, i: usize) -> Result<Vector<S>, NoMemory>
        ensures { IfOk result (λ v. vector_of v ≡ (frame_at (parts_of self.now) i).v) }
    {
        match self.frames.as_slice().get(i) {
            Some(frame) => frame.v.vector(alloc),
            None => Ok(Vector::zero()),
        }
    }

    /// The normal of a workplane.
    pub fn frame_n(&self, alloc: Global, i: usize) -> Result<Vector<S>, NoMemory>
        ensures { IfOk result (λ v. vector_of v ≡ (frame_at (parts_of self.now) i).n) }
    {
        match self.frames.as_slice().get(i) {
            Some(frame) => frame.n.vector(alloc),
            None => Ok(Vector::zero()),
        }
    }

    /// The axis U of a normal.
    pub fn normal_u(&self, alloc: Global, i: usize) -> Result<Vector<S>, NoMemory>
        ensures { IfOk result (λ v. vector_of v ≡ (axes_at (parts_of self.now) i).u) }
    {
        match self.axes.as_slice().get(i) {
            Some(axes) => Vector::among(alloc, axes.as_slice(), 0),
            None => Ok(Vector::zero()),
        }
    }

    /// The axis V of a normal.
    pub fn normal_v(&self, alloc: Global, i: usize) -> Result<Vector<S>, NoMemory>
        ensures { IfOk result (λ v. vector_of v ≡ (axes_at (parts_of self.now) i).v) }
    {
        match self.axes.as_slice().get(i) {
            Some(axes) => Vector::among(alloc, axes.as_slice(), 1),
            None => Ok(Vector::zero()),
        }
    }

    /// The axis N of a normal.
    pub fn normal_n(&self, alloc: Global, i: usize) -> Result<Vector<S>, NoMemory>
        ensures { IfOk result (λ v. vector_of v ≡ (axes_at (parts_of self.now) i).n) }
    {
        match self.axes.as_slice().get(i) {
            Some(axes) => Vector::among(alloc, axes.as_slice(), 2),
            None => Ok(Vector::zero()),
        }
    }
}
