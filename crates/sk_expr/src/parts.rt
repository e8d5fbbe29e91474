use crate::expr::Expr;
use sk_num::{Grid, Items};

/// A vector in space.
#[derive(Debug, Drop)]
pub struct V3<const S: u32> {
    /// The component along the first axis.
    pub x: Expr<Grid<S>>,
    /// The component along the second axis.
    pub y: Expr<Grid<S>>,
    /// The component along the third axis.
    pub z: Expr<Grid<S>>,
}

/// A workplane: its origin, its two axes, and the normal across.
#[derive(Debug, Drop)]
pub struct Frame<const S: u32> {
    /// The origin.
    pub origin: V3<S>,
    /// The first axis.
    pub u: V3<S>,
    /// The second axis.
    pub v: V3<S>,
    /// The normal.
    pub n: V3<S>,
}

/// A line of a constraint.
#[derive(Debug, Drop)]
pub struct LineParts<const S: u32> {
    /// Its points 0 and 1 in space.
    pub ends: [V3<S>; 2],
    /// The same in the constraint's workplane, None where it has none.
    pub flat: Option<[[Expr<Grid<S>>; 2]; 2]>,
}

/// A circle or an arc of a constraint.
#[derive(Debug, Drop)]
pub struct RadiusParts<const S: u32> {
    /// Its centre in space.
    pub centre: V3<S>,
    /// The start and the end of an arc; none of a circle.
    pub ends: Items<V3<S>>,
    /// The centre in a plane: in the constraint's workplane where two curves are to touch, else in the workplane of the
    /// curve's normal, where that is a workplane's own normal.
    pub flat_centre: Option<[Expr<Grid<S>>; 2]>,
    /// The ends in that plane.
    pub flat_ends: Items<[Expr<Grid<S>>; 2]>,
    /// The distance of a circle; None of an arc.
    pub distance: Option<Expr<Grid<S>>>,
    /// The axes U and V of a normal of any other kind.
    pub axes: Option<[V3<S>; 2]>,
}

/// What a constraint's rows are made of: its needed parts, each kind in its order. What isn't there is None, false or an
/// empty list.
#[derive(Debug, Drop)]
pub struct ConstraintParts<const S: u32> {
    /// The points in space.
    pub points: Items<V3<S>>,
    /// The same in the constraint's workplane; of a radius through a point the point in the workplane of the curve's normal.
    pub flat_points: Items<[Expr<Grid<S>>; 2]>,
    /// The lines.
    pub lines: Items<LineParts<S>>,
    /// The frames of the needed workplanes, then that of the constraint's.
    pub frames: Items<Frame<S>>,
    /// The axes U, V and N of the needed normals.
    pub axes: Items<[V3<S>; 3]>,
    /// The circles and arcs.
    pub radii: Items<RadiusParts<S>>,
    /// Whether entity A, B, C and D is a normal.
    pub is_normal: [bool; 4],
}
