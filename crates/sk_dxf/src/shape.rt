// What is drawn of an entity.

use sk_num::Grid;

/// What is drawn, by coordinates in the plane and the height over it.
#[derive(Clone, Copy, Debug)]
pub(crate) enum Shape<const S: u32> {
    /// A line by its two ends.
    Line([Grid<S>; 3], [Grid<S>; 3]),
    /// A point.
    Point([Grid<S>; 3]),
    /// A circle by its centre and radius.
    Circle([Grid<S>; 3], Grid<S>),
    /// An arc by its start, its end and its bulge.
    Arc([Grid<S>; 3], [Grid<S>; 3], Grid<S>),
    /// A cubic by its control points.
    Cubic([[Grid<S>; 3]; 4]),
}

/// Why an entity isn't drawn.
#[derive(Clone, Copy, Debug, PartialEq, Eq)]
pub(crate) enum LeftOut {
    /// It is for construction alone.
    Construction,
    /// A point that a curve or a workplane names, or a copy of a point.
    NotDatum,
    /// A normal, a distance, a workplane or a face.
    NoCurve,
    /// A reading passes the limit.
    PastLimit,
    /// The normal of a circle or an arc doesn't stand straight on the plane.
    Tilted,
    /// An arc without a radius, one that sweeps next to no angle, or one of whose bulge a number passes the limit.
    NoBulge,
    /// A cubic with more than four control points.
    ExtraPoints,
    /// A cubic whose control points have different heights over the plane.
    NotLevel,
}
