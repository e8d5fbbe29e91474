// Which kinds of things the product takes.

ghost use Rattle.std.specs.Prelude.{◌≡◌, ◌<◌, ◌^◌, unsigned_abs};
ghost use Rattle.sk_types.specs.Standings.{group_standing, request_standing, constraint_standing, is_point_constraint as of_points, is_size_constraint as of_sizes, is_direction_constraint as of_directions, is_symmetry_constraint as of_symmetries, is_accepted_constraint as accepted_constraint};

use crate::{constraint_kind as kind, group_kind, request_kind};

/// Whether things of a number are taken.
#[derive(Clone, Copy, Debug, PartialEq, Eq)]
pub enum Standing {
    /// They are taken.
    Accepted,
    /// SolveSpace has them, and the product leaves them out by name.
    LeftOut,
    /// No such number is known.
    Unknown,
}

/// Whether groups of this number are taken.
#[tactic(auto, unfolding(crate::specs::Standings::group_standing))]
pub fn group_standing(n: i32) -> Standing
    ensures { result ≡ group_standing n }
{
    let Ok(number) = u16::try_from(n) else {
        return Standing::Unknown;
    };
    match number {
        group_kind::DRAWING_IN_SPACE | group_kind::DRAWING_IN_WORKPLANE => Standing::Accepted,
        group_kind::EXTRUSION | group_kind::TRANSLATION | group_kind::LINKED_PART =>
            Standing::Accepted,
        group_kind::LATHE | group_kind::REVOLUTION | group_kind::HELIX | group_kind::ROTATION =>
            Standing::LeftOut,
        _ => Standing::Unknown,
    }
}

/// Whether requests of this number are taken; one that is has a number below 2^16.
#[tactic(auto, unfolding(crate::specs::Standings::request_standing))]
pub fn request_standing(n: i32) -> Standing
    ensures standing { result ≡ request_standing n }
    ensures small { result ≡ Standing.Accepted → unsigned_abs n < 2 ^ 16 }
{
    let Ok(number) = u16::try_from(n) else {
        return Standing::Unknown;
    };
    match number {
        request_kind::WORKPLANE | request_kind::DATUM_POINT | request_kind::LINE =>
            Standing::Accepted,
        request_kind::CUBIC | request_kind::CIRCLE | request_kind::ARC => Standing::Accepted,
        request_kind::CLOSED_CUBIC | request_kind::FONT_TEXT | request_kind::IMAGE =>
            Standing::LeftOut,
        _ => Standing::Unknown,
    }
}

#[tactic(auto, unfolding(crate::specs::Standings::is_point_constraint))]
fn is_point_constraint(number: u16) -> bool
    ensures { result ≡ of_points number }
{
    matches!(
        number,
        kind::POINTS_COINCIDENT
            | kind::POINT_POINT_DISTANCE
            | kind::POINT_PLANE_DISTANCE
            | kind::POINT_LINE_DISTANCE
            | kind::POINT_FACE_DISTANCE
            | kind::PROJECTED_DISTANCE
            | kind::POINT_IN_PLANE
            | kind::POINT_ON_LINE
            | kind::POINT_ON_FACE
            | kind::POINT_ON_CIRCLE
            | kind::WHERE_DRAGGED
    )
}

#[tactic(auto, unfolding(crate::specs::Standings::is_size_constraint))]
fn is_size_constraint(number: u16) -> bool
    ensures { result ≡ of_sizes number }
{
    matches!(
        number,
        kind::EQUAL_LENGTHS
            | kind::LENGTH_RATIO
            | kind::EQUAL_LENGTH_AND_DISTANCE
            | kind::EQUAL_DISTANCES
            | kind::EQUAL_ANGLES
            | kind::LENGTH_DIFFERENCE
            | kind::DIAMETER
            | kind::ANGLE
            | kind::EQUAL_RADII
    )
}

#[tactic(auto, unfolding(crate::specs::Standings::is_direction_constraint))]
fn is_direction_constraint(number: u16) -> bool
    ensures { result ≡ of_directions number }
{
    matches!(
        number,
        kind::HORIZONTAL
            | kind::VERTICAL
            | kind::SAME_ORIENTATION
            | kind::PARALLEL
            | kind::PERPENDICULAR
            | kind::ARC_LINE_TANGENT
            | kind::CUBIC_LINE_TANGENT
            | kind::CURVE_CURVE_TANGENT
    )
}

#[tactic(auto, unfolding(crate::specs::Standings::is_symmetry_constraint))]
fn is_symmetry_constraint(number: u16) -> bool
    ensures { result ≡ of_symmetries number }
{
    matches!(
        number,
        kind::SYMMETRIC
            | kind::SYMMETRIC_HORIZONTAL
            | kind::SYMMETRIC_VERTICAL
            | kind::SYMMETRIC_LINE
            | kind::AT_MIDPOINT
    )
}

fn is_accepted_constraint(number: u16) -> bool
    ensures { result ≡ accepted_constraint number }
{
    is_point_constraint(number)
        || is_size_constraint(number)
        || is_direction_constraint(number)
        || is_symmetry_constraint(number)
        || number == kind::COMMENT
}

/// Whether constraints of this number are taken; one that is has a number below 2^16.
#[tactic(auto, unfolding(crate::specs::Standings::constraint_standing))]
pub fn constraint_standing(n: i32) -> Standing
    ensures standing { result ≡ constraint_standing n }
    ensures small { result ≡ Standing.Accepted → unsigned_abs n < 2 ^ 16 }
{
    let Ok(number) = u16::try_from(n) else {
        return Standing::Unknown;
    };
    if is_accepted_constraint(number) {
        return Standing::Accepted;
    }
    if number == kind::EQUAL_LINE_AND_ARC {
        return Standing::LeftOut;
    }
    Standing::Unknown
}
