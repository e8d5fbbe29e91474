// Which entities are points, normals, distances and faces.

ghost use Rattle.std.specs.Prelude.{◌≡◌};
ghost use Rattle.sk_types.specs.Kinds.{has_numbers, is_point, is_normal, is_distance, is_face};

use crate::entity_kind as kind;

/// Whether entities of this number are points.
pub fn is_point(number: u16) -> bool
    ensures { result ≡ is_point number }
{
    matches!(
        number,
        kind::POINT_IN_SPACE
            | kind::POINT_IN_WORKPLANE
            | kind::MOVED_POINT
            | kind::TURNED_POINT
            | kind::COPIED_POINT
    )
}

/// Whether entities of this number are normals.
pub fn is_normal(number: u16) -> bool
    ensures { result ≡ is_normal number }
{
    matches!(
        number,
        kind::NORMAL_IN_SPACE
            | kind::NORMAL_IN_WORKPLANE
            | kind::COPIED_NORMAL
            | kind::TURNED_NORMAL
    )
}

/// Whether entities of this number are distances.
pub fn is_distance(number: u16) -> bool
    ensures { result ≡ is_distance number }
{
    matches!(number, kind::DISTANCE | kind::COPIED_DISTANCE)
}

/// Whether entities of this number are faces.
pub fn is_face(number: u16) -> bool
    ensures { result ≡ is_face number }
{
    matches!(
        number,
        kind::FACE_BY_NORMAL | kind::FACE_BY_LINE | kind::MOVED_FACE
    )
}

/// Whether entities of this number stand at numbers: points, normals and distances do, and all others name such.
pub fn has_numbers(number: u16) -> bool
    ensures { result ≡ has_numbers number }
{
    is_point(number) || is_normal(number) || is_distance(number)
}
