// The shape of each kind of request.

ghost use Rattle.std.specs.Prelude.{◌≡◌, ◌≤◌, IfSome};
ghost use Rattle.sk_entity.specs.Requests.{shape_of};

use sk_types::{Request, entity_kind, request_kind};

/// What entity 0 of a request is, and which parts it has.
#[derive(Clone, Copy, Debug)]
pub(crate) struct Shape {
    pub(crate) entity: u16,
    pub(crate) points: u16,
    pub(crate) has_normal: bool,
    pub(crate) has_distance: bool,
}

/// The shape of a request; None for a datum point, and for a number that isn't known.
pub(crate) fn shape_of(r: &Request) -> Option<Shape>
    ensures shape { result ≡ shape_of r.now }
    ensures few { IfSome result (λ h. h.points ≤ 259) }
{
    let (entity, points, has_normal, has_distance) = match r.kind {
        request_kind::WORKPLANE => (entity_kind::WORKPLANE, 1, true, false),
        request_kind::LINE => (entity_kind::LINE, 2, false, false),
        request_kind::CUBIC => (entity_kind::CUBIC, 4 + u16::from(r.extra), false, false),
        request_kind::CIRCLE => (entity_kind::CIRCLE, 1, true, true),
        request_kind::ARC => (entity_kind::ARC, 3, true, false),
        _ => return None,
    };
    Some(Shape {
        entity,
        points,
        has_normal,
        has_distance,
    })
}
