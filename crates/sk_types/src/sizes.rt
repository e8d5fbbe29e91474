// How many auxiliaries and rows constraints, entities and groups have.

ghost use Rattle.std.specs.Prelude.{◌≡◌, ◌≤◌, pos};
ghost use Rattle.sk_types.specs.Standings.{constraint_standing};
ghost use Rattle.sk_types.specs.Needs.{circle_parts, named};
ghost use Rattle.sk_types.specs.Lookups.{entity_at, Rise};
ghost use Rattle.sk_types.specs.Sizes.{auxiliaries, relations, sizes_of, has_entity, is_arc, arcs_of, sizes_in, entity_rows, group_rows};

use crate::constraint::Constraint;
use crate::entity::Entity;
use crate::group::{Group, GroupKind};
use crate::handle::{EntityId, Maker};
use crate::lookups::entity_at;
use crate::standing::Standing;
use crate::{constraint_kind as kind, entity_kind};

/// How many auxiliaries a constraint has, and how many rows, the auxiliaries' own among them;
/// `arcs` says how many of its needed circles or arcs are arcs. A reference has none.
#[tactic(auto, using(crate::proofs::Circles::few_circles))]
pub fn constraint_sizes<const S: u32>(c: &Constraint<S>, arcs: u8) -> (u8, u8)
    requires accepted { constraint_standing (pos c.now.kind) ≡ Standing.Accepted }
    requires arcs { arcs ≤ circle_parts c.now.kind c.now.points c.now.entities }
    ensures { result ≡ sizes_of c.now.kind (has_entity c.now.workplane) (has_entity (named c.now.points 0)) c.now.reference arcs }
{
    if c.reference {
        return (0, 0);
    }
    let (in_plane, has_point) = (c.workplane.0 != 0, c.points[0].0 != 0);
    let auxiliaries = auxiliaries(c.kind, in_plane, arcs);
    (
        auxiliaries,
        auxiliaries + relations(c.kind, in_plane, has_point),
    )
}

fn auxiliaries(number: u16, in_plane: bool, arcs: u8) -> u8
    requires { arcs ≤ 2 }
    ensures value { result ≡ auxiliaries number in_plane arcs }
    ensures few { result ≤ 6 }
{
    match number {
        kind::POINT_LINE_DISTANCE | kind::POINT_FACE_DISTANCE | kind::PROJECTED_DISTANCE => 1,
        kind::POINT_ON_LINE => u8::from(!in_plane),
        kind::EQUAL_LENGTH_AND_DISTANCE => if in_plane { 2 } else { 1 },
        kind::EQUAL_DISTANCES => if in_plane { 4 } else { 2 },
        kind::EQUAL_ANGLES => 6,
        kind::LENGTH_DIFFERENCE | kind::ANGLE => 2,
        kind::DIAMETER | kind::POINT_ON_CIRCLE | kind::EQUAL_RADII => arcs,
        _ => 0,
    }
}

fn relations(number: u16, in_plane: bool, has_point: bool) -> u8
    ensures value { result ≡ relations number in_plane has_point }
    ensures few { result ≤ 3 }
{
    match number {
        kind::POINTS_COINCIDENT | kind::SYMMETRIC => if in_plane { 2 } else { 3 },
        kind::POINT_ON_LINE | kind::PARALLEL | kind::CUBIC_LINE_TANGENT => if in_plane {
            1
        } else {
            2
        },
        kind::SYMMETRIC_HORIZONTAL | kind::SYMMETRIC_VERTICAL | kind::SYMMETRIC_LINE => 2,
        kind::AT_MIDPOINT if !has_point => 1,
        kind::AT_MIDPOINT => if in_plane { 2 } else { 3 },
        kind::SAME_ORIENTATION => 3,
        kind::WHERE_DRAGGED | kind::COMMENT => 0,
        _ => 1,
    }
}

fn is_arc<const S: u32>(entities: &[Entity<S>], id: EntityId) -> bool
    requires { Rise entities.now }
    ensures { result ≡ is_arc (entity_at id.0 entities.now) }
{
    match entity_at(entities, id) {
        Some(entity) => entity.kind == entity_kind::ARC,
        None => false,
    }
}

/// How many of the circles or arcs that a constraint needs are arcs, among entities by rising handle.
pub fn arcs_of<const S: u32>(entities: &[Entity<S>], constraint: &Constraint<S>) -> u8
    requires { Rise entities.now }
    ensures value { result ≡ arcs_of entities.now constraint.now }
    ensures few { result ≤ circle_parts constraint.now.kind constraint.now.points constraint.now.entities }
{
    let mut arcs = 0;
    for need in constraint.needs() {
        if let Some(need) = need
            && need.part.takes(entity_kind::ARC)
            && is_arc(entities, need.entity)
        {
            arcs += 1;
        }
    }
    arcs
}

/// A constraint's auxiliaries, and its rows, among entities by rising handle.
pub fn sizes_in<const S: u32>(entities: &[Entity<S>], constraint: &Constraint<S>) -> (u8, u8)
    requires rising { Rise entities.now }
    requires accepted { constraint_standing (pos constraint.now.kind) ≡ Standing.Accepted }
    ensures { result ≡ sizes_in entities.now constraint.now }
{
    constraint_sizes(constraint, arcs_of(entities, constraint))
}

/// How many rows an entity has: a normal in space one for its length, an arc of a request one for its two radii.
pub fn entity_rows<const S: u32>(entity: &Entity<S>) -> u8
    ensures rows { result ≡ entity_rows entity.now }
    ensures few { result ≤ 1 }
{
    match (entity.kind, entity.id.maker()) {
        (entity_kind::NORMAL_IN_SPACE, _) => 1,
        (entity_kind::ARC, Maker::OfRequest(_, _)) => 1,
        _ => 0,
    }
}

/// How many rows a group has of its own: for an extrusion along a workplane's normal, a translation in a workplane, and the
/// length of a linked part's quaternion.
pub fn group_rows<const S: u32>(group: &Group<S>) -> u8
    ensures rows { result ≡ group_rows group.now }
    ensures few { result ≤ 2 }
{
    match group.kind {
        GroupKind::Space | GroupKind::Plane => 0,
        GroupKind::Extrude => if group.entity_b.0 == 0 { 0 } else { 2 },
        GroupKind::Translate => if group.entity_b.0 == 0 { 0 } else { 1 },
        GroupKind::Linked => 1,
    }
}
