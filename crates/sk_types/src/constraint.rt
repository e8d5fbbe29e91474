// Constraints, and their needed parts.

ghost use Rattle.std.specs.Prelude.{◌≡◌, ◌<◌, ◌≤◌, length, slice_get, pos, [], ◌∷◌};
ghost use Rattle.sk_types.specs.Standings.{constraint_standing};
ghost use Rattle.sk_types.specs.Needs.{part_takes, two_of as two_of_kind, four_of as four_of_kind, needs_of, filled_up, fits_part};

use crate::handle::{ConstraintId, EntityId, GroupId};
use crate::kinds::{is_face, is_normal, is_point};
use crate::standing::Standing;
use crate::{constraint_kind as kind, entity_kind};
use sk_num::Grid;

/// A constraint of the model.
#[derive(Clone, Copy, Debug, PartialEq, Eq)]
pub struct Constraint<const S: u32> {
    /// Its handle.
    pub id: ConstraintId,
    /// Its number in SolveSpace's file format, one of `constraint_kind`.
    pub kind: u16,
    /// The group that it stands in.
    pub group: GroupId,
    /// The workplane that it is taken in; none in space.
    pub workplane: EntityId,
    /// Its dimension: millimetres, degrees or a plain number.
    pub value: Grid<S>,
    /// Its points A and B.
    pub points: [EntityId; 2],
    /// Its entities A to D.
    pub entities: [EntityId; 4],
    /// Which of two readings is meant.
    pub other: bool,
    /// Which of two readings of its second part is meant.
    pub other2: bool,
    /// Whether it is a reference alone, which holds nothing in place.
    pub reference: bool,
}

/// What a constraint needs in one place.
#[derive(Clone, Copy, Debug, PartialEq, Eq)]
pub enum PartKind {
    /// A point.
    Point,
    /// A workplane.
    Workplane,
    /// A line.
    Line,
    /// A normal.
    Normal,
    /// A line or a normal: what has a direction.
    LineOrNormal,
    /// A face.
    Face,
    /// A cubic.
    Cubic,
    /// An arc.
    Arc,
    /// An arc or a cubic: what has two ends and a direction there.
    ArcOrCubic,
    /// A circle or an arc: what has a radius.
    CircleOrArc,
}

/// A needed part: the entity that a constraint names in its place, and what has to stand there.
#[derive(Clone, Copy, Debug, PartialEq, Eq)]
pub struct Need {
    /// The entity that is named.
    pub entity: EntityId,
    /// What it has to be.
    pub part: PartKind,
}

fn one(a: Need) -> [Option<Need>; 4]
    ensures { result ≡ filled_up (a ∷ []) }
{
    [Some(a), None, None, None]
}

fn two(a: Need, b: Need) -> [Option<Need>; 4]
    ensures { result ≡ filled_up (a ∷ b ∷ []) }
{
    [Some(a), Some(b), None, None]
}

fn three(a: Need, b: Need, c: Need) -> [Option<Need>; 4]
    ensures { result ≡ filled_up (a ∷ b ∷ c ∷ []) }
{
    [Some(a), Some(b), Some(c), None]
}

fn four(a: Need, b: Need, c: Need, d: Need) -> [Option<Need>; 4]
    ensures { result ≡ filled_up (a ∷ b ∷ c ∷ d ∷ []) }
{
    [Some(a), Some(b), Some(c), Some(d)]
}

impl EntityId {
    // The entity, which has to be this.
    fn to_be(self, part: PartKind) -> Need
        ensures { result ≡ record { entity = self; part = part } }
    {
        Need { entity: self, part }
    }
}

// Entities A and B, which have to be this.
fn two_of(part: PartKind, entities: &[EntityId; 4]) -> [Option<Need>; 4]
    ensures { result ≡ filled_up (two_of_kind part entities.now) }
{
    two(entities[0].to_be(part), entities[1].to_be(part))
}

// Entities A to D, which have to be this.
fn four_of(part: PartKind, entities: &[EntityId; 4]) -> [Option<Need>; 4]
    ensures { result ≡ filled_up (four_of_kind part entities.now) }
{
    let [a, b, c, d] = *entities;
    four(a.to_be(part), b.to_be(part), c.to_be(part), d.to_be(part))
}

// The needed parts by the constraint's number, its points and its entities.
#[tactic(auto, unfolding(crate::specs::Needs::needs_of))]
fn needs_of(number: u16, points: &[EntityId; 2], entities: &[EntityId; 4]) -> [Option<Need>; 4]
    ensures parts { result ≡ filled_up (needs_of number points.now entities.now) }
    ensures few { length (needs_of number points.now entities.now) ≤ 4 }
{
    let (p, q) = (
        points[0].to_be(PartKind::Point),
        points[1].to_be(PartKind::Point),
    );
    let [a, b, _, _] = *entities;
    let (line_a, line_b) = (a.to_be(PartKind::Line), b.to_be(PartKind::Line));
    match number {
        kind::POINTS_COINCIDENT | kind::POINT_POINT_DISTANCE => two(p, q),
        kind::SYMMETRIC_HORIZONTAL | kind::SYMMETRIC_VERTICAL => two(p, q),
        kind::POINT_PLANE_DISTANCE | kind::POINT_IN_PLANE => two(p, a.to_be(PartKind::Workplane)),
        kind::POINT_LINE_DISTANCE | kind::POINT_ON_LINE => two(p, line_a),
        kind::POINT_FACE_DISTANCE | kind::POINT_ON_FACE => two(p, a.to_be(PartKind::Face)),
        kind::PROJECTED_DISTANCE => three(p, q, a.to_be(PartKind::LineOrNormal)),
        kind::EQUAL_LENGTHS | kind::LENGTH_RATIO | kind::LENGTH_DIFFERENCE => two(line_a, line_b),
        kind::EQUAL_LENGTH_AND_DISTANCE => three(p, line_a, line_b),
        kind::EQUAL_DISTANCES => four(p, q, line_a, line_b),
        kind::EQUAL_ANGLES => four_of(PartKind::LineOrNormal, entities),
        kind::SYMMETRIC => three(p, q, a.to_be(PartKind::Workplane)),
        kind::SYMMETRIC_LINE => three(p, q, line_a),
        kind::AT_MIDPOINT if points[0].0 == 0 => two(line_a, b.to_be(PartKind::Workplane)),
        kind::AT_MIDPOINT => two(line_a, p),
        kind::HORIZONTAL | kind::VERTICAL if a.0 == 0 => two(p, q),
        kind::HORIZONTAL | kind::VERTICAL => one(line_a),
        kind::DIAMETER => one(a.to_be(PartKind::CircleOrArc)),
        kind::POINT_ON_CIRCLE => two(p, a.to_be(PartKind::CircleOrArc)),
        kind::SAME_ORIENTATION => two_of(PartKind::Normal, entities),
        kind::ANGLE | kind::PARALLEL | kind::PERPENDICULAR => two_of(
            PartKind::LineOrNormal,
            entities,
        ),
        kind::ARC_LINE_TANGENT => two(a.to_be(PartKind::Arc), line_b),
        kind::CUBIC_LINE_TANGENT => two(a.to_be(PartKind::Cubic), line_b),
        kind::CURVE_CURVE_TANGENT => two_of(PartKind::ArcOrCubic, entities),
        kind::EQUAL_RADII => two_of(PartKind::CircleOrArc, entities),
        kind::WHERE_DRAGGED => one(p),
        _ => [None; 4],
    }
}

impl PartKind {
    /// Whether an entity of this number can stand in the part's place.
    #[tactic(auto, unfolding(crate::specs::Needs::part_takes))]
    pub fn takes(self, entity: u16) -> bool
        ensures { result ≡ part_takes self entity }
    {
        match self {
            PartKind::Point => is_point(entity),
            PartKind::Workplane => entity == entity_kind::WORKPLANE,
            PartKind::Line => entity == entity_kind::LINE,
            PartKind::Normal => is_normal(entity),
            PartKind::LineOrNormal => entity == entity_kind::LINE || is_normal(entity),
            PartKind::Face => is_face(entity),
            PartKind::Cubic => entity == entity_kind::CUBIC,
            PartKind::Arc => entity == entity_kind::ARC,
            PartKind::ArcOrCubic => matches!(entity, entity_kind::ARC | entity_kind::CUBIC),
            PartKind::CircleOrArc => matches!(entity, entity_kind::CIRCLE | entity_kind::ARC),
        }
    }
}

impl<const S: u32> Constraint<S> {
    /// The needed parts in their order, and None behind the last.
    pub fn needs(&self) -> [Option<Need>; 4]
        ensures parts { result ≡ filled_up (needs_of self.now.kind self.now.points self.now.entities) }
        ensures few { length (needs_of self.now.kind self.now.points self.now.entities) ≤ 4 }
    {
        needs_of(self.kind, &self.points, &self.entities)
    }
}

/// Whether an entity of this number fits the needed part in this place, counted from 0.
pub fn fits<const S: u32>(c: &Constraint<S>, place: u8, entity: u16) -> bool
    requires accepted { constraint_standing (pos c.now.kind) ≡ Standing.Accepted }
    requires there { place < length (needs_of c.now.kind c.now.points c.now.entities) }
    ensures { result ≡ fits_part (slice_get (needs_of c.now.kind c.now.points c.now.entities) place) entity }
{
    let needs = c.needs();
    match needs[usize::from(place)] {
        Some(need) => need.part.takes(entity),
        None => false,
    }
}
