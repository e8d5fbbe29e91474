// What is drawn of each entity.
#![tactic(auto)]

ghost use Rattle.std.specs.Prelude.{◌≡◌, ◌∷◌, [], option_map};
ghost use Rattle.sk_dxf.specs.declared.shape.Shape.TheVariants.{Point};
ghost use Rattle.sk_num.specs.Scale.{IsScale};
ghost use Rattle.sk_types.specs.Lookups.{act_handle, RiseBy};
ghost use Rattle.sk_types.specs.Needs.{named};
ghost use Rattle.sk_dxf.specs.Plane.{numbers_at, coordinates_at, leaning, facing, is_tilted};
ghost use Rattle.sk_dxf.specs.Shapes.{or_past, line_shape, is_first_item, point_shape, if_straight, circle_shape, all_places, all_coordinates, bulged, arc_of, arc_shape, if_level, is_level, cubic_of, cubic_shape, shape_by_kind, shape_of};

use crate::bulge::bulge;
use crate::plane::Plane;
use crate::shape::{LeftOut, Shape};
use crate::units::power;
use sk_num::Grid;
use sk_types::{Act, Entity, EntityId, Maker, act_at, entity_kind, is_point};

/// The numbers at which an entity stands; 0 where it has none.
pub(crate) fn numbers_at<const S: u32>(acts: &[Act<S>], id: EntityId) -> [Grid<S>; 4]
    requires { RiseBy act_handle acts.now }
    ensures { result ≡ numbers_at acts.now id }
{
    match act_at(acts, id) {
        Some(act) => act.values,
        None => [Grid::zero(); 4],
    }
}

/// The entity that is named in this place, none where there is no such.
pub(crate) fn named(ids: &[EntityId], place: usize) -> EntityId
    ensures { result ≡ named ids.now place }
{
    match ids.get(place) {
        Some(id) => *id,
        None => EntityId(0),
    }
}

fn or_past<const S: u32>(shape: Option<Shape<S>>) -> Result<Shape<S>, LeftOut>
    ensures { result ≡ or_past shape.entry }
{
    match shape {
        Some(shape) => Ok(shape),
        None => Err(LeftOut::PastLimit),
    }
}

fn is_tilted<const S: u32>(leaning: &[Grid<S>; 2]) -> bool
    requires { IsScale S }
    ensures { result ≡ is_tilted S leaning.now }
{
    let most = power::<S>(20);
    let [u, v] = leaning;
    u.units().unsigned_abs() > most || v.units().unsigned_abs() > most
}

/// A circle or an arc, where its normal stands straight on the plane.
fn if_straight<const S: u32>(
    leaning: Option<[Grid<S>; 2]>,
    shape: Result<Shape<S>, LeftOut>,
) -> Result<Shape<S>, LeftOut>
    requires { IsScale S }
    ensures { result ≡ if_straight leaning.entry shape.entry }
{
    match leaning {
        None => Err(LeftOut::PastLimit),
        Some(leaning) => {
            if is_tilted(&leaning) {
                Err(LeftOut::Tilted)
            } else {
                shape
            }
        }
    }
}

fn is_first_item(maker: Maker) -> bool
    ensures { result ≡ is_first_item maker }
{
    match maker {
        Maker::OfRequest(_, item) => item == 0,
        Maker::OfGroup(_, _) => false,
    }
}

/// An arc by its centre, start and end, and by how far its normal goes along the plane's.
#[tactic(auto, unfolding(crate::specs::Shapes::bulged))]
fn bulged<const S: u32>(points: &[[Grid<S>; 3]; 3], facing: Grid<S>) -> Result<Shape<S>, LeftOut>
    requires { IsScale S }
    ensures { result ≡ bulged points.now facing.entry }
{
    let [centre, start, end] = points;
    match bulge(facing.units() < 0, centre, start, end) {
        Some(bulge) => Ok(Shape::Arc(*start, *end, bulge)),
        None => Err(LeftOut::NoBulge),
    }
}

fn is_level<const S: u32>(points: &[[Grid<S>; 3]; 4]) -> bool
    ensures { result ≡ is_level points.now }
{
    let [a, b, c, d] = points;
    b[2] == a[2] && c[2] == a[2] && d[2] == a[2]
}

#[tactic(auto, unfolding(crate::specs::Shapes::if_level))]
fn if_level<const S: u32>(points: &[[Grid<S>; 3]; 4]) -> Result<Shape<S>, LeftOut>
    ensures { result ≡ if_level points.now }
{
    if is_level(points) {
        Ok(Shape::Cubic(*points))
    } else {
        Err(LeftOut::NotLevel)
    }
}

#[tactic(auto, unfolding(crate::specs::Shapes::all_places))]
fn all_of_three<const S: u32>(
    a: Option<[Grid<S>; 3]>,
    b: Option<[Grid<S>; 3]>,
    c: Option<[Grid<S>; 3]>,
) -> Option<[[Grid<S>; 3]; 3]>
    ensures { result ≡ all_places (a.entry ∷ b.entry ∷ c.entry ∷ []) }
{
    let a = a?;
    let b = b?;
    let c = c?;
    Some([a, b, c])
}

#[tactic(auto, unfolding(crate::specs::Shapes::all_places))]
fn all_of_four<const S: u32>(
    a: Option<[Grid<S>; 3]>,
    b: Option<[Grid<S>; 3]>,
    c: Option<[Grid<S>; 3]>,
    d: Option<[Grid<S>; 3]>,
) -> Option<[[Grid<S>; 3]; 4]>
    ensures { result ≡ all_places (a.entry ∷ b.entry ∷ c.entry ∷ d.entry ∷ []) }
{
    let a = a?;
    let b = b?;
    let c = c?;
    let d = d?;
    Some([a, b, c, d])
}

fn arc_of<const S: u32>(
    points: Option<[[Grid<S>; 3]; 3]>,
    facing: Option<Grid<S>>,
) -> Result<Shape<S>, LeftOut>
    requires { IsScale S }
    ensures { result ≡ arc_of points.entry facing.entry }
{
    match (points, facing) {
        (Some(points), Some(facing)) => bulged(&points, facing),
        _ => Err(LeftOut::PastLimit),
    }
}

fn cubic_of<const S: u32>(points: Option<[[Grid<S>; 3]; 4]>) -> Result<Shape<S>, LeftOut>
    ensures { result ≡ cubic_of points.entry }
{
    match points {
        Some(points) => if_level(&points),
        None => Err(LeftOut::PastLimit),
    }
}

/// What a drawing is made from: a plane, and the numbers at which entities stand, by rising handle.
#[derive(Drop)]
pub(crate) struct Sheet<'a, const S: u32> {
    pub(crate) plane: Plane<S>,
    pub(crate) acts: &'a [Act<S>],
}

impl<'a, const S: u32> Sheet<'a, S> {
    /// The coordinates of a point; None where a reading passes the limit.
    fn coordinates(&self, id: EntityId) -> Option<[Grid<S>; 3]>
        requires scale { IsScale S }
        requires acts { RiseBy act_handle self.now.acts.now }
        ensures { result ≡ coordinates_at self.now.plane self.now.acts.now id }
    {
        self.plane.coordinates(&numbers_at(self.acts, id))
    }

    #[tactic(auto, unfolding(crate::specs::Shapes::line_shape))]
    fn line(&self, points: &[EntityId]) -> Option<Shape<S>>
        requires scale { IsScale S }
        requires acts { RiseBy act_handle self.now.acts.now }
        ensures { result ≡ line_shape self.now.plane self.now.acts.now points.now }
    {
        let start = self.coordinates(named(points, 0))?;
        let end = self.coordinates(named(points, 1))?;
        Some(Shape::Line(start, end))
    }

    fn datum(&self, id: EntityId) -> Option<Shape<S>>
        requires scale { IsScale S }
        requires acts { RiseBy act_handle self.now.acts.now }
        ensures { result ≡ option_map Point (coordinates_at self.now.plane self.now.acts.now id) }
    {
        let place = self.coordinates(id)?;
        Some(Shape::Point(place))
    }

    /// A point is drawn where it is the first item of a request, which only datum points are.
    #[tactic(auto, unfolding(crate::specs::Shapes::point_shape))]
    fn point(&self, id: EntityId, kind: u16) -> Result<Shape<S>, LeftOut>
        requires scale { IsScale S }
        requires acts { RiseBy act_handle self.now.acts.now }
        ensures { result ≡ point_shape self.now.plane self.now.acts.now id kind }
    {
        if !is_point(kind) {
            return Err(LeftOut::NoCurve);
        }
        if !is_first_item(id.maker()) {
            return Err(LeftOut::NotDatum);
        }
        or_past(self.datum(id))
    }

    #[tactic(auto, unfolding(crate::specs::Shapes::circle_shape))]
    fn circle(&self, e: &Entity<S>) -> Option<Shape<S>>
        requires scale { IsScale S }
        requires acts { RiseBy act_handle self.now.acts.now }
        ensures { result ≡ circle_shape self.now.plane self.now.acts.now e.now }
    {
        let centre = self.coordinates(named(e.points.as_slice(), 0))?;
        let [radius, _, _, _] = numbers_at(self.acts, e.distance);
        Some(Shape::Circle(centre, radius))
    }

    fn leaning(&self, normal: EntityId) -> Option<[Grid<S>; 2]>
        requires scale { IsScale S }
        requires acts { RiseBy act_handle self.now.acts.now }
        ensures { result ≡ leaning S self.now.plane (numbers_at self.now.acts.now normal) }
    {
        self.plane.leaning(&numbers_at(self.acts, normal))
    }

    fn facing(&self, normal: EntityId) -> Option<Grid<S>>
        requires scale { IsScale S }
        requires acts { RiseBy act_handle self.now.acts.now }
        ensures { result ≡ facing S self.now.plane (numbers_at self.now.acts.now normal) }
    {
        self.plane.facing(&numbers_at(self.acts, normal))
    }

    fn three(&self, points: &[EntityId]) -> Option<[[Grid<S>; 3]; 3]>
        requires scale { IsScale S }
        requires acts { RiseBy act_handle self.now.acts.now }
        ensures { result ≡ all_coordinates self.now.plane self.now.acts.now (named points.now 0 ∷ named points.now 1 ∷ named points.now 2 ∷ []) }
    {
        let first = self.coordinates(named(points, 0));
        let second = self.coordinates(named(points, 1));
        let third = self.coordinates(named(points, 2));
        all_of_three(first, second, third)
    }

    fn four(&self, points: &[EntityId]) -> Option<[[Grid<S>; 3]; 4]>
        requires scale { IsScale S }
        requires acts { RiseBy act_handle self.now.acts.now }
        ensures { result ≡ all_coordinates self.now.plane self.now.acts.now (named points.now 0 ∷ named points.now 1 ∷ named points.now 2 ∷ named points.now 3 ∷ []) }
    {
        let first = self.coordinates(named(points, 0));
        let second = self.coordinates(named(points, 1));
        let third = self.coordinates(named(points, 2));
        let fourth = self.coordinates(named(points, 3));
        all_of_four(first, second, third, fourth)
    }

    #[tactic(auto, unfolding(crate::specs::Shapes::arc_shape))]
    fn arc(&self, e: &Entity<S>) -> Result<Shape<S>, LeftOut>
        requires scale { IsScale S }
        requires acts { RiseBy act_handle self.now.acts.now }
        ensures { result ≡ arc_shape self.now.plane self.now.acts.now e.now }
    {
        arc_of(self.three(e.points.as_slice()), self.facing(e.normal))
    }

    #[tactic(auto, unfolding(crate::specs::Shapes::cubic_shape))]
    fn cubic(&self, points: &[EntityId]) -> Result<Shape<S>, LeftOut>
        requires scale { IsScale S }
        requires acts { RiseBy act_handle self.now.acts.now }
        ensures { result ≡ cubic_shape self.now.plane self.now.acts.now points.now }
    {
        if points.len() != 4 {
            return Err(LeftOut::ExtraPoints);
        }
        cubic_of(self.four(points))
    }

    #[tactic(auto, unfolding(crate::specs::Shapes::shape_by_kind))]
    fn by_kind(&self, e: &Entity<S>) -> Result<Shape<S>, LeftOut>
        requires scale { IsScale S }
        requires acts { RiseBy act_handle self.now.acts.now }
        ensures { result ≡ shape_by_kind self.now.plane self.now.acts.now e.now }
    {
        match e.kind {
            entity_kind::LINE => or_past(self.line(e.points.as_slice())),
            entity_kind::CIRCLE => if_straight(self.leaning(e.normal), or_past(self.circle(e))),
            entity_kind::ARC => if_straight(self.leaning(e.normal), self.arc(e)),
            entity_kind::CUBIC => self.cubic(e.points.as_slice()),
            kind => self.point(e.id, kind),
        }
    }

    /// What is drawn of an entity, or why it is left out.
    #[tactic(auto, unfolding(crate::specs::Shapes::shape_of))]
    pub(crate) fn shape(&self, e: &Entity<S>) -> Result<Shape<S>, LeftOut>
        requires scale { IsScale S }
        requires acts { RiseBy act_handle self.now.acts.now }
        ensures { result ≡ shape_of self.now.plane self.now.acts.now e.now }
    {
        if e.construction {
            return Err(LeftOut::Construction);
        }
        self.by_kind(e)
    }
}
