// Points and normals that have numbers of their own, or those of entities of other groups.
#![tactic(auto, unfolding(crate::specs::EntityTrees::space_point, crate::specs::EntityTrees::space_normal))]

ghost use Rattle.std.specs.Prelude.{◌≡◌, [], IfOk, map};
ghost use Rattle.std.specs.Option.{option_copied};
ghost use Rattle.sk_num.specs.Scale.{IsScale};
ghost use Rattle.sk_types.specs.Lookups.{entity_at};
ghost use Rattle.sk_types.specs.Needs.{named};
ghost use Rattle.sk_expr.specs.Trees.{poly_of};
ghost use Rattle.sk_expr.specs.PartViews.{v3_of};
ghost use Rattle.sk_geom.specs.Sources.{IsSource, three_numbers, four_numbers};
ghost use Rattle.sk_geom.specs.EntityTrees.{whole_units, moved_point, turned_point, own_point, space_point, own_normal, space_normal, point_named, normal_named};
ghost use Rattle.sk_geom.specs.Views.{source_of};

use crate::NoMemory;
use crate::quaternions::{quat_axes, quat_product};
use crate::source::Source;
use sk_expr::{Expr, Tree, V3};
use sk_num::Grid;
use sk_types::{Entity, EntityId, Numbering, entity_at, entity_kind};
use std::alloc::Global;

/// The whole number `k`; 0 past the limit.
pub(crate) fn whole_units<const S: u32>(k: i32) -> Grid<S>
    requires { IsScale S }
    ensures { result ≡ whole_units S k }
{
    let one = Grid::<S>::one().units();
    match Grid::of_wide(i128::from(k) * i128::from(one)) {
        Some(units) => units,
        None => Grid::zero(),
    }
}

/// The point at the first three numbers.
fn point_at<const S: u32>(values: &[Grid<S>; 4]) -> V3<S>
    ensures { v3_of result ≡ three_numbers values.now }
{
    let [x, y, z, _] = values;
    V3 {
        x: Expr::Num(*x),
        y: Expr::Num(*y),
        z: Expr::Num(*z),
    }
}

/// The quaternion with these numbers.
fn normal_at<const S: u32>(values: &[Grid<S>; 4]) -> [Tree<S>; 4]
    ensures { map poly_of result ≡ four_numbers values.now }
{
    let [w, x, y, z] = values;
    [Expr::Num(*w), Expr::Num(*x), Expr::Num(*y), Expr::Num(*z)]
}

pub(crate) fn no_point<const S: u32>() -> V3<S>
    ensures { v3_of result ≡ three_numbers [] }
{
    point_at(&[Grid::zero(); 4])
}

pub(crate) fn no_normal<const S: u32>() -> [Tree<S>; 4]
    ensures { map poly_of result ≡ four_numbers [] }
{
    normal_at(&[Grid::zero(); 4])
}

/// The first of the entities that are named; 0 where none is.
pub(crate) fn first_named(ids: &[EntityId]) -> EntityId
    ensures { result ≡ named ids.now 0 }
{
    match ids.first() {
        Some(id) => *id,
        None => EntityId(0),
    }
}

impl<'a, const S: u32> Source<'a, S> {
    /// The entity with a handle.
    pub(crate) fn entity(&self, id: EntityId) -> Option<&Entity<S>>
        requires { IsSource (source_of self.now) }
        ensures { option_copied result ≡ entity_at id.0 (source_of self.now).entities }
    {
        entity_at(self.outline.entities.as_slice(), id)
    }

    /// `p + k t`.
    #[tactic(auto, unfolding(crate::specs::EntityTrees::moved_point))]
    fn moved_point(&self, alloc: Global, of_entity: EntityId, times: i32) -> Result<V3<S>, NoMemory>
        requires scale { IsScale S }
        requires source { IsSource (source_of self.now) }
        ensures { IfOk result (λ v. v3_of v ≡ moved_point (source_of self.now) of_entity times) }
    {
        let number = Expr::Num(whole_units::<S>(times));
        let step = self.group_vector().times(alloc, &number)?;
        let values = self.act_numbers(of_entity);
        let moved = point_at(&values).plus(alloc, step)?;
        Ok(moved)
    }

    /// `U x + V y + N z + t`.
    #[tactic(auto, unfolding(crate::specs::EntityTrees::turned_point))]
    fn turned_point(&self, alloc: Global, values: &[Grid<S>; 4]) -> Result<V3<S>, NoMemory>
        requires scale { IsScale S }
        requires source { IsSource (source_of self.now) }
        ensures { IfOk result (λ v. v3_of v ≡ turned_point (source_of self.now) values.now) }
    {
        let [x, y, z, _] = values;
        let [u, v, n] = quat_axes(alloc, &self.group_quaternion())?;
        let u = u.times_number(alloc, *x)?;
        let v = v.times_number(alloc, *y)?;
        let n = n.times_number(alloc, *z)?;
        let turned = u.plus(alloc, v)?.plus(alloc, n)?;
        let moved = turned.plus(alloc, self.group_vector())?;
        Ok(moved)
    }

    fn own_point(
        &self,
        alloc: Global,
        id: EntityId,
        numbers: &Numbering<S>,
    ) -> Result<V3<S>, NoMemory>
        requires scale { IsScale S }
        requires source { IsSource (source_of self.now) }
        ensures { IfOk result (λ v. v3_of v ≡ own_point (source_of self.now) id numbers.now) }
    {
        match numbers {
            Numbering::Own(param) => Ok(self.three_params(u64::from(param.0))),
            Numbering::Moved { of_entity, times } => self.moved_point(alloc, *of_entity, *times),
            Numbering::Placed(values) => self.turned_point(alloc, values),
            Numbering::Copied(from) => Ok(point_at(&self.act_numbers(*from))),
            Numbering::Nothing => Ok(point_at(&self.act_numbers(id))),
        }
    }

    /// A point of any kind but one in a workplane.
    pub(crate) fn space_point(&self, alloc: Global, e: &Entity<S>) -> Result<V3<S>, NoMemory>
        requires scale { IsScale S }
        requires source { IsSource (source_of self.now) }
        ensures { IfOk result (λ v. v3_of v ≡ space_point (source_of self.now) e.now) }
    {
        if e.group.0 == self.group.0 {
            self.own_point(alloc, e.id, &e.numbers)
        } else {
            Ok(point_at(&self.act_numbers(e.id)))
        }
    }

    fn own_normal(
        &self,
        alloc: Global,
        id: EntityId,
        kind: u16,
        numbers: &Numbering<S>,
    ) -> Result<[Tree<S>; 4], NoMemory>
        requires { IsSource (source_of self.now) }
        ensures { IfOk result (λ q. map poly_of q ≡ own_normal (source_of self.now) id kind numbers.now) }
    {
        match numbers {
            Numbering::Own(param) => Ok(self.four_params(u64::from(param.0))),
            Numbering::Moved {
                of_entity: _,
                times: _,
            } => Ok(no_normal()),
            Numbering::Placed(values) if kind == entity_kind::TURNED_NORMAL => {
                quat_product(alloc, &self.group_quaternion(), &normal_at(values))
            }
            Numbering::Placed(values) => Ok(normal_at(values)),
            Numbering::Copied(from) => Ok(normal_at(&self.act_numbers(*from))),
            Numbering::Nothing => Ok(normal_at(&self.act_numbers(id))),
        }
    }

    /// A normal of any kind but one in a workplane.
    pub(crate) fn space_normal(
        &self,
        alloc: Global,
        e: &Entity<S>,
    ) -> Result<[Tree<S>; 4], NoMemory>
        requires { IsSource (source_of self.now) }
        ensures { IfOk result (λ q. map poly_of q ≡ space_normal (source_of self.now) e.now) }
    {
        if e.group.0 == self.group.0 {
            self.own_normal(alloc, e.id, e.kind, &e.numbers)
        } else {
            Ok(normal_at(&self.act_numbers(e.id)))
        }
    }

    /// A workplane's point.
    #[tactic(auto, unfolding(crate::specs::EntityTrees::point_named))]
    pub(crate) fn point_named(&self, alloc: Global, id: EntityId) -> Result<V3<S>, NoMemory>
        requires scale { IsScale S }
        requires source { IsSource (source_of self.now) }
        ensures { IfOk result (λ v. v3_of v ≡ point_named (source_of self.now) id) }
    {
        match self.entity(id) {
            Some(e) => self.space_point(alloc, e),
            None => Ok(no_point()),
        }
    }

    /// A workplane's normal.
    #[tactic(auto, unfolding(crate::specs::EntityTrees::normal_named))]
    pub(crate) fn normal_named(&self, alloc: Global, id: EntityId) -> Result<[Tree<S>; 4], NoMemory>
        requires { IsSource (source_of self.now) }
        ensures { IfOk result (λ q. map poly_of q ≡ normal_named (source_of self.now) id) }
    {
        match self.entity(id) {
            Some(e) => self.space_normal(alloc, e),
            None => Ok(no_normal()),
        }
    }
}
