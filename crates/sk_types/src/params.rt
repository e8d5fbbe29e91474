// The parameters of entities and groups, and which of them are to be solved.

ghost use Rattle.std.specs.Prelude.{◌≡◌, ◌==◌, ◌≤◌, ◌<◌, ◌^◌, ◌++◌, ◌&&◌, ◌||◌, not, IfOk, OnOk, List, length};
ghost use Rattle.std.specs.List.{All};
ghost use Rattle.sk_types.specs.Lists.{only_if};
ghost use Rattle.sk_types.specs.Params.{own_params, OwnFit, group_count, group_params, fixes, is_fixed, unknown_params};
ghost use Rattle.sk_types.specs.FixedPoints.{is_pair, HasFixed};
ghost use Rattle.sk_types.specs.declared.handle.EntityId.{EntityId};
ghost use Rattle.sk_types.specs.declared.handle.GroupId.{GroupId};

use crate::constraint::Constraint;
use crate::entity::{Entity, Numbering};
use crate::group::{Group, GroupKind};
use crate::handle::{EntityId, GroupId, ParamId};
use crate::{NoMemory, constraint_kind, entity_kind as kind};
use indexmap::IndexSet;
use std::alloc::Global;
use std::marker::Model;

/// How many parameters an entity has by its own numbers.
pub fn own_count<const S: u32>(entity: &Entity<S>) -> usize
    ensures count { result ≡ length (own_params entity.now) }
    ensures few { result ≤ 4 }
{
    match (&entity.numbers, entity.kind) {
        (Numbering::Own(_), kind::POINT_IN_SPACE) => 3,
        (Numbering::Own(_), kind::POINT_IN_WORKPLANE) => 2,
        (Numbering::Own(_), kind::NORMAL_IN_SPACE) => 4,
        (Numbering::Own(_), kind::DISTANCE) => 1,
        _ => 0,
    }
}

// Puts the parameters that an entity has by its own numbers behind others, in rising handle order.
fn push_own_params<const S: u32>(
    params: &mut Vec<ParamId>,
    entity: &Entity<S>,
) -> Result<(), NoMemory>
    requires { All (λ (p : ParamId). p.0 < 2 ^ 32) (own_params entity.now) }
    ensures { OnOk result (params.new.items ≡ params.old.items ++ own_params entity.now) }
{
    if let Numbering::Own(first) = entity.numbers {
        for i in 0..own_count(entity) {
            params.push(ParamId(first.0 + i as u32))?;
        }
    }
    Ok(())
}

/// The parameters that an entity has by its own numbers, in rising handle order.
pub fn own_params<const S: u32>(alloc: Global, entity: &Entity<S>) -> Result<Vec<ParamId>, NoMemory>
    requires { All (λ (p : ParamId). p.0 < 2 ^ 32) (own_params entity.now) }
    ensures { IfOk result (λ v. v.items ≡ own_params entity.now) }
{
    let mut params = Vec::new(alloc);
    push_own_params(&mut params, entity)?;
    Ok(params)
}

/// How many parameters a group of this kind has as its own: a vector's 3, and a quaternion's 4 for a linked part.
pub fn group_count(kind: GroupKind) -> u16
    ensures count { result ≡ group_count kind }
    ensures few { result ≤ 7 }
{
    match kind {
        GroupKind::Space | GroupKind::Plane => 0,
        GroupKind::Extrude | GroupKind::Translate => 3,
        GroupKind::Linked => 7,
    }
}

// Puts a group's own parameters behind others, in rising handle order.
fn push_group_params<const S: u32>(
    params: &mut Vec<ParamId>,
    group: &Group<S>,
) -> Result<(), NoMemory>
    requires { group.now.id.0 ≤ 32767 }
    ensures { OnOk result (params.new.items ≡ params.old.items ++ group_params group.now) }
{
    for i in 0..group_count(group.kind) {
        params.push(ParamId::of_group(group.id, i))?;
    }
    Ok(())
}

/// The parameters that a group has as its own, in rising handle order: items 0 to 2 are a vector, 3 to 6 a quaternion.
pub fn group_params<const S: u32>(alloc: Global, group: &Group<S>) -> Result<Vec<ParamId>, NoMemory>
    requires { group.now.id.0 ≤ 32767 }
    ensures { IfOk result (λ v. v.items ≡ group_params group.now) }
{
    let mut params = Vec::new(alloc);
    push_group_params(&mut params, group)?;
    Ok(params)
}

/// The points that constraints keep where they were dragged to, each in its own group.
#[derive(Debug, Drop)]
pub struct FixedPoints {
    points: IndexSet<(GroupId, EntityId)>,
}

impl Model for FixedPoints {
    ghost Value = { List (GroupId × EntityId) };

    ghost view = { λ f. f.points.keys };
}

impl FixedPoints {
    /// The points that these constraints fix.
    pub fn of<const S: u32>(
        alloc: Global,
        constraints: &[Constraint<S>],
    ) -> Result<FixedPoints, NoMemory>
        ensures { IfOk result (λ fixed. HasFixed fixed constraints.now) }
    {
        let mut fixed = FixedPoints {
            points: IndexSet::new(alloc),
        };
        for constraint in constraints {
            fixed.fix(constraint)?;
        }
        Ok(fixed)
    }

    // One more constraint, which may fix a point.
    fn fix<const S: u32>(&mut self, constraint: &Constraint<S>) -> Result<(), NoMemory>
        ensures { OnOk result ((e : Entity S) → is_pair e self.new ≡ (is_pair e self.old || fixes e constraint.now)) }
    {
        if constraint.kind == constraint_kind::WHERE_DRAGGED && !constraint.reference {
            self.points
                .insert((constraint.group, constraint.points[0]))?;
        }
        Ok(())
    }

    /// Whether the entity is one of these points, in its own group.
    pub fn contains<const S: u32>(&self, entity: &Entity<S>) -> bool
        ensures { result ≡ is_pair entity.now self.now }
    {
        self.points.contains(&(entity.group, entity.id))
    }
}

// Puts the parameters of an entity behind others, where it is one of the group and none of these points.
fn push_free_params<const S: u32>(
    params: &mut Vec<ParamId>,
    fixed: &FixedPoints,
    group: GroupId,
    entity: &Entity<S>,
) -> Result<(), NoMemory>
    requires { All (λ (p : ParamId). p.0 < 2 ^ 32) (own_params entity.now) }
    ensures { OnOk result (params.new.items ≡ params.old.items ++ only_if (entity.now.group.0 == group.0 && not (is_pair entity.now fixed.now)) (own_params entity.now)) }
{
    if entity.group.0 == group.0 && !fixed.contains(entity) {
        push_own_params(params, entity)?;
    }
    Ok(())
}

/// The parameters of a group that no constraint fixes: those of its entities, then the group's own. They rise where the
/// entities are an outline's.
pub fn unknown_params<const S: u32>(
    alloc: Global,
    constraints: &[Constraint<S>],
    entities: &[Entity<S>],
    group: &Group<S>,
) -> Result<Vec<ParamId>, NoMemory>
    requires fit { OwnFit entities.now }
    requires known { group.now.id.0 ≤ 32767 }
    ensures { IfOk result (λ v. v.items ≡ unknown_params constraints.now entities.now group.now) }
{
    let fixed = FixedPoints::of(alloc, constraints)?;
    let mut params = Vec::new(alloc);
    for entity in entities {
        push_free_params(&mut params, &fixed, group.id, entity)?;
    }
    push_group_params(&mut params, group)?;
    Ok(params)
}
