// Groups and entities that are named.

ghost use Rattle.std.specs.Prelude.{◌≡◌};
ghost use Rattle.sk_types.specs.Needs.{needs_of};
ghost use Rattle.sk_types.specs.Lookups.{Rise};
ghost use Rattle.sk_chain.specs.Lookups.{place_in};
ghost use Rattle.sk_chain.specs.Outlines.{first_fault, group_fault, request_group_fault, constraint_group_fault, is_later, named_fault, workplane_fault, need_fault, request_fault, constraint_fault};

use crate::lookups::place_in;
use indexmap::IndexSet;
use sk_model::ModelFault;
use sk_types::{Constraint, Entity, EntityId, GroupId, Need, PartKind, Request, entity_at};

// Why a thing is refused for the group that it names, if it is.
fn group_fault(places: &IndexSet<GroupId>, id: u32, group: GroupId) -> Option<ModelFault>
    ensures { result ≡ group_fault places.now.keys id group }
{
    match place_in(places, group) {
        Some(_) => None,
        None => Some(ModelFault::NoSuch(id, group.0)),
    }
}

/// The first request that names a group that isn't there.
pub(crate) fn request_group_fault(
    places: &IndexSet<GroupId>,
    requests: &[Request],
) -> Option<ModelFault>
    ensures { result ≡ first_fault (request_group_fault places.now.keys) requests.now }
{
    for request in requests {
        if let Some(fault) = group_fault(places, request.id.0, request.group) {
            return Some(fault);
        }
    }
    None
}

/// The first constraint that names a group that isn't there.
pub(crate) fn constraint_group_fault<const S: u32>(
    places: &IndexSet<GroupId>,
    constraints: &[Constraint<S>],
) -> Option<ModelFault>
    ensures { result ≡ first_fault (constraint_group_fault places.now.keys) constraints.now }
{
    for constraint in constraints {
        if let Some(fault) = group_fault(places, constraint.id.0, constraint.group) {
            return Some(fault);
        }
    }
    None
}

// Whether the first group stands behind the second.
fn is_later(places: &IndexSet<GroupId>, first: GroupId, second: GroupId) -> bool
    ensures { result ≡ is_later (place_in first.0 places.now.keys) (place_in second.0 places.now.keys) }
{
    match (place_in(places, first), place_in(places, second)) {
        (Some(i), Some(j)) => j < i,
        _ => false,
    }
}

// Why a thing of a group is refused for the entity that it names, if it is.
fn named_fault<const S: u32>(
    places: &IndexSet<GroupId>,
    entities: &[Entity<S>],
    id: u32,
    group: GroupId,
    target: EntityId,
    part: PartKind,
) -> Option<ModelFault>
    requires { Rise entities.now }
    ensures { result ≡ named_fault places.now.keys entities.now id group target part }
{
    let Some(entity) = entity_at(entities, target) else {
        return Some(ModelFault::NoSuch(id, target.0));
    };
    if is_later(places, entity.group, group) {
        return Some(ModelFault::Ahead(id, target.0));
    }
    if !part.takes(entity.kind) {
        return Some(ModelFault::BadValue(id));
    }
    None
}

fn workplane_fault<const S: u32>(
    places: &IndexSet<GroupId>,
    entities: &[Entity<S>],
    id: u32,
    group: GroupId,
    target: EntityId,
) -> Option<ModelFault>
    requires { Rise entities.now }
    ensures { result ≡ workplane_fault places.now.keys entities.now id group target }
{
    if target.0 == 0 {
        return None;
    }
    named_fault(places, entities, id, group, target, PartKind::Workplane)
}

fn need_fault<const S: u32>(
    places: &IndexSet<GroupId>,
    entities: &[Entity<S>],
    id: u32,
    group: GroupId,
    need: Need,
) -> Option<ModelFault>
    requires { Rise entities.now }
    ensures { result ≡ need_fault places.now.keys entities.now id group need }
{
    if need.entity.0 == 0 {
        return Some(ModelFault::BadValue(id));
    }
    named_fault(places, entities, id, group, need.entity, need.part)
}

/// The first request whose workplane is refused.
pub(crate) fn requests_fault<const S: u32>(
    places: &IndexSet<GroupId>,
    entities: &[Entity<S>],
    requests: &[Request],
) -> Option<ModelFault>
    requires { Rise entities.now }
    ensures { result ≡ first_fault (request_fault places.now.keys entities.now) requests.now }
{
    for request in requests {
        let (id, group) = (request.id.0, request.group);
        if let Some(fault) = workplane_fault(places, entities, id, group, request.workplane) {
            return Some(fault);
        }
    }
    None
}

// The first needed part of a constraint that is refused.
fn needs_fault<const S: u32>(
    places: &IndexSet<GroupId>,
    entities: &[Entity<S>],
    constraint: &Constraint<S>,
) -> Option<ModelFault>
    requires { Rise entities.now }
    ensures { result ≡ first_fault (need_fault places.now.keys entities.now constraint.now.id.0 constraint.now.group) (needs_of constraint.now.kind constraint.now.points constraint.now.entities) }
{
    let (id, group) = (constraint.id.0, constraint.group);
    let needs = constraint.needs();
    for need in needs {
        let Some(need) = need else {
            return None;
        };
        if let Some(fault) = need_fault(places, entities, id, group, need) {
            return Some(fault);
        }
    }
    None
}

// Why a constraint is refused for its workplane or a part that it needs, if it is.
fn constraint_fault<const S: u32>(
    places: &IndexSet<GroupId>,
    entities: &[Entity<S>],
    constraint: &Constraint<S>,
) -> Option<ModelFault>
    requires { Rise entities.now }
    ensures { result ≡ constraint_fault places.now.keys entities.now constraint.now }
{
    let (id, group) = (constraint.id.0, constraint.group);
    if let Some(fault) = workplane_fault(places, entities, id, group, constraint.workplane) {
        return Some(fault);
    }
    needs_fault(places, entities, constraint)
}

/// The first constraint whose workplane or parts are refused.
pub(crate) fn constraints_fault<const S: u32>(
    places: &IndexSet<GroupId>,
    entities: &[Entity<S>],
    constraints: &[Constraint<S>],
) -> Option<ModelFault>
    requires { Rise entities.now }
    ensures { result ≡ first_fault (constraint_fault places.now.keys entities.now) constraints.now }
{
    for constraint in constraints {
        if let Some(fault) = constraint_fault(places, entities, constraint) {
            return Some(fault);
        }
    }
    None
}
