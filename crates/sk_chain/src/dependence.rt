// Which groups depend on which.

ghost use Rattle.std.specs.Prelude.{◌≡◌};
ghost use Rattle.std.specs.List.{list_any};
ghost use Rattle.sk_types.specs.Lookups.{Rise};
ghost use Rattle.sk_types.specs.Needs.{needs_of};
ghost use Rattle.sk_chain.specs.Dependence.{constraint_leans, depends, group_leans, is_at, is_needed, may_depend, request_leans};

use sk_model::Model;
use sk_types::{Constraint, Entity, EntityId, Group, GroupId, Need, Outline, Request, entity_at};

// Whether an entity that is named is there, and of the group.
fn is_at<const S: u32>(entities: &[Entity<S>], group: GroupId, named: EntityId) -> bool
    requires { Rise entities.now }
    ensures { result ≡ is_at entities.now group named }
{
    match entity_at(entities, named) {
        Some(entity) => entity.group.0 == group.0,
        None => false,
    }
}

// Whether the entity of a needed part is of the group.
fn is_needed<const S: u32>(entities: &[Entity<S>], group: GroupId, need: Need) -> bool
    requires { Rise entities.now }
    ensures { result ≡ is_needed entities.now group need }
{
    is_at(entities, group, need.entity)
}

// Whether one of the entities that a constraint needs is of the group.
fn needs_one<const S: u32>(
    entities: &[Entity<S>],
    earlier: GroupId,
    constraint: &Constraint<S>,
) -> bool
    requires { Rise entities.now }
    ensures { result ≡ list_any (is_needed entities.now earlier) (needs_of constraint.now.kind constraint.now.points constraint.now.entities) }
{
    let needs = constraint.needs();
    for need in needs {
        let Some(need) = need else {
            return false;
        };
        if is_needed(entities, earlier, need) {
            return true;
        }
    }
    false
}

fn names_one<const S: u32>(entities: &[Entity<S>], earlier: GroupId, names: &[EntityId]) -> bool
    requires { Rise entities.now }
    ensures { result ≡ list_any (is_at entities.now earlier) names.now }
{
    for named in names {
        if is_at(entities, earlier, *named) {
            return true;
        }
    }
    false
}

// Whether a group is the later one and names the earlier one, or an entity of it.
fn group_leans<const S: u32>(
    entities: &[Entity<S>],
    later: GroupId,
    earlier: GroupId,
    group: &Group<S>,
) -> bool
    requires { Rise entities.now }
    ensures { result ≡ group_leans entities.now later earlier group.now }
{
    let names = [group.origin, group.entity_b, group.entity_c];
    group.id.0 == later.0 && (group.source.0 == earlier.0 || names_one(entities, earlier, &names))
}

// Whether a request is of the later group and names an entity of the earlier one.
fn request_leans<const S: u32>(
    entities: &[Entity<S>],
    later: GroupId,
    earlier: GroupId,
    request: &Request,
) -> bool
    requires { Rise entities.now }
    ensures { result ≡ request_leans entities.now later earlier request.now }
{
    request.group.0 == later.0 && is_at(entities, earlier, request.workplane)
}

// Whether a constraint is of the later group and names an entity of the earlier one.
fn constraint_leans<const S: u32>(
    entities: &[Entity<S>],
    later: GroupId,
    earlier: GroupId,
    constraint: &Constraint<S>,
) -> bool
    requires { Rise entities.now }
    ensures { result ≡ constraint_leans entities.now later earlier constraint.now }
{
    constraint.group.0 == later.0
        && (is_at(entities, earlier, constraint.workplane)
            || needs_one(entities, earlier, constraint))
}

fn groups_lean<const S: u32>(
    entities: &[Entity<S>],
    later: GroupId,
    earlier: GroupId,
    groups: &[Group<S>],
) -> bool
    requires { Rise entities.now }
    ensures { result ≡ list_any (group_leans entities.now later earlier) groups.now }
{
    for group in groups {
        if group_leans(entities, later, earlier, group) {
            return true;
        }
    }
    false
}

fn requests_lean<const S: u32>(
    entities: &[Entity<S>],
    later: GroupId,
    earlier: GroupId,
    requests: &[Request],
) -> bool
    requires { Rise entities.now }
    ensures { result ≡ list_any (request_leans entities.now later earlier) requests.now }
{
    for request in requests {
        if request_leans(entities, later, earlier, request) {
            return true;
        }
    }
    false
}

fn constraints_lean<const S: u32>(
    entities: &[Entity<S>],
    later: GroupId,
    earlier: GroupId,
    constraints: &[Constraint<S>],
) -> bool
    requires { Rise entities.now }
    ensures { result ≡ list_any (constraint_leans entities.now later earlier) constraints.now }
{
    for constraint in constraints {
        if constraint_leans(entities, later, earlier, constraint) {
            return true;
        }
    }
    false
}

/// Whether a group may depend on another: group 1 depends on none, and no group on itself.
pub(crate) fn may_depend(later: GroupId, earlier: GroupId) -> bool
    ensures { result ≡ may_depend later earlier }
{
    later.0 != earlier.0 && later.0 != 1
}

/// Whether a group depends on another: they differ, the later one isn't group 1, and its source is the earlier one, or it names
/// an entity of it: in a field of its own, as the workplane of one of its requests, or as the workplane or a needed part of one
/// of its constraints. Fields count as they are stored, and references count as other constraints do.
#[tactic(auto, unfolding(crate::specs::Dependence::depends))]
pub fn depends<const S: u32>(
    model: &Model<S>,
    outline: &Outline<S>,
    later: GroupId,
    earlier: GroupId,
) -> bool
    requires { Rise outline.now.entities }
    ensures { result ≡ depends model.now.lists outline.now.entities later earlier }
{
    if !may_depend(later, earlier) {
        return false;
    }
    let entities = outline.entities.as_slice();
    groups_lean(entities, later, earlier, model.groups())
        || requests_lean(entities, later, earlier, model.requests())
        || constraints_lean(entities, later, earlier, model.constraints())
}
