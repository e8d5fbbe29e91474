// What groups make, one behind the other.

ghost use Rattle.std.specs.Prelude.{◌≡◌, IfOk, OnOk, Some, map, nat_eq};
ghost use Rattle.std.specs.List.{All, IsDistinct};
ghost use Rattle.sk_num.specs.Scale.{IsScale};
ghost use Rattle.sk_types.specs.Lookups.{Rise};
ghost use Rattle.sk_copy.specs.Order.{by_handle};
ghost use Rattle.sk_model.specs.Chain.{IsAnswer};
ghost use Rattle.sk_model.specs.Checked.{IsCheckedGroup, IsCheckedRequest};
ghost use Rattle.sk_model.specs.Lists.{items_of};
ghost use Rattle.sk_model.specs.Typed.{request_handle};
ghost use Rattle.sk_chain.specs.Lookups.{group_at};
ghost use Rattle.sk_chain.specs.Made.{copied_by, drawn_in, made_by, model_fault, one_made};
ghost use Rattle.sk_chain.specs.Outlines.{groups_made};
ghost use Rattle.sk_chain.specs.Known.{AllOwn, AllRise};
ghost use Rattle.sk_chain.specs.Order.{group_order};

use crate::NoMemory;
use crate::earlier::names_fault;
use crate::lookups::group_at;
use crate::made::{Made, are_many, made_in};
use sk_copy::{CopyFault, copies};
use sk_entity::request_entities;
use sk_link::Parts;
use sk_model::{Model, ModelFault, What};
use sk_num::Items;
use sk_types::{Entity, Group, GroupId, GroupKind, Request};
use std::alloc::Global;

// The entities of the requests of a group.
fn drawn_in<const S: u32>(
    alloc: Global,
    requests: &[Request],
    group: GroupId,
) -> Result<Vec<Entity<S>>, NoMemory>
    requires { All IsCheckedRequest requests.now }
    ensures { IfOk result (λ v. v.items ≡ drawn_in S group.0 requests.now) }
{
    let mut drawn = Vec::new(alloc);
    for request in requests {
        if request.group.0 == group.0 {
            let mut entities = request_entities(alloc, request)?;
            drawn.append(&mut entities)?;
        }
    }
    Ok(drawn)
}

// The entities that a group copies: those of its source group, or of its part.
fn copied_by<'a, const S: u32>(
    parts: &'a Parts<S>,
    made: &'a [Made<S>],
    group: &Group<S>,
) -> &'a [Entity<S>]
    requires { AllRise made.now }
    ensures entities { result.now ≡ copied_by group.now.kind parts.now made.now group.now }
    ensures rise { Rise result.now }
{
    match group.kind {
        GroupKind::Space | GroupKind::Plane => &[],
        GroupKind::Extrude | GroupKind::Translate => made_in(made, group.source),
        GroupKind::Linked => parts.entities(group.id),
    }
}

// The fault of a group whose copies are refused.
fn model_fault(group: GroupId, fault: CopyFault) -> ModelFault
    ensures { result ≡ model_fault group fault }
{
    match fault {
        CopyFault::Full => ModelFault::TooMany(What::Remap),
        CopyFault::PastLimit => ModelFault::BadValue(group.0),
        CopyFault::NoMemory => ModelFault::NoMemory,
    }
}

/// Puts entities in rising handle order.
pub(crate) fn put_in_order<const S: u32>(entities: &mut Vec<Entity<S>>) -> Result<(), NoMemory>
    ensures { OnOk result (entities.new.items ≡ by_handle entities.old.items) }
{
    let handle = |entity: &Entity<S>| -> u32
        ensures { result ≡ entity.now.id.0 }
    { entity.id.0 };
    entities.sort_by_key(handle)
}

// What a group makes, where it names nothing that is refused.
#[tactic(auto, unfolding(crate::specs::Made::made_by))]
fn made_by<const S: u32>(
    alloc: Global,
    requests: &[Request],
    parts: &Parts<S>,
    made: &[Made<S>],
    group: &Group<S>,
) -> Result<Made<S>, ModelFault>
    requires scale { IsScale S }
    requires requests { All IsCheckedRequest requests.now }
    requires group { IsCheckedGroup group.now }
    requires rise { AllRise made.now }
    ensures value { IsAnswer result (made_by requests.now parts.now made.now group.now) }
    ensures source { Rise (copied_by group.now.kind parts.now made.now group.now) }
{
    let source = copied_by(parts, made, group);
    let mut entities = drawn_in(alloc, requests, group.id)?;
    let mut list = group.remap.copy(alloc)?.into_vec();
    let mut copied = match copies(alloc, group, source, &mut list) {
        Ok(copied) => copied,
        Err(fault) => return Err(model_fault(group.id, fault)),
    };
    entities.append(&mut copied)?;
    put_in_order(&mut entities)?;
    Ok(Made {
        group: group.id,
        list: Items::of(list),
        entities: Items::of(entities),
    })
}

// One group more: what it names, then what it makes, then how many entities there are.
fn one_made<const S: u32>(
    alloc: Global,
    requests: &[Request],
    groups: &[Group<S>],
    parts: &Parts<S>,
    mut made: Vec<Made<S>>,
    group: &Group<S>,
) -> Result<Vec<Made<S>>, ModelFault>
    requires scale { IsScale S }
    requires requests { All IsCheckedRequest requests.now }
    requires apart { IsDistinct nat_eq (map request_handle requests.now) }
    requires there { group_at group.now.id.0 groups.now ≡ Some group.now }
    requires group { IsCheckedGroup group.now }
    requires own { AllOwn requests.now groups.now made.items }
    ensures value { IsAnswer (items_of result) (one_made requests.now groups.now parts.now made.entry.items group.now) }
    ensures own { IfOk result (λ v. AllOwn requests.now groups.now v.items) }
{
    if let Some(fault) = names_fault(requests, groups, &made, group) {
        return Err(fault);
    }
    let one = made_by(alloc, requests, parts, &made, group)?;
    made.push(one)?;
    if are_many(&made) {
        return Err(ModelFault::TooMany(What::Entities));
    }
    Ok(made)
}

/// What all groups of a model make, in group order, or the first fault of what they name and make.
#[tactic(auto, unfolding(crate::specs::Outlines::groups_made))]
pub(crate) fn groups_made<const S: u32>(
    alloc: Global,
    model: &Model<S>,
    parts: &Parts<S>,
    order: &[GroupId],
) -> Result<Vec<Made<S>>, ModelFault>
    requires scale { IsScale S }
    requires order { order.now ≡ group_order model.now.lists.groups }
    ensures value { IsAnswer (items_of result) (groups_made parts.now model.now.lists) }
    ensures own { IfOk result (λ v. AllOwn model.now.lists.requests model.now.lists.groups v.items) }
{
    let (requests, groups) = (model.requests(), model.groups());
    let mut made = Vec::new(alloc);
    for id in order {
        let group = match group_at(groups, *id) {
            Some(group) => group,
            None => continue,
        };
        made = one_made(alloc, requests, groups, parts, made, group)?;
    }
    Ok(made)
}
