// The outline of a model.

ghost use Rattle.std.specs.Prelude.{◌≡◌, IfOk, OnOk, OnErr, map, nat_eq};
ghost use Rattle.std.specs.List.{All, IsDistinct};
ghost use Rattle.sk_num.specs.Scale.{IsScale};
ghost use Rattle.sk_types.specs.Lookups.{Rise};
ghost use Rattle.sk_copy.specs.Order.{by_handle};
ghost use Rattle.sk_model.specs.Chain.{IsAnswer};
ghost use Rattle.sk_model.specs.Changes.{list_handle, lists_set};
ghost use Rattle.sk_model.specs.Settable.{IsGroupList};
ghost use Rattle.sk_chain.specs.Laws.{IsOutlineOf};
ghost use Rattle.sk_chain.specs.Lent.{outlined_in};
ghost use Rattle.sk_chain.specs.Made.{all_made};
ghost use Rattle.sk_chain.specs.Order.{group_order};
ghost use Rattle.sk_chain.specs.Outlines.{entities_fault, groups_fault, lists_in, lists_of, outline_in, outline_over, outlined, relisted};

use crate::NoMemory;
use crate::lookups::places_of;
use crate::made::Made;
use crate::making::{groups_made, put_in_order};
use crate::named::{
    constraint_group_fault, constraints_fault, request_group_fault, requests_fault,
};
use crate::order::order_of;
use crate::sizes::size_fault;
use indexmap::IndexSet;
use sk_link::Parts;
use sk_model::{GroupList, Model, ModelFault};
use sk_num::Items;
use sk_types::{Entity, GroupId, Outline};
use std::alloc::Global;

/// The groups in their order: group 1 first, then the others by rising order, ties by rising handle.
pub fn order_groups<const S: u32>(alloc: Global, model: &Model<S>) -> Result<Vec<GroupId>, NoMemory>
    ensures { IfOk result (λ v. v.items ≡ group_order model.now.lists.groups) }
{
    order_of(alloc, model.groups())
}

// The first fault of the groups that are named.
#[tactic(auto, unfolding(crate::specs::Outlines::groups_fault))]
fn groups_fault<const S: u32>(model: &Model<S>, places: &IndexSet<GroupId>) -> Option<ModelFault>
    ensures { result ≡ groups_fault model.now.lists places.now.keys }
{
    if let Some(fault) = request_group_fault(places, model.requests()) {
        return Some(fault);
    }
    constraint_group_fault(places, model.constraints())
}

// The first fault of the entities that are named, and of the groups' sizes.
#[tactic(auto, unfolding(crate::specs::Outlines::entities_fault))]
fn entities_fault<const S: u32>(
    alloc: Global,
    model: &Model<S>,
    places: &IndexSet<GroupId>,
    entities: &[Entity<S>],
) -> Result<Option<ModelFault>, NoMemory>
    requires places { places.now.keys ≡ group_order model.now.lists.groups }
    requires rising { Rise entities.now }
    ensures { IfOk result (λ fault. fault ≡ entities_fault model.now.lists places.now.keys entities.now) }
{
    if let Some(fault) = requests_fault(places, entities, model.requests()) {
        return Ok(Some(fault));
    }
    if let Some(fault) = constraints_fault(places, entities, model.constraints()) {
        return Ok(Some(fault));
    }
    size_fault(alloc, places, model.groups(), entities, model.constraints())
}

// All entities of the groups that are made, by rising handle, and their remap lists.
fn gathered<const S: u32>(
    alloc: Global,
    made: Vec<Made<S>>,
) -> Result<(Vec<Entity<S>>, Vec<GroupList>), NoMemory>
    ensures entities { IfOk result (λ r. r.0.items ≡ by_handle (all_made made.entry.items)) }
    ensures lists { IfOk result (λ r. r.1.items ≡ lists_of made.entry.items) }
{
    let mut entities = Vec::new(alloc);
    let mut lists = Vec::new(alloc);
    for one in made {
        let mut more = one.entities.into_vec();
        entities.append(&mut more)?;
        lists.push(GroupList {
            group: one.group,
            entries: one.list,
        })?;
    }
    put_in_order(&mut entities)?;
    Ok((entities, lists))
}

// The outline over what the groups make, and the remap lists that they have then.
fn outline_over<const S: u32>(
    alloc: Global,
    model: &Model<S>,
    places: &IndexSet<GroupId>,
    order: Vec<GroupId>,
    made: Vec<Made<S>>,
) -> Result<(Outline<S>, Vec<GroupList>), ModelFault>
    requires places { places.now.keys ≡ group_order model.now.lists.groups }
    requires order { order.items ≡ group_order model.now.lists.groups }
    requires rise { Rise (by_handle (all_made made.items)) }
    ensures { IsAnswer (outlined_in result) (outline_over model.now.lists made.entry.items) }
{
    let (entities, lists) = gathered(alloc, made)?;
    if let Some(fault) = entities_fault(alloc, model, places, &entities)? {
        return Err(fault);
    }
    let outline = Outline {
        order: Items::of(order),
        entities: Items::of(entities),
    };
    Ok((outline, lists))
}

/// The outline of a model, as `outline` gives it, and the remap lists that its groups have then, in group order. The model stays as
/// it is.
pub fn outlined<const S: u32>(
    alloc: Global,
    model: &Model<S>,
    parts: &Parts<S>,
) -> Result<(Outline<S>, Vec<GroupList>), ModelFault>
    requires { IsScale S }
    ensures value { IsAnswer (outlined_in result) (outlined parts.now model.now.lists) }
    ensures outline { IfOk result (λ r. IsOutlineOf model.now.lists r.0) }
    ensures lists { IfOk result (λ r. All (IsGroupList model.now.lists.groups) r.1.items) }
    ensures differ { IfOk result (λ r. IsDistinct nat_eq (map list_handle r.1.items)) }
{
    let order = order_of(alloc, model.groups())?;
    let places = places_of(alloc, &order)?;
    if let Some(fault) = groups_fault(model, &places) {
        return Err(fault);
    }
    let made = groups_made(alloc, model, parts, &order)?;
    let outlined = outline_over(alloc, model, &places, order, made)?;
    Ok(outlined)
}

/// The order of a model's groups and all its entities, over the parts of its linked groups, or its first fault.
///
/// First every request's and then every constraint's group has to be there. Then group by group, in their order: what the group
/// names has to be made by earlier groups, and to fit; then it makes its entities, and their copies are numbered in its remap
/// list. Then every request's workplane, and every constraint's workplane and needed parts, have to be there, not to be of a
/// later group, and to fit. Last no group may have more than 400 unknowns, or rows.
///
/// On Ok the model's remap lists are the extended ones: a list that doesn't grow stays as it was read, and nothing else changes.
/// At an `Err` the model is as it was.
pub fn outline<const S: u32>(
    alloc: Global,
    model: &mut Model<S>,
    parts: &Parts<S>,
) -> Result<Outline<S>, ModelFault>
    requires { IsScale S }
    ensures value { IsAnswer result (outline_in (outlined parts.now model.old.lists)) }
    ensures outline { IfOk result (IsOutlineOf model.old.lists) }
    ensures blocks { OnOk result (model.new.blocks ≡ lists_set (lists_in (outlined parts.now model.old.lists)) model.old.lists.groups model.old.blocks) }
    ensures lists { OnOk result (model.new.lists ≡ relisted (lists_in (outlined parts.now model.old.lists)) model.old.lists) }
    ensures err { OnErr result (model.new ≡ model.old) }
{
    let (outline, lists) = outlined(alloc, model, parts)?;
    model.set_remaps(lists)?;
    Ok(outline)
}
