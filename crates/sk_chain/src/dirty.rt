// The groups that a change makes dirty.

ghost use Rattle.std.specs.Prelude.{◌≡◌, ◌==◌, ◌&&◌, IfOk, OnOk, length, map, nat_eq, slice_get, true, ◌∷◌, []};
ghost use Rattle.std.specs.List.{IsDistinct, filter, list_any};
ghost use Rattle.sk_types.specs.declared.handle.GroupId.{GroupId as Handle};
ghost use Rattle.sk_types.specs.Lookups.{Rise};
ghost use Rattle.sk_chain.specs.Dependence.{IsDirtySet, constraint_leans, depends, group_leans, is_at, is_listed, leans, request_leans};
ghost use Rattle.sk_chain.specs.Known.{place_handle};
ghost use Rattle.sk_chain.specs.Leaning.{IsReached, IsTable, Notes, Reaches, ReachesFrom, listed_for};

use crate::NoMemory;
use crate::dependence::may_depend;
use crate::lookups::{place_in, places_of};
use indexmap::IndexSet;
use sk_model::Model;
use sk_num::Items;
use sk_types::{Constraint, Entity, EntityId, Group, GroupId, Outline, Request, entity_at};
use std::alloc::Global;

// Notes that a group leans on another, if that has a place.
fn note(
    places: &IndexSet<GroupId>,
    table: &mut Vec<Items<GroupId>>,
    later: GroupId,
    earlier: GroupId,
) -> Result<(), NoMemory>
    requires { length table.old.items ≡ length places.now.keys }
    ensures { OnOk result (Notes places.now.keys table.old.items table.new.items (λ (g h : Handle). later.0 == g.0 && earlier.0 == h.0)) }
{
    if let Some(place) = place_in(places, earlier) {
        table[place].push(later)?;
    }
    Ok(())
}

// Notes that a group leans on the group of an entity that it names.
fn note_named<const S: u32>(
    places: &IndexSet<GroupId>,
    entities: &[Entity<S>],
    table: &mut Vec<Items<GroupId>>,
    later: GroupId,
    named: EntityId,
) -> Result<(), NoMemory>
    requires long { length table.old.items ≡ length places.now.keys }
    requires rise { Rise entities.now }
    ensures { OnOk result (Notes places.now.keys table.old.items table.new.items (λ (g h : Handle). later.0 == g.0 && is_at entities.now h named)) }
{
    if let Some(entity) = entity_at(entities, named) {
        note(places, table, later, entity.group)?;
    }
    Ok(())
}

// Notes what a group leans on by its own fields.
fn note_group<const S: u32>(
    places: &IndexSet<GroupId>,
    entities: &[Entity<S>],
    table: &mut Vec<Items<GroupId>>,
    group: &Group<S>,
) -> Result<(), NoMemory>
    requires long { length table.old.items ≡ length places.now.keys }
    requires rise { Rise entities.now }
    ensures { OnOk result (Notes places.now.keys table.old.items table.new.items (λ (g h : Handle). group_leans entities.now g h group.now)) }
{
    note(places, table, group.id, group.source)?;
    note_named(places, entities, table, group.id, group.origin)?;
    note_named(places, entities, table, group.id, group.entity_b)?;
    note_named(places, entities, table, group.id, group.entity_c)?;
    Ok(())
}

// Notes what the group of a constraint leans on.
fn note_constraint<const S: u32>(
    places: &IndexSet<GroupId>,
    entities: &[Entity<S>],
    table: &mut Vec<Items<GroupId>>,
    constraint: &Constraint<S>,
) -> Result<(), NoMemory>
    requires long { length table.old.items ≡ length places.now.keys }
    requires rise { Rise entities.now }
    ensures { OnOk result (Notes places.now.keys table.old.items table.new.items (λ (g h : Handle). constraint_leans entities.now g h constraint.now)) }
{
    note_named(
        places,
        entities,
        table,
        constraint.group,
        constraint.workplane,
    )?;
    let needs = constraint.needs();
    for need in needs {
        let Some(need) = need else {
            return Ok(());
        };
        note_named(places, entities, table, constraint.group, need.entity)?;
    }
    Ok(())
}

fn note_groups<const S: u32>(
    places: &IndexSet<GroupId>,
    entities: &[Entity<S>],
    table: &mut Vec<Items<GroupId>>,
    groups: &[Group<S>],
) -> Result<(), NoMemory>
    requires long { length table.old.items ≡ length places.now.keys }
    requires rise { Rise entities.now }
    ensures { OnOk result (Notes places.now.keys table.old.items table.new.items (λ (g h : Handle). list_any (group_leans entities.now g h) groups.now)) }
{
    for group in groups {
        note_group(places, entities, table, group)?;
    }
    Ok(())
}

fn note_requests<const S: u32>(
    places: &IndexSet<GroupId>,
    entities: &[Entity<S>],
    table: &mut Vec<Items<GroupId>>,
    requests: &[Request],
) -> Result<(), NoMemory>
    requires long { length table.old.items ≡ length places.now.keys }
    requires rise { Rise entities.now }
    ensures { OnOk result (Notes places.now.keys table.old.items table.new.items (λ (g h : Handle). list_any (request_leans entities.now g h) requests.now)) }
{
    for request in requests {
        note_named(places, entities, table, request.group, request.workplane)?;
    }
    Ok(())
}

fn note_constraints<const S: u32>(
    places: &IndexSet<GroupId>,
    entities: &[Entity<S>],
    table: &mut Vec<Items<GroupId>>,
    constraints: &[Constraint<S>],
) -> Result<(), NoMemory>
    requires long { length table.old.items ≡ length places.now.keys }
    requires rise { Rise entities.now }
    ensures { OnOk result (Notes places.now.keys table.old.items table.new.items (λ (g h : Handle). list_any (constraint_leans entities.now g h) constraints.now)) }
{
    for constraint in constraints {
        note_constraint(places, entities, table, constraint)?;
    }
    Ok(())
}

// An empty list for each group.
fn empty_lists(alloc: Global, order: &[GroupId]) -> Result<Vec<Items<GroupId>>, NoMemory>
    ensures { IfOk result (λ v. v.items ≡ map (λ (g : Handle). []) order.now) }
{
    let mut lists = Vec::new(alloc);
    for _ in order {
        lists.push(Items::of(Vec::new(alloc)))?;
    }
    Ok(lists)
}

// For each group the groups that lean on it, by its place.
fn table_of<const S: u32>(
    alloc: Global,
    model: &Model<S>,
    places: &IndexSet<GroupId>,
    entities: &[Entity<S>],
) -> Result<Vec<Items<GroupId>>, NoMemory>
    requires { Rise entities.now }
    ensures { IfOk result (λ table. IsTable places.now.keys table.items (leans model.now.lists entities.now)) }
{
    let mut table = empty_lists(alloc, places.as_slice())?;
    note_groups(places, entities, &mut table, model.groups())?;
    note_requests(places, entities, &mut table, model.requests())?;
    note_constraints(places, entities, &mut table, model.constraints())?;
    Ok(table)
}

// Adds a group that leans on another to the dirty ones, if it may depend on that and has a place.
fn reach_one(
    places: &IndexSet<GroupId>,
    dirty: &mut IndexSet<GroupId>,
    later: GroupId,
    group: GroupId,
) -> Result<(), NoMemory>
    ensures { OnOk result (Reaches places.now.keys (later ∷ []) group dirty.old.keys dirty.new.keys) }
{
    if may_depend(later, group) && place_in(places, later).is_some() {
        dirty.insert(later)?;
    }
    Ok(())
}

// Adds the groups of a list.
fn reach(
    places: &IndexSet<GroupId>,
    dirty: &mut IndexSet<GroupId>,
    list: &[GroupId],
    group: GroupId,
) -> Result<(), NoMemory>
    ensures { OnOk result (Reaches places.now.keys list.now group dirty.old.keys dirty.new.keys) }
{
    for later in list {
        reach_one(places, dirty, *later, group)?;
    }
    Ok(())
}

// The groups that lean on a group; none where it has no place.
fn listed_for<'a>(
    places: &IndexSet<GroupId>,
    table: &'a [Items<GroupId>],
    group: GroupId,
) -> &'a [GroupId]
    requires { length table.now ≡ length places.now.keys }
    ensures { result.now ≡ listed_for places.now.keys table.now group }
{
    match place_in(places, group) {
        Some(place) => table[place].as_slice(),
        None => &[],
    }
}

// Adds the groups that depend on the next dirty one.
fn reach_from(
    places: &IndexSet<GroupId>,
    table: &[Items<GroupId>],
    dirty: &mut IndexSet<GroupId>,
    next: usize,
) -> Result<(), NoMemory>
    requires { length table.now ≡ length places.now.keys }
    ensures { OnOk result (ReachesFrom places.now.keys table.now (slice_get dirty.old.keys next) dirty.old.keys dirty.new.keys) }
{
    let Some(group) = dirty.get_index(next) else {
        return Ok(());
    };
    let group = *group;
    reach(places, dirty, listed_for(places, table, group), group)?;
    Ok(())
}

// The groups that are reached from the changed one.
fn reached(
    alloc: Global,
    places: &IndexSet<GroupId>,
    table: &[Items<GroupId>],
    changed: GroupId,
) -> Result<IndexSet<GroupId>, NoMemory>
    requires long { length table.now ≡ length places.now.keys }
    requires has { is_listed places.now.keys changed ≡ true }
    ensures { IfOk result (λ dirty. IsReached places.now.keys table.now changed dirty.keys) }
{
    let mut dirty = IndexSet::new(alloc);
    dirty.insert(changed)?;
    let mut next = 0;
    while next < dirty.len() {
        reach_from(places, table, &mut dirty, next)?;
        next += 1;
    }
    Ok(dirty)
}

// The dirty groups in their order.
fn in_order(
    alloc: Global,
    order: &[GroupId],
    dirty: &IndexSet<GroupId>,
) -> Result<Vec<GroupId>, NoMemory>
    ensures { IfOk result (λ v. v.items ≡ filter (is_listed dirty.now.keys) order.now) }
{
    let mut groups = Vec::new(alloc);
    for group in order {
        if dirty.contains(group) {
            groups.push(*group)?;
        }
    }
    Ok(groups)
}

/// The groups that a change of one makes dirty, in their order: the changed one, each group that depends on it, each that depends
/// on one of these, and so on.
///
/// Each reference is looked at once, and each group is followed once.
pub fn dirty_set<const S: u32>(
    alloc: Global,
    model: &Model<S>,
    outline: &Outline<S>,
    changed: GroupId,
) -> Result<Vec<GroupId>, NoMemory>
    requires rise { Rise outline.now.entities }
    requires distinct { IsDistinct nat_eq (map place_handle outline.now.order) }
    requires there { is_listed outline.now.order changed ≡ true }
    ensures { IfOk result (λ v. IsDirtySet (depends model.now.lists outline.now.entities) outline.now.order changed v.items) }
{
    let order = outline.order.as_slice();
    let places = places_of(alloc, order)?;
    let table = table_of(alloc, model, &places, outline.entities.as_slice())?;
    let dirty = reached(alloc, &places, table.as_slice(), changed)?;
    let groups = in_order(alloc, order, &dirty)?;
    Ok(groups)
}
