// What belongs to each group, picked out once.
#![tactic(auto)]

ghost use Rattle.std.specs.Prelude.{◌≡◌, ◌==◌, ◌<◌, ◌++◌, ◌∷◌, [], ℕ, length, if◌then◌else◌, IfOk, OnOk};
ghost use Rattle.sk_system.specs.Shares.{AreParted, constraint_group, entity_group, list_at};

use crate::NoMemory;
use sk_num::Items;
use sk_types::{Constraint, Entity, GroupId};
use std::alloc::Global;

/// What belongs to one group, lent.
#[derive(Clone, Copy)]
pub struct Share<'a, const S: u32> {
    /// Its entities, by handle.
    pub entities: &'a [Entity<S>],
    /// Its constraints, in the order of the file.
    pub constraints: &'a [Constraint<S>],
}

/// What belongs to each group: its entities and its constraints, in their order, at the group's number.
#[derive(Debug, Drop)]
pub struct Shares<const S: u32> {
    entities: Vec<Items<Entity<S>>>,
    constraints: Vec<Items<Constraint<S>>>,
}

/// Puts empty lists behind others, until one stands at a place.
fn reach<T: Drop>(lists: &mut Vec<Items<T>>, place: usize) -> Result<(), NoMemory>
    ensures reached { OnOk result (place < length lists.new.items) }
    ensures same { OnOk result ((g : ℕ) → list_at lists.new.items g ≡ list_at lists.old.items g) }
{
    let alloc = *lists.allocator();
    while lists.len() <= place {
        lists.push(Items::of(Vec::new(alloc)))?;
    }
    Ok(())
}

/// Puts one thing behind those of its group.
fn put<T: Drop>(lists: &mut Vec<Items<T>>, group: GroupId, thing: T) -> Result<(), NoMemory>
    ensures { OnOk result ((g : ℕ) → list_at lists.new.items g ≡ list_at lists.old.items g ++ (if group.0 == g then thing ∷ [] else [])) }
{
    let place = group.0 as usize;
    reach(lists, place)?;
    lists[place].push(thing)?;
    Ok(())
}

/// An equal entity.
fn copied<const S: u32>(alloc: Global, entity: &Entity<S>) -> Result<Entity<S>, NoMemory>
    ensures { IfOk result (λ e. e ≡ entity.now) }
{
    Ok(Entity {
        points: entity.points.copy(alloc)?,
        ..*entity
    })
}

/// The entities of each group.
fn entities_by<const S: u32>(
    alloc: Global,
    entities: &[Entity<S>],
) -> Result<Vec<Items<Entity<S>>>, NoMemory>
    ensures { IfOk result (λ v. AreParted entity_group entities.now v.items) }
{
    let mut lists = Vec::new(alloc);
    for entity in entities {
        put(&mut lists, entity.group, copied(alloc, entity)?)?;
    }
    Ok(lists)
}

/// The constraints of each group.
fn constraints_by<const S: u32>(
    alloc: Global,
    constraints: &[Constraint<S>],
) -> Result<Vec<Items<Constraint<S>>>, NoMemory>
    ensures { IfOk result (λ v. AreParted constraint_group constraints.now v.items) }
{
    let mut lists = Vec::new(alloc);
    for constraint in constraints {
        put(&mut lists, constraint.group, *constraint)?;
    }
    Ok(lists)
}

/// The list of a group; an empty one where it has none.
fn list_of<T>(lists: &[Items<T>], group: GroupId) -> &[T]
    ensures { result.now ≡ list_at lists.now group.0 }
{
    match lists.get(group.0 as usize) {
        Some(list) => list.as_slice(),
        None => &[],
    }
}

impl<const S: u32> Shares<S> {
    /// What belongs to each group, of these entities and constraints, in one pass over each.
    pub fn of(
        alloc: Global,
        entities: &[Entity<S>],
        constraints: &[Constraint<S>],
    ) -> Result<Shares<S>, NoMemory>
        ensures entities { IfOk result (λ x. AreParted entity_group entities.now x.entities.items) }
        ensures constraints { IfOk result (λ x. AreParted constraint_group constraints.now x.constraints.items) }
    {
        Ok(Shares {
            entities: entities_by(alloc, entities)?,
            constraints: constraints_by(alloc, constraints)?,
        })
    }

    /// What belongs to a group.
    pub fn share(&self, group: GroupId) -> Share<'_, S>
        ensures entities { result.entities.now ≡ list_at self.now.entities.items group.0 }
        ensures constraints { result.constraints.now ≡ list_at self.now.constraints.items group.0 }
    {
        Share {
            entities: list_of(&self.entities, group),
            constraints: list_of(&self.constraints, group),
        }
    }
}
