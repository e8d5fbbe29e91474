// What one entity record stores.

ghost use Rattle.std.specs.Prelude.{◌≡◌, IfOk};
ghost use Rattle.sk_num.specs.Scale.{IsScale};
ghost use Rattle.sk_records.specs.Answers.{IsAnswer};
ghost use Rattle.sk_link.specs.Stored.{named_points, number_of, stored, stored_entity, stored_numbers, stored_of};

use crate::NoMemory;
use crate::entity_keys::EntityKeys;
use crate::fault::Refusal;
use crate::fields::Fields;
use sk_num::Items;
use sk_types::{Entity, EntityId, GroupId, Numbering, is_distance, is_normal, is_point};
use std::alloc::Global;

/// The handle of an entity record, and its entity, if its number is one.
#[derive(Drop)]
pub(crate) struct Stored<const S: u32> {
    pub(crate) handle: u32,
    pub(crate) entity: Option<Entity<S>>,
}

// The number of an entity, from 0 to 65535.
fn number_of(kind: i32) -> Option<u16>
    ensures { result ≡ number_of kind }
{
    if kind < 0 || kind > 65535 {
        return None;
    }
    Some(kind.unsigned_abs() as u16)
}

// The names up to the last that names something.
fn named_points(alloc: Global, points: [EntityId; 3]) -> Result<Vec<EntityId>, NoMemory>
    ensures { IfOk result (λ v. v.items ≡ named_points points) }
{
    let [first, second, third] = points;
    if third.0 != 0 {
        Vec::from_slice(alloc, &[first, second, third])
    } else if second.0 != 0 {
        Vec::from_slice(alloc, &[first, second])
    } else if first.0 != 0 {
        Vec::from_slice(alloc, &[first])
    } else {
        Ok(Vec::new(alloc))
    }
}

// Where an entity of this number stands.
fn stored_numbers<const S: u32>(keys: &EntityKeys<S>, number: u16) -> Numbering<S>
    ensures { result ≡ stored_numbers keys.now number }
{
    if is_point(number) {
        Numbering::Placed(keys.place)
    } else if is_normal(number) {
        Numbering::Placed(keys.turn)
    } else if is_distance(number) {
        Numbering::Placed(keys.length)
    } else {
        Numbering::Nothing
    }
}

// The entity of a record, by its number.
fn stored_entity<const S: u32>(
    alloc: Global,
    keys: &EntityKeys<S>,
    number: u16,
) -> Result<Entity<S>, NoMemory>
    ensures { IfOk result (λ e. e ≡ stored_entity keys.now number) }
{
    let points = named_points(alloc, keys.points)?;
    Ok(Entity {
        id: EntityId(keys.id),
        kind: number,
        group: GroupId(0),
        construction: keys.construction,
        points: Items::of(points),
        normal: EntityId(keys.normal),
        distance: EntityId(keys.distance),
        workplane: EntityId(0),
        numbers: stored_numbers(keys, number),
    })
}

impl<const S: u32> Stored<S> {
    // What a record of these values stores.
    fn of(alloc: Global, keys: &EntityKeys<S>) -> Result<Stored<S>, NoMemory>
        ensures { IfOk result (λ x. x ≡ stored_of keys.now) }
    {
        let handle = keys.id;
        let Some(number) = number_of(keys.kind) else {
            return Ok(Stored {
                handle,
                entity: None,
            });
        };
        let entity = stored_entity(alloc, keys, number)?;
        Ok(Stored {
            handle,
            entity: Some(entity),
        })
    }

    /// What an entity record stores, or the first value of it that doesn't read.
    pub(crate) fn read(alloc: Global, fields: &Fields<'_>) -> Result<Stored<S>, Refusal>
        requires { IsScale S }
        ensures { IsAnswer Refusal.NoMemory result (stored S fields.now) }
    {
        let keys = EntityKeys::read(fields)?;
        let stored = Stored::of(alloc, &keys)?;
        Ok(stored)
    }
}
