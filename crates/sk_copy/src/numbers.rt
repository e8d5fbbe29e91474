// The numbers of a group's copies.

ghost use Rattle.std.specs.Prelude.{◌≡◌, ◌≤◌, IfOk, map};
ghost use Rattle.sk_copy.specs.Known.{number_at};
ghost use Rattle.sk_copy.specs.Extended.{number_in};
ghost use Rattle.sk_copy.specs.Copies.{copy_at, copy_of, moved_copy, moved_kind, moved_numbers};

use crate::NoMemory;
use crate::planes::NONE;
use crate::wanted::Key;
use indexmap::IndexMap;
use sk_num::Items;
use sk_types::{
    Entity, EntityId, Group, Numbering, RemapEntry, entity_kind, has_numbers, is_distance,
    is_normal, is_point,
};
use std::alloc::Global;
use std::marker::Model;

/// The numbers of a group's copies, by the entity that is copied and the copy. Contracts see them as a list of pairs.
#[derive(Drop)]
pub(crate) struct Numbers {
    by_copy: IndexMap<Key, u16>,
}

impl Model for Numbers {
    ghost use Rattle.std.specs.Prelude.{ℕ, List};
    ghost use Rattle.sk_types.specs.Copies.{CopyKey};

    ghost Value = { List (CopyKey × ℕ) };

    ghost view = { λ n. n.by_copy.entries };
}

impl Numbers {
    /// The numbers of a list.
    pub(crate) fn of(alloc: Global, list: &[RemapEntry]) -> Result<Numbers, NoMemory>
        ensures { IfOk result (λ n. number_at n ≡ number_in list.now) }
    {
        let mut by_copy = IndexMap::new(alloc);
        for entry in list {
            by_copy.insert((entry.source.0, entry.copy), entry.number)?;
        }
        Ok(Numbers { by_copy })
    }

    /// The number of a copy, 0 where it has none.
    pub(crate) fn number(&self, source: EntityId, copy: u16) -> u16
        ensures { result ≡ number_at self.now (source.0, copy) }
    {
        match self.by_copy.get(&(source.0, copy)) {
            Some(number) => *number,
            None => 0,
        }
    }

    /// The copy of an entity that is named; nothing stays nothing.
    pub(crate) fn copy_at<const S: u32>(
        &self,
        group: &Group<S>,
        copy: u16,
        source: EntityId,
    ) -> EntityId
        requires { group.now.id.0 ≤ 32767 }
        ensures { result ≡ copy_at group.now (number_at self.now) copy source }
    {
        if source.0 == 0 {
            return NONE;
        }
        EntityId::of_group(group.id, self.number(source, copy))
    }

    /// The copies of all that are named.
    pub(crate) fn copies_at<const S: u32>(
        &self,
        alloc: Global,
        group: &Group<S>,
        copy: u16,
        named: &[EntityId],
    ) -> Result<Vec<EntityId>, NoMemory>
        requires { group.now.id.0 ≤ 32767 }
        ensures { IfOk result (λ v. v.items ≡ map (copy_at group.now (number_at self.now) copy) named.now) }
    {
        let mut copies = Vec::new(alloc);
        for source in named {
            copies.push(self.copy_at(group, copy, *source))?;
        }
        Ok(copies)
    }

    /// The copy of an entity, of this kind and with these numbers. What has numbers names nothing.
    pub(crate) fn copy_of<const S: u32>(
        &self,
        alloc: Global,
        group: &Group<S>,
        copy: u16,
        kind: u16,
        numbers: Numbering<S>,
        entity: &Entity<S>,
    ) -> Result<Entity<S>, NoMemory>
        requires { group.now.id.0 ≤ 32767 }
        ensures { IfOk result (λ e. e ≡ copy_of group.now (number_at self.now) copy kind numbers.entry entity.now) }
    {
        let mut copied = Entity {
            id: EntityId::of_group(group.id, self.number(entity.id, copy)),
            kind,
            group: group.id,
            construction: entity.construction,
            points: Items::of(Vec::new(alloc)),
            normal: NONE,
            distance: NONE,
            workplane: NONE,
            numbers,
        };
        if !has_numbers(entity.kind) {
            let points = self.copies_at(alloc, group, copy, entity.points.as_slice())?;
            copied.points = Items::of(points);
            copied.normal = self.copy_at(group, copy, entity.normal);
            copied.distance = self.copy_at(group, copy, entity.distance);
        }
        Ok(copied)
    }

    /// A copy of an entity, moved so many times.
    pub(crate) fn moved_copy<const S: u32>(
        &self,
        alloc: Global,
        group: &Group<S>,
        entity: &Entity<S>,
        copy: u16,
        times: i32,
    ) -> Result<Entity<S>, NoMemory>
        requires { group.now.id.0 ≤ 32767 }
        ensures { IfOk result (λ e. e ≡ moved_copy group.now (number_at self.now) entity.now (copy, times)) }
    {
        let numbers = moved_numbers(entity, times);
        self.copy_of(alloc, group, copy, moved_kind(entity.kind), numbers, entity)
    }
}

// What a moved copy of an entity of this kind is.
fn moved_kind(kind: u16) -> u16
    ensures { result ≡ moved_kind kind }
{
    if is_point(kind) {
        entity_kind::MOVED_POINT
    } else if is_normal(kind) {
        entity_kind::COPIED_NORMAL
    } else if is_distance(kind) {
        entity_kind::COPIED_DISTANCE
    } else {
        kind
    }
}

// Where the numbers of a moved copy come from.
fn moved_numbers<const S: u32>(entity: &Entity<S>, times: i32) -> Numbering<S>
    ensures { result ≡ moved_numbers times entity.now }
{
    if is_point(entity.kind) {
        Numbering::Moved {
            of_entity: entity.id,
            times,
        }
    } else if has_numbers(entity.kind) {
        Numbering::Copied(entity.id)
    } else {
        Numbering::Nothing
    }
}
