// Remap lists, extended copy by copy.

ghost use Rattle.std.specs.Prelude.{◌≡◌, ◌≤◌, ◌⊎◌, IfOk, IfErr, Some, None};
ghost use Rattle.sk_types.specs.Lookups.{Rise};
ghost use Rattle.sk_copy.specs.Extended.{extended};
ghost use Rattle.sk_copy.specs.Wanted.{wanted};

use crate::NoMemory;
use crate::fault::CopyFault;
use crate::wanted::{Key, ends_by, wanted_as};
use indexmap::IndexSet;
use sk_types::{Entity, EntityId, Group, RemapEntry};
use std::alloc::Global;
use std::marker::Model;

/// A remap list that grows: the copies that it has, and its greatest number, are known. Contracts see it as the list.
#[derive(Drop)]
pub(crate) struct Listing {
    entries: Vec<RemapEntry>,
    seen: IndexSet<Key>,
    top: u16,
}

impl Model for Listing {
    ghost use Rattle.std.specs.Prelude.{◌≡◌, List};
    ghost use Rattle.std.specs.List.{list_any};
    ghost use Rattle.sk_types.specs.declared.group.RemapEntry.{RemapEntry};
    ghost use Rattle.sk_types.specs.Copies.{CopyKey, same_copy};
    ghost use Rattle.sk_copy.specs.Extended.{greatest, has_copy};

    ghost Value = { List RemapEntry };

    ghost view = { λ l. l.entries.items };

    ghost invariant = { λ l. (l.top ≡ greatest l.entries.items) × ((c : CopyKey) → list_any (same_copy c) l.seen.keys ≡ has_copy c l.entries.items) };
}

impl Listing {
    /// The list.
    pub(crate) fn of(alloc: Global, list: &[RemapEntry]) -> Result<Listing, NoMemory>
        ensures { IfOk result (λ l. l ≡ list.now) }
    {
        let mut entries = Vec::new(alloc);
        let mut seen = IndexSet::new(alloc);
        let mut top = 0;
        for entry in list {
            entries.push(*entry)?;
            seen.insert((entry.source.0, entry.copy))?;
            top = entry.number.max(top);
        }
        Ok(Listing { entries, seen, top })
    }

    /// The list with those of these copies that it lacks.
    pub(crate) fn with_copies(self, keys: &[Key]) -> Result<Listing, CopyFault>
        ensures done { IfOk result (λ l. extended keys.now self ≡ Some l) }
        ensures full { IfErr result (λ e. (e ≡ CopyFault.NoMemory) ⊎ ((e ≡ CopyFault.Full) × (extended keys.now self ≡ None))) }
    {
        let Listing {
            mut entries,
            mut seen,
            mut top,
        } = self;
        for key in keys {
            if !seen.insert(*key)? {
                continue;
            }
            if top == u16::MAX {
                return Err(CopyFault::Full);
            }
            top += 1;
            let (source, copy) = *key;
            entries.push(RemapEntry {
                number: top,
                source: EntityId(source),
                copy,
            })?;
        }
        Ok(Listing { entries, seen, top })
    }

    /// The list's entries.
    pub(crate) fn into_entries(self) -> Vec<RemapEntry>
        ensures { result.items ≡ self }
    {
        let Listing { entries, .. } = self;
        entries
    }
}

/// A list extended by the copies that a group has of these entities and it lacks. It ends at the first number that is full.
pub(crate) fn extended<const S: u32>(
    alloc: Global,
    group: &Group<S>,
    source: &[Entity<S>],
    list: &[RemapEntry],
) -> Result<Vec<RemapEntry>, CopyFault>
    requires copies { group.now.copies ≤ 999 }
    requires rise { Rise source.now }
    ensures done { IfOk result (λ v. extended (wanted group.now source.now) list.now ≡ Some v.items) }
    ensures full { IfErr result (λ e. (e ≡ CopyFault.NoMemory) ⊎ ((e ≡ CopyFault.Full) × (extended (wanted group.now source.now) list.now ≡ None))) }
{
    let ends = ends_by(alloc, group.kind)?;
    let mut listing = Listing::of(alloc, list)?.with_copies(&ends)?;
    for entity in source {
        let keys = wanted_as(alloc, group, source, entity)?;
        listing = listing.with_copies(&keys)?;
    }
    Ok(listing.into_entries())
}
