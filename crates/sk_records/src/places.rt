// Where the records of each kind stand in the list of items.
ghost use Rattle.std.specs.Prelude.{◌≡◌, ◌<◌, ◌+◌, ◌^◌, ◌++◌, List, length, IfOk, slice_index, OnOk};
ghost use Rattle.std.specs.Prelude.{slice_set, remove};
ghost use Rattle.sk_records.specs.Holding.Places.{places_from, all_places, lists_of, list_of, holds};
ghost use Rattle.sk_records.specs.Kinds.{kind_place};

use crate::NoMemory;
use crate::items::Item;
use crate::kinds::{Kind, RecId};
use std::alloc::Global;

/// Whether an item is a record of a kind.
pub(crate) fn holds(item: &Item, kind: Kind) -> bool
    ensures { result ≡ holds kind item.now }
{
    match item {
        Item::Held(record) => record.kind.is(kind),
        _ => false,
    }
}

/// Puts the places of the records of a kind behind others, counted from a base. At an `Err` some may have been put.
pub(crate) fn push_places(
    places: &mut Vec<usize>,
    items: &[Item],
    kind: Kind,
    base: usize,
) -> Result<(), NoMemory>
    requires { base + length items.now < 2 ^ 64 }
    ensures { OnOk result (places.new.items ≡ places.old.items ++ places_from kind base items.now) }
{
    for (i, item) in items.iter().enumerate() {
        if holds(item, kind) {
            places.push(base + i)?;
        }
    }
    Ok(())
}

// The places of the records of a kind.
fn places_of(alloc: Global, items: &[Item], kind: Kind) -> Result<Vec<usize>, NoMemory>
    ensures { IfOk result (λ places. places.items ≡ places_from kind 0 items.now) }
{
    let mut places = Vec::new(alloc);
    push_places(&mut places, items, kind, 0)?;
    Ok(places)
}

/// The places of the records of every kind, one list a kind, in the order of kinds.
pub(crate) fn all_places(alloc: Global, items: &[Item]) -> Result<Vec<Vec<usize>>, NoMemory>
    ensures { IfOk result (λ places. lists_of places.items ≡ all_places items.now) }
{
    let mut places = Vec::new(alloc);
    places.push(places_of(alloc, items, Kind::Group)?)?;
    places.push(places_of(alloc, items, Kind::Param)?)?;
    places.push(places_of(alloc, items, Kind::Request)?)?;
    places.push(places_of(alloc, items, Kind::Entity)?)?;
    places.push(places_of(alloc, items, Kind::Constraint)?)?;
    places.push(places_of(alloc, items, Kind::Style)?)?;
    Ok(places)
}

/// How many records of a kind there are.
pub(crate) fn count(places: &[Vec<usize>], items: &[Item], kind: Kind) -> usize
    requires { lists_of places.now ≡ all_places items.now }
    ensures { result ≡ length (places_from kind 0 items.now) }
{
    places[kind.place()].len()
}

/// The place of a record.
pub(crate) fn place_of(places: &[Vec<usize>], items: &[Item], rec: RecId) -> usize
    requires index { lists_of places.now ≡ all_places items.now }
    requires exists { rec.place < length (places_from rec.kind 0 items.now) }
    ensures place { result ≡ slice_index (places_from rec.kind 0 items.now) rec.place }
    ensures below { result < length items.now }
{
    places[rec.kind.place()][rec.place]
}

/// Takes a record's place off the list of its kind.
pub(crate) fn remove_place(places: &mut Vec<Vec<usize>>, rec: RecId)
    requires kinds { length places.old.items ≡ 6 }
    requires exists { rec.place < length (list_of rec.kind (lists_of places.old.items)) }
    ensures { lists_of places.new.items ≡ slice_set (lists_of places.old.items) (kind_place rec.kind) (remove (list_of rec.kind (lists_of places.old.items)) rec.place) }
{
    let _place = places[rec.kind.place()].remove(rec.place);
}
