// Records of a kind that are made anew.
ghost use Rattle.std.specs.Prelude.{◌≡◌, ◌<◌, ◌≤◌, ◌++◌, length, take, drop, false, IfOk, OnOk, OnErr};
ghost use Rattle.std.specs.List.{All};
ghost use Rattle.sk_records.specs.Holding.Held.{IsWithin, ItemWithin};
ghost use Rattle.sk_records.specs.Holding.Places.{places_from, lists_of};
ghost use Rattle.sk_records.specs.Given.{AreRecords};
ghost use Rattle.sk_records.specs.Holding.Grown.{IsGrown};
ghost use Rattle.sk_records.specs.Holding.BookHeld.{IsHeld};
ghost use Rattle.sk_records.specs.Holding.Ready.{IsKept};
ghost use Rattle.sk_records.specs.Holding.Anew.{is_after, cut_after, left_item, left_items, list_anew, lists_anew, IsSetAnew, IsAnew};

use crate::NoMemory;
use crate::given::push_given;
use crate::inserting::put_items;
use crate::items::Item;
use crate::kinds::{Kind, RecId};
use crate::making::{change_all, change_in_place};
use crate::places::{count, holds, place_of, push_places};
use crate::removing::without_blank;
use crate::rows::Span;
use std::alloc::Global;

// Whether a record of the kind went just before what follows an item.
fn is_after(item: &Item, kind: Kind, after: bool) -> bool
    ensures { result ≡ is_after kind after item.now }
{
    match item {
        Item::Gone => after,
        Item::Lines(_) => false,
        Item::Held(record) => record.kind.is(kind),
    }
}

// An item without the empty line at its front, where that line goes.
fn cut_after(text: &[u8], item: &Item, after: bool) -> Option<Item>
    requires { ItemWithin text.now item.now }
    ensures { result ≡ cut_after text.now after item.now }
{
    if after {
        without_blank(text, item)
    } else {
        None
    }
}

// Leaves what stays of an item.
fn leave(text: &[u8], item: &mut Item, kind: Kind, after: bool)
    requires { ItemWithin text.now item.old }
    ensures { item.new ≡ left_item text.now kind after item.old }
{
    if holds(item, kind) {
        *item = Item::Gone;
    } else if let Some(rest) = cut_after(text, item, after) {
        *item = rest;
    }
}

// The records of a kind go, and their tails.
fn leave_all(text: &[u8], items: &mut [Item], kind: Kind)
    requires { All (ItemWithin text.now) items.old }
    ensures { items.new ≡ left_items text.now kind false items.old }
{
    let mut after = false;
    for i in 0..items.len() {
        let next = is_after(&items[i], kind, after);
        leave(text, &mut items[i], kind, after);
        after = next;
    }
}

// From a place on the records of a kind go, and their tails.
fn leave_behind(text: &[u8], items: &mut Vec<Item>, from: usize, kind: Kind)
    requires place { from ≤ length items.old.items }
    requires within { All (ItemWithin text.now) items.old.items }
    ensures { items.new.items ≡ take from items.old.items ++ left_items text.now kind false (drop from items.old.items) }
{
    leave_all(text, &mut items[from..], kind);
}

// The places of one kind where new items are put at a place and those of some kind go behind it.
fn list_anew(
    alloc: Global,
    items: &[Item],
    at: usize,
    new: &[Item],
    kind: Kind,
    own: Kind,
) -> Result<Vec<usize>, NoMemory>
    requires place { at ≤ length items.now }
    ensures { IfOk result (λ list. list.items ≡ list_anew kind at items.now new.now own) }
{
    let mut list = Vec::new(alloc);
    push_places(&mut list, &items[..at], own, 0)?;
    push_places(&mut list, new, own, at)?;
    if !own.is(kind) {
        push_places(&mut list, &items[at..], own, at + new.len())?;
    }
    Ok(list)
}

// The places of every kind then.
fn lists_anew(
    alloc: Global,
    items: &[Item],
    at: usize,
    new: &[Item],
    kind: Kind,
) -> Result<Vec<Vec<usize>>, NoMemory>
    requires place { at ≤ length items.now }
    ensures { IfOk result (λ lists. lists_of lists.items ≡ lists_anew kind at items.now new.now) }
{
    let mut lists = Vec::new(alloc);
    lists.push(list_anew(alloc, items, at, new, kind, Kind::Group)?)?;
    lists.push(list_anew(alloc, items, at, new, kind, Kind::Param)?)?;
    lists.push(list_anew(alloc, items, at, new, kind, Kind::Request)?)?;
    lists.push(list_anew(alloc, items, at, new, kind, Kind::Entity)?)?;
    lists.push(list_anew(alloc, items, at, new, kind, Kind::Constraint)?)?;
    lists.push(list_anew(alloc, items, at, new, kind, Kind::Style)?)?;
    Ok(lists)
}

// Makes the records of a kind anew where the first of them stands. At an `Err` the items are as they were.
fn set_standing(
    text: &mut Vec<u8>,
    items: &mut Vec<Item>,
    places: &mut Vec<Vec<usize>>,
    kind: Kind,
    lines: &[u8],
) -> Result<(), NoMemory>
    requires held { IsHeld text.old.items items.old.items places.old.items }
    requires stands { 0 < length (places_from kind 0 items.old.items) }
    requires given { AreRecords kind lines.now }
    ensures ok { OnOk result (IsSetAnew text.old.items text.new.items kind lines.now items.old.items items.new.items places.new.items) }
    ensures items { OnErr result (items.new.items ≡ items.old.items) }
    ensures places { OnErr result (lists_of places.new.items ≡ lists_of places.old.items) }
    ensures grown { IsGrown text.old.items text.new.items }
{
    let new = push_given(text, lines)?;
    let at = place_of(places, items, RecId { kind, place: 0 });
    let index = lists_anew(*items.allocator(), items, at, &new, kind)?;
    let behind = at + new.len();
    put_items(items, at, new)?;
    leave_behind(text, items, behind, kind);
    *places = index;
    Ok(())
}

/// Makes the records of a kind anew. At an `Err` the blocks are as they were.
pub(crate) fn set_anew(
    text: &mut Vec<u8>,
    header: &mut Span,
    items: &mut Vec<Item>,
    places: &mut Vec<Vec<usize>>,
    kind: Kind,
    lines: &[u8],
) -> Result<(), NoMemory>
    requires first { IsWithin text.old.items header.old }
    requires held { IsHeld text.old.items items.old.items places.old.items }
    requires given { AreRecords kind lines.now }
    ensures ok { OnOk result (IsAnew text.old.items text.new.items kind lines.now header.old header.new items.old.items items.new.items places.new.items) }
    ensures err { OnErr result (IsKept text.old.items text.new.items header.old header.new items.old.items items.new.items places.new.items) }
{
    if count(places, items, kind) > 0 {
        set_standing(text, items, places, kind, lines)
    } else {
        change_all(text, header, items, places, kind, &[], &[], lines)
    }
}

/// Makes the records of a kind anew, where they stand: at an `Err` some of it may be done.
pub(crate) fn make_anew(
    text: &mut Vec<u8>,
    header: &mut Span,
    items: &mut Vec<Item>,
    places: &mut Vec<Vec<usize>>,
    kind: Kind,
    lines: &[u8],
) -> Result<(), NoMemory>
    requires first { IsWithin text.old.items header.old }
    requires held { IsHeld text.old.items items.old.items places.old.items }
    requires given { AreRecords kind lines.now }
    ensures ok { OnOk result (IsAnew text.old.items text.new.items kind lines.now header.old header.new items.old.items items.new.items places.new.items) }
{
    if count(places, items, kind) > 0 {
        set_standing(text, items, places, kind, lines)
    } else {
        change_in_place(text, header, items, places, kind, &[], &[], lines)
    }
}
