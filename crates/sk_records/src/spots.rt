// Where new records go.
ghost use Rattle.std.specs.Prelude.{true, ◌≡◌, ◌≤◌, ◌<◌, ◌+◌, ◌++◌, ◌∷◌, List, ℕ, length, take, drop, IfOk, OnOk, OnErr, IfSome};
ghost use Rattle.std.specs.List.{All};
ghost use Rattle.sk_records.specs.declared.items.Item.{Item};
ghost use Rattle.sk_records.specs.declared.items.Item.TheVariants.{Held, Lines};
ghost use Rattle.sk_records.specs.declared.items.Record.{Record};
ghost use Rattle.sk_records.specs.Holding.Held.{blocks_at, ItemWithin};
ghost use Rattle.std.specs.Prelude.{if◌then◌else◌};
ghost use Rattle.sk_records.specs.declared.spots.Before.TheVariants.{Tail};
ghost use Rattle.sk_records.specs.declared.spots.Before.TheVariants as before;
ghost use Rattle.sk_records.specs.Holding.Ready.{IsReady};
ghost use Rattle.sk_records.specs.Holding.Places.{all_places, lists_of};
ghost use Rattle.sk_records.specs.Holding.Spots.{gone_len, front_of, IsSpot};

use crate::NoMemory;
use crate::inserting::{insert_at, make_room, nearest};
use crate::items::{Item, Stretch};
use crate::kinds::Kind;
use crate::removing::{blank_len, drop_tail_from, is_gone};

/// Where a new record goes behind another, and whether that one has a tail.
#[derive(Clone, Copy)]
pub(crate) struct Spot {
    pub(crate) at: usize,
    pub(crate) tail: bool,
}

/// What stands first among items: an empty line, with more lines of its stretch or alone, or anything else.
#[derive(Clone, Copy)]
pub(crate) enum Front {
    Other,
    Blank,
    BlankAndMore(Stretch),
}

// How many places there are before anything stands.
fn gone_len(items: &[Item]) -> usize
    ensures count { result ≡ gone_len items.now }
    ensures below { result ≤ length items.now }
{
    for (i, item) in items.iter().enumerate() {
        if !is_gone(item) {
            return i;
        }
    }
    items.len()
}

// What an item begins with.
fn front_of(text: &[u8], item: &Item) -> Front
    requires { ItemWithin text.now item.now }
    ensures { result ≡ front_of text.now item.now }
{
    match item {
        Item::Lines(stretch) => {
            let blank = blank_len(text, *stretch);
            let whole = stretch.end;
            let start = stretch.start;
            let end = start + blank;
            if blank == 0 {
                Front::Other
            } else if end == whole {
                Front::Blank
            } else {
                Front::BlankAndMore(Stretch { start, end })
            }
        }
        _ => Front::Other,
    }
}

// Puts one item at a place; nothing at an `Err`.
fn insert_one(
    items: &mut Vec<Item>,
    places: &mut Vec<Vec<usize>>,
    at: usize,
    stretch: Stretch,
) -> Result<(), NoMemory>
    requires place { at ≤ length items.old.items }
    requires index { lists_of places.old.items ≡ all_places items.old.items }
    ensures items { OnOk result (items.new.items ≡ take at items.old.items ++ Lines stretch ∷ drop at items.old.items) }
    ensures index { lists_of places.new.items ≡ all_places items.new.items }
    ensures kept { OnErr result (items.new.items ≡ items.old.items) }
{
    let mut new = Vec::new(*items.allocator());
    new.push(Item::Lines(stretch))?;
    insert_at(items, places, at, new)
}

/// Finds where a new record goes behind the record at a place: behind its tail, where it has one.
///
/// Where the tail is the first line of a longer stretch, it is made an item of its own. At an `Err` all is as it was.
pub(crate) fn spot_behind(
    text: &[u8],
    items: &mut Vec<Item>,
    places: &mut Vec<Vec<usize>>,
    place: usize,
) -> Result<Spot, NoMemory>
    requires place { place < length items.old.items }
    requires within { All (ItemWithin text.now) items.old.items }
    requires index { lists_of places.old.items ≡ all_places items.old.items }
    ensures spot { IfOk result (λ s. (front : List Item) → (held : Record) → (back : List Item) → items.old.items ≡ front ++ Held held ∷ back → length front ≡ place → IsSpot text.now front held back items.new.items s.at s.tail) }
    ensures index { lists_of places.new.items ≡ all_places items.new.items }
    ensures kept { OnErr result (items.new.items ≡ items.old.items) }
{
    let behind = place + 1;
    let next = behind + gone_len(&items[behind..]);
    if next == items.len() {
        return Ok(Spot {
            at: behind,
            tail: false,
        });
    }
    match front_of(text, &items[next]) {
        Front::Other => Ok(Spot {
            at: behind,
            tail: false,
        }),
        Front::Blank => Ok(Spot {
            at: next + 1,
            tail: true,
        }),
        Front::BlankAndMore(blank) => {
            insert_one(items, places, behind, blank)?;
            drop_tail_from(text, items, behind + 1);
            Ok(Spot {
                at: behind + 1,
                tail: true,
            })
        }
    }
}

/// What stands before a place.
#[derive(Clone, Copy)]
pub(crate) enum Before {
    /// The header alone.
    Header,
    /// The record at a place, which has no tail.
    Record(usize),
    /// A record's tail.
    Tail,
}

/// Where a new record goes, and what stands before.
#[derive(Clone, Copy)]
pub(crate) struct Ready {
    pub(crate) at: usize,
    pub(crate) before: Before,
}

fn before_of(spot: Spot, place: usize) -> Before
    ensures { result ≡ (if spot.tail then Tail else before.Record place) }
{
    if spot.tail {
        Before::Tail
    } else {
        Before::Record(place)
    }
}

/// Finds where a new record of a kind goes, and makes room for it and its tail. What stands in the items stays, also at an `Err`.
pub(crate) fn make_ready(
    text: &[u8],
    items: &mut Vec<Item>,
    places: &mut Vec<Vec<usize>>,
    kind: Kind,
) -> Result<Ready, NoMemory>
    requires within { All (ItemWithin text.now) items.old.items }
    requires index { lists_of places.old.items ≡ all_places items.old.items }
    ensures ready { IfOk result (λ r. IsReady text.now kind items.new.items r.at r.before) }
    ensures blocks { blocks_at text.now items.new.items ≡ blocks_at text.now items.old.items }
    ensures within { All (ItemWithin text.now) items.new.items }
    ensures index { lists_of places.new.items ≡ all_places items.new.items }
{
    match nearest(places, items, kind) {
        None => {
            make_room(items, places, 0)?;
            Ok(Ready {
                at: 0,
                before: Before::Header,
            })
        }
        Some(place) => {
            let spot = spot_behind(text, items, places, place)?;
            make_room(items, places, spot.at)?;
            Ok(Ready {
                at: spot.at,
                before: before_of(spot, place),
            })
        }
    }
}
