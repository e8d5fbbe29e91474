// Items that are put among others.
ghost use Rattle.std.specs.Prelude.{true, IfOk, ◌≡◌, ◌≤◌, ◌<◌, ◌+◌, ◌^◌, ◌++◌, List, ℕ, length, take, drop, map, OnOk, OnErr, vec_len};
ghost use Rattle.std.specs.List.{All};
ghost use Rattle.sk_records.specs.Kinds.{kinds_to};
ghost use Rattle.sk_records.specs.Holding.Places.{all_places, lists_of};
ghost use Rattle.sk_records.specs.Holding.Inserted.{shifted, nearest, HasRoom, StandsAlike};
ghost use Rattle.sk_records.specs.Holding.Removed.{is_gone};

use crate::NoMemory;
use crate::items::Item;
use crate::kinds::Kind;
use std::alloc::Global;

fn shift_list(list: &mut Vec<usize>, at: usize, count: usize)
    requires { All (λ p. p + count < 2 ^ 64) list.old.items }
    ensures { list.new.items ≡ map (shifted at count) list.old.items }
{
    for i in 0..list.len() {
        if list[i] >= at {
            list[i] += count;
        }
    }
}

fn shift_lists(places: &mut Vec<Vec<usize>>, at: usize, count: usize)
    requires { All (λ (list : List ℕ). All (λ p. p + count < 2 ^ 64) list) (lists_of places.old.items) }
    ensures { lists_of places.new.items ≡ map (λ (list : List ℕ). map (shifted at count) list) (lists_of places.old.items) }
{
    for i in 0..places.len() {
        shift_list(&mut places[i], at, count);
    }
}

/// Puts items at a place; the lists of places stay. At an `Err` all is as it was.
pub(crate) fn put_items(items: &mut Vec<Item>, at: usize, new: Vec<Item>) -> Result<(), NoMemory>
    requires { at ≤ length items.old.items }
    ensures ok { OnOk result (items.new.items ≡ take at items.old.items ++ (new.items ++ drop at items.old.items)) }
    ensures err { OnErr result (items.new.items ≡ items.old.items) }
{
    let mut new = new;
    let count = new.len();
    items.append(&mut new)?;
    items[at..].rotate_right(count);
    Ok(())
}

/// Puts items at a place. At an `Err` all is as it was.
pub(crate) fn insert_at(
    items: &mut Vec<Item>,
    places: &mut Vec<Vec<usize>>,
    at: usize,
    new: Vec<Item>,
) -> Result<(), NoMemory>
    requires place { at ≤ length items.old.items }
    requires index { lists_of places.old.items ≡ all_places items.old.items }
    ensures items { OnOk result (items.new.items ≡ take at items.old.items ++ (new.items ++ drop at items.old.items)) }
    ensures lists { OnOk result (lists_of places.new.items ≡ map (λ (list : List ℕ). map (shifted at (length new.items)) list) (lists_of places.old.items)) }
    ensures items_kept { OnErr result (items.new.items ≡ items.old.items) }
    ensures lists_kept { OnErr result (lists_of places.new.items ≡ lists_of places.old.items) }
{
    let mut new = new;
    let count = new.len();
    items.append(&mut new)?;
    items[at..].rotate_right(count);
    shift_lists(places, at, count);
    Ok(())
}

/// The place of the last record of a kind, or else of the nearest earlier kind that has one.
pub(crate) fn nearest(places: &[Vec<usize>], items: &[Item], kind: Kind) -> Option<usize>
    requires { lists_of places.now ≡ all_places items.now }
    ensures { result ≡ nearest (kinds_to kind) items.now }
{
    if let Some(place) = places[kind.place()].last() {
        return Some(*place);
    }
    match kind {
        Kind::Group => None,
        Kind::Param => nearest(places, items, Kind::Group),
        Kind::Request => nearest(places, items, Kind::Param),
        Kind::Entity => nearest(places, items, Kind::Request),
        Kind::Constraint => nearest(places, items, Kind::Entity),
        Kind::Style => nearest(places, items, Kind::Constraint),
    }
}

// Nothing, as often as asked.
fn gones(alloc: Global, count: usize) -> Result<Vec<Item>, NoMemory>
    ensures gone { IfOk result (λ v. All (λ x. is_gone x ≡ true) v.items) }
    ensures len { IfOk result (λ v. length v.items ≡ count) }
{
    let mut out = Vec::new(alloc);
    for i in 0..count {
        out.push(Item::Gone)?;
    }
    Ok(out)
}

// Whether two items may come at a place.
fn has_room(items: &[Item], at: usize) -> bool
    requires { at ≤ length items.now }
    ensures { result ≡ true → HasRoom items.now at }
{
    match &items[at..] {
        [Item::Gone, Item::Gone, ..] => true,
        _ => false,
    }
}

/// Makes room for two items at a place; what stands in the items stays as it is, also at an `Err`.
///
/// Room is made for as many as a 32nd of the items at once, so that adding one after the other costs little.
pub(crate) fn make_room(
    items: &mut Vec<Item>,
    places: &mut Vec<Vec<usize>>,
    at: usize,
) -> Result<(), NoMemory>
    requires place { at ≤ length items.old.items }
    requires index { lists_of places.old.items ≡ all_places items.old.items }
    ensures room { OnOk result (HasRoom items.new.items at) }
    ensures same { StandsAlike items.old.items items.new.items at }
    ensures index { lists_of places.new.items ≡ all_places items.new.items }
{
    if has_room(items, at) {
        return Ok(());
    }
    let count = items.len() / 32 + 2;
    let new = gones(*items.allocator(), count)?;
    insert_at(items, places, at, new)
}
