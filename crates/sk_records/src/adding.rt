// New records.
ghost use Rattle.std.specs.Prelude.{◌≡◌, ◌<◌, ◌∷◌, ◌++◌, [], List, length, IfOk, OnOk, OnErr, false, slice_set};
ghost use Rattle.sk_records.specs.Blocks.{Loose, Record, AllOf, ended_line, feed_line};
ghost use Rattle.sk_records.specs.Kinds.{kind_place, same_kind};
ghost use Rattle.sk_records.specs.Holding.Held.{line_at, blocks_at, item_blocks, IsWithin, ItemWithin};
ghost use Rattle.sk_records.specs.Holding.Grown.{IsGrown};
ghost use Rattle.sk_records.specs.Holding.Ready.{close_span, with_close, IsReady, IsNew, IsPut, IsKept, IsAdded, AreAdded};
ghost use Rattle.sk_records.specs.Given.{recs_of, given_records, IsOneRecord, AreRecords};
ghost use Rattle.sk_records.specs.declared.items.Item.TheVariants.{Lines};
ghost use Rattle.sk_records.specs.Holding.Places.{holds, lists_of, list_of};
ghost use Rattle.sk_records.specs.Holding.BookHeld.{book_blocks, IsHeld, IsBook};

use crate::NoMemory;
use crate::given::{push_given, push_record};
use crate::items::{Item, Stretch};
use crate::kinds::Kind;
use crate::places::holds;
use crate::rows::{LAST_PLACE, Span};
use crate::spots::{Before, Ready, make_ready};
use std::mem;

/// A line with an end: where it has none, it is put behind the text with a line feed.
pub(crate) fn push_ended(text: &mut Vec<u8>, line: Span) -> Result<Span, NoMemory>
    requires within { IsWithin text.old.items line }
    ensures line { IfOk result (λ s. line_at text.new.items s ≡ ended_line (line_at text.old.items line)) }
    ensures within { IfOk result (IsWithin text.new.items) }
    ensures grown { IsGrown text.old.items text.new.items }
{
    if line.body_end < line.end {
        return Ok(line);
    }
    let start = text.len();
    text.extend_from_within(line.start as usize..line.body_end as usize)?;
    let body_end = text.len();
    text.push(b'\n')?;
    let end = text.len();
    if end > LAST_PLACE {
        return Err(NoMemory);
    }
    Ok(Span {
        start: start as u32,
        body_end: body_end as u32,
        end: end as u32,
    })
}

/// An empty line, put behind the text.
pub(crate) fn push_feed(text: &mut Vec<u8>) -> Result<Stretch, NoMemory>
    ensures feed { IfOk result (λ s. item_blocks text.new.items (Lines s) ≡ Loose feed_line ∷ []) }
    ensures within { IfOk result (λ s. ItemWithin text.new.items (Lines s)) }
    ensures grown { IsGrown text.old.items text.new.items }
{
    let start = text.len();
    text.push(b'\n')?;
    let end = text.len();
    if end > LAST_PLACE {
        return Err(NoMemory);
    }
    Ok(Stretch {
        start: start as u32,
        end: end as u32,
    })
}

// Puts a place at the end of the list of a kind.
fn push_place(places: &mut Vec<Vec<usize>>, kind: Kind, at: usize) -> Result<(), NoMemory>
    requires kinds { length places.old.items ≡ 6 }
    ensures ok { OnOk result (lists_of places.new.items ≡ slice_set (lists_of places.old.items) (kind_place kind) (list_of kind (lists_of places.old.items) ++ at ∷ [])) }
    ensures err { OnErr result (lists_of places.new.items ≡ lists_of places.old.items) }
{
    places[kind.place()].push(at)?;
    Ok(())
}

// The line that closes a record.
fn close_of(item: &Item) -> Span
    ensures { result ≡ close_span item.now }
{
    match item {
        Item::Held(record) => record.close,
        _ => Span {
            start: 0,
            body_end: 0,
            end: 0,
        },
    }
}

fn set_close(item: &mut Item, line: Span)
    ensures { item.new ≡ with_close line item.old }
{
    match item {
        Item::Held(record) => record.close = line,
        _ => {}
    }
}

/// Puts a record and its tail where room was made for them. At an `Err` the blocks are as they were.
pub(crate) fn put_record(
    text: &mut Vec<u8>,
    header: &mut Span,
    items: &mut Vec<Item>,
    places: &mut Vec<Vec<usize>>,
    kind: Kind,
    ready: Ready,
    new: Item,
    tail: Stretch,
) -> Result<(), NoMemory>
    requires first { IsWithin text.old.items header.old }
    requires held { IsHeld text.old.items items.old.items places.old.items }
    requires ready { IsReady text.old.items kind items.old.items ready.at ready.before }
    requires new { IsNew text.old.items kind new tail }
    ensures grown { IsGrown text.old.items text.new.items }
    ensures ok { OnOk result (IsPut text.old.items text.new.items kind new header.old header.new items.old.items items.new.items places.new.items) }
    ensures err { OnErr result (IsKept text.old.items text.new.items header.old header.new items.old.items items.new.items places.new.items) }
{
    match ready.before {
        Before::Header => {
            let line = push_ended(text, *header)?;
            push_place(places, kind, ready.at)?;
            *header = line;
        }
        Before::Record(place) => {
            let line = push_ended(text, close_of(&items[place]))?;
            push_place(places, kind, ready.at)?;
            set_close(&mut items[place], line);
        }
        Before::Tail => {
            push_place(places, kind, ready.at)?;
        }
    }
    items[ready.at] = new;
    items[ready.at + 1] = Item::Lines(tail);
    Ok(())
}

/// Puts one whole record that a caller gives, and its tail, where records of its kind go. At an `Err` the blocks are as they were.
pub(crate) fn add_given(
    text: &mut Vec<u8>,
    header: &mut Span,
    items: &mut Vec<Item>,
    places: &mut Vec<Vec<usize>>,
    kind: Kind,
    lines: &[u8],
) -> Result<(), NoMemory>
    requires first { IsWithin text.old.items header.old }
    requires held { IsHeld text.old.items items.old.items places.old.items }
    requires given { IsOneRecord kind lines.now }
    ensures ok { OnOk result (IsAdded text.old.items text.new.items kind lines.now header.old header.new items.old.items items.new.items places.new.items) }
    ensures err { OnErr result (IsKept text.old.items text.new.items header.old header.new items.old.items items.new.items places.new.items) }
{
    let new = push_record(text, kind, lines)?;
    let tail = push_feed(text)?;
    let ready = make_ready(text, items, places, kind)?;
    put_record(text, header, items, places, kind, ready, new, tail)
}

// Puts a record, and a tail, where records of its kind go; nothing where no record of the kind is given.
fn add_item(
    text: &mut Vec<u8>,
    header: &mut Span,
    items: &mut Vec<Item>,
    places: &mut Vec<Vec<usize>>,
    kind: Kind,
    item: Item,
) -> Result<(), NoMemory>
    requires first { IsWithin text.old.items header.old }
    requires held { IsHeld text.old.items items.old.items places.old.items }
    requires within { ItemWithin text.old.items item }
    requires of_kind { AllOf kind (recs_of (item_blocks text.old.items item)) }
    ensures ok { OnOk result (AreAdded text.old.items text.new.items kind (recs_of (item_blocks text.old.items item)) header.old header.new items.old.items items.new.items places.new.items) }
    ensures grown { IsGrown text.old.items text.new.items }
{
    if !holds(&item, kind) {
        return Ok(());
    }
    let tail = push_feed(text)?;
    let ready = make_ready(text, items, places, kind)?;
    put_record(text, header, items, places, kind, ready, item, tail)
}

/// Puts whole records that a caller gives where records of their kind go. At an `Err` some of them may have been put.
pub(crate) fn add_all(
    text: &mut Vec<u8>,
    header: &mut Span,
    items: &mut Vec<Item>,
    places: &mut Vec<Vec<usize>>,
    kind: Kind,
    lines: &[u8],
) -> Result<(), NoMemory>
    requires first { IsWithin text.old.items header.old }
    requires held { IsHeld text.old.items items.old.items places.old.items }
    requires given { AreRecords kind lines.now }
    ensures ok { OnOk result (AreAdded text.old.items text.new.items kind (given_records lines.now) header.old header.new items.old.items items.new.items places.new.items) }
    ensures grown { IsGrown text.old.items text.new.items }
{
    let mut new = push_given(text, lines)?;
    for i in 0..new.len() {
        let item = mem::replace(&mut new[i], Item::Gone);
        add_item(text, header, items, places, kind, item)?;
    }
    Ok(())
}
