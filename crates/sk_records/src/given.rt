// Records that callers give.
ghost use Rattle.std.specs.Prelude.{◌≡◌, List, ℕ, map, IfOk};
ghost use Rattle.std.specs.List.{All};
ghost use Rattle.sk_records.specs.Holding.Held.{ItemWithin};
ghost use Rattle.sk_records.specs.Holding.Grown.{IsGrown};
ghost use Rattle.sk_records.specs.Holding.GivenHeld.{bare_held, IsBareOf, AreBareOf, IsGivenAs, IsRecordOf};
ghost use Rattle.sk_records.specs.Given.{IsOneRecord};

use crate::NoMemory;
use crate::items::Item;
use crate::kinds::Kind;
use crate::reading::read_lines;
use crate::rows::{LAST_NUMBER, LAST_PLACE, Row};
use sk_text::lines;

fn forget_rows(rows: &mut Vec<Row>)
    ensures { rows.new.items ≡ map bare_held rows.old.items }
{
    for i in 0..rows.len() {
        rows[i].mark = rows[i].mark.bare();
    }
}

fn forget_item(item: &mut Item)
    ensures { IsBareOf item.old item.new }
{
    match item {
        Item::Held(record) => forget_rows(&mut record.rows),
        _ => {}
    }
}

fn forget_items(items: &mut Vec<Item>)
    ensures { AreBareOf items.old.items items.new.items }
{
    for i in 0..items.len() {
        forget_item(&mut items[i]);
    }
}

/// Puts the lines of whole records behind the text, and gives them as items whose lines have no numbers.
pub(crate) fn push_given(text: &mut Vec<u8>, given: &[u8]) -> Result<Vec<Item>, NoMemory>
    ensures items { IfOk result (λ items. IsGivenAs text.new.items given.now items.items) }
    ensures within { IfOk result (λ items. All (ItemWithin text.new.items) items.items) }
    ensures grown { IsGrown text.old.items text.new.items }
{
    let base = text.len();
    text.extend_from_slice(given)?;
    if text.len() > LAST_PLACE || given.len() >= LAST_NUMBER {
        return Err(NoMemory);
    }
    match read_lines(*text.allocator(), text, base, lines(given), 1) {
        Ok(items) => {
            let mut items = items;
            forget_items(&mut items);
            Ok(items)
        }
        // Given lines have no fault, so this is want of memory.
        Err(_) => Err(NoMemory),
    }
}

/// Puts the lines of one whole record behind the text, and gives it as an item.
pub(crate) fn push_record(text: &mut Vec<u8>, kind: Kind, given: &[u8]) -> Result<Item, NoMemory>
    requires { IsOneRecord kind given.now }
    ensures item { IfOk result (IsRecordOf text.new.items kind given.now) }
    ensures grown { IsGrown text.old.items text.new.items }
{
    let mut items = push_given(text, given)?;
    match items.pop() {
        Some(Item::Held(record)) => Ok(Item::Held(record)),
        // The lines of one record are read as that record alone.
        _ => Err(NoMemory),
    }
}
