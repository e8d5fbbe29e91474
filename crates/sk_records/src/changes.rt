// Changes of one record's lines.
ghost use Rattle.std.specs.Prelude.{◌≡◌, ◌<◌, List, length, IfOk, OnOk, OnErr, Bool, map};
ghost use Rattle.std.specs.List.{All};
ghost use Rattle.sk_records.specs.declared.kinds.Kind.{Kind};
ghost use Rattle.sk_records.specs.Rows.{with_value, with_map};
ghost use Rattle.sk_records.specs.Given.{given_list};
ghost use Rattle.sk_records.specs.Blocks.{with_rows};
ghost use Rattle.sk_records.specs.Holding.Held.{rows_at, item_blocks, RowWithin, ItemWithin};
ghost use Rattle.sk_records.specs.Holding.Places.{holds};
ghost use Rattle.sk_records.specs.Holding.Grown.{IsGrown};
ghost use Rattle.sk_records.specs.Rows.{Row};
ghost use Rattle.sk_records.specs.Holding.Changes.{ItemChange};

use crate::NoMemory;
use crate::growing::{push_added, push_changed};
use crate::items::Item;
use crate::lists::{push_list, with_list};
use crate::lookup::last_place;
use crate::rows::{Role, Row};

// Sets a value among the lines of a record.
fn set_row_value(
    text: &mut Vec<u8>,
    rows: &mut Vec<Row>,
    key: &[u8],
    value: &[u8],
) -> Result<(), NoMemory>
    requires within { All (RowWithin text.old.items) rows.old.items }
    ensures ok { OnOk result (rows_at text.new.items rows.new.items ≡ with_value key.now value.now (rows_at text.old.items rows.old.items)) }
    ensures err { OnErr result (rows.new.items ≡ rows.old.items) }
    ensures within { All (RowWithin text.new.items) rows.new.items }
    ensures grown { IsGrown text.old.items text.new.items }
{
    match last_place(text, rows, key) {
        Some(at) => {
            let row = rows[at];
            let span = push_changed(text, key, value, row)?;
            rows[at] = Row::of(span, row.mark.role(), row.mark.number());
        }
        None => {
            let span = push_added(text, key, value)?;
            rows.push(Row::of(span, Role::Plain, 0))?;
        }
    }
    Ok(())
}

/// Sets a value in the record at a place; nothing where none stands.
pub(crate) fn set_item_value(
    text: &mut Vec<u8>,
    item: &mut Item,
    key: &[u8],
    value: &[u8],
) -> Result<(), NoMemory>
    requires within { ItemWithin text.old.items item.old }
    ensures ok { OnOk result (item_blocks text.new.items item.new ≡ map (with_rows (with_value key.now value.now)) (item_blocks text.old.items item.old)) }
    ensures err { OnErr result (item_blocks text.new.items item.new ≡ item_blocks text.old.items item.old) }
    ensures within { ItemWithin text.new.items item.new }
    ensures grown { IsGrown text.old.items text.new.items }
    ensures kind { (k : Kind) → holds k item.new ≡ holds k item.old }
{
    match item {
        Item::Held(record) => set_row_value(text, &mut record.rows, key, value),
        _ => Ok(()),
    }
}

/// Sets a value in the record at a place of the items.
pub(crate) fn set_value_at(
    text: &mut Vec<u8>,
    items: &mut Vec<Item>,
    at: usize,
    key: &[u8],
    value: &[u8],
) -> Result<(), NoMemory>
    requires place { at < length items.old.items }
    requires within { All (ItemWithin text.old.items) items.old.items }
    ensures ok { OnOk result (ItemChange text.old.items text.new.items items.old.items items.new.items at (with_value key.now value.now)) }
    ensures err { OnErr result (ItemChange text.old.items text.new.items items.old.items items.new.items at (λ rows. rows)) }
{
    set_item_value(text, &mut items[at], key, value)
}

/// Sets the remap list of the record at a place; nothing where none stands.
pub(crate) fn set_item_list(
    text: &mut Vec<u8>,
    item: &mut Item,
    given: &[u8],
) -> Result<(), NoMemory>
    requires within { ItemWithin text.old.items item.old }
    ensures ok { OnOk result (item_blocks text.new.items item.new ≡ map (with_rows (with_map (given_list given.now))) (item_blocks text.old.items item.old)) }
    ensures err { OnErr result (item_blocks text.new.items item.new ≡ item_blocks text.old.items item.old) }
    ensures within { ItemWithin text.new.items item.new }
    ensures grown { IsGrown text.old.items text.new.items }
    ensures kind { (k : Kind) → holds k item.new ≡ holds k item.old }
{
    match item {
        Item::Held(record) => set_row_list(text, &mut record.rows, given),
        _ => Ok(()),
    }
}

// Sets the remap list among the lines of a record.
fn set_row_list(text: &mut Vec<u8>, rows: &mut Vec<Row>, given: &[u8]) -> Result<(), NoMemory>
    requires within { All (RowWithin text.old.items) rows.old.items }
    ensures ok { OnOk result (rows_at text.new.items rows.new.items ≡ with_map (given_list given.now) (rows_at text.old.items rows.old.items)) }
    ensures err { OnErr result (rows.new.items ≡ rows.old.items) }
    ensures within { All (RowWithin text.new.items) rows.new.items }
    ensures grown { IsGrown text.old.items text.new.items }
{
    let new = push_list(text, given)?;
    let changed = with_list(*text.allocator(), rows, &new)?;
    *rows = changed;
    Ok(())
}

/// Sets the remap list of the record at a place of the items.
pub(crate) fn set_list_at(
    text: &mut Vec<u8>,
    items: &mut Vec<Item>,
    at: usize,
    given: &[u8],
) -> Result<(), NoMemory>
    requires place { at < length items.old.items }
    requires within { All (ItemWithin text.old.items) items.old.items }
    ensures ok { OnOk result (ItemChange text.old.items text.new.items items.old.items items.new.items at (with_map (given_list given.now))) }
    ensures err { OnErr result (ItemChange text.old.items text.new.items items.old.items items.new.items at (λ rows. rows)) }
{
    set_item_list(text, &mut items[at], given)
}
