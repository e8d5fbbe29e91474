// Items with their lines in another text, which holds nothing else.
ghost use Rattle.std.specs.Prelude.{◌≡◌, ◌≤◌, List, length, IfOk};
ghost use Rattle.std.specs.List.{All};
ghost use Rattle.sk_records.specs.Holding.Copied.{IsMoved, AreMoved};
ghost use Rattle.sk_records.specs.declared.items.Item.TheVariants.{Lines, Held};
ghost use Rattle.sk_records.specs.Holding.Grown.{IsGrown};
ghost use Rattle.sk_records.specs.Holding.Held.{line_at, row_at, rows_at, IsWithin, RowWithin, ItemWithin};

use crate::NoMemory;
use crate::items::{Item, Record, Stretch};
use crate::removing::is_gone;
use crate::rows::{LAST_PLACE, Row, Span};
use std::alloc::Global;

/// Puts a line behind another text.
pub(crate) fn pack_span(text: &[u8], span: Span, out: &mut Vec<u8>) -> Result<Span, NoMemory>
    requires { IsWithin text.now span }
    ensures line { IfOk result (λ s. line_at out.new.items s ≡ line_at text.now span) }
    ensures within { IfOk result (IsWithin out.new.items) }
    ensures grown { IsGrown out.old.items out.new.items }
{
    let start = out.len();
    out.extend_from_slice(&text[span.start as usize..span.end as usize])?;
    if out.len() > LAST_PLACE {
        return Err(NoMemory);
    }
    let start = start as u32;
    Ok(Span {
        start,
        body_end: start + (span.body_end - span.start),
        end: start + (span.end - span.start),
    })
}

// Puts a line of a record behind another text.
fn pack_row(text: &[u8], row: Row, out: &mut Vec<u8>) -> Result<Row, NoMemory>
    requires { RowWithin text.now row }
    ensures row { IfOk result (λ r. row_at out.new.items r ≡ row_at text.now row) }
    ensures within { IfOk result (RowWithin out.new.items) }
    ensures grown { IsGrown out.old.items out.new.items }
{
    let start = out.len();
    out.extend_from_slice(&text[row.start as usize..row.end()])?;
    if out.len() > LAST_PLACE {
        return Err(NoMemory);
    }
    let start = start as u32;
    Ok(Row {
        start,
        body_end: start + (row.body_end - row.start),
        mark: row.mark,
    })
}

// Puts the lines of a record behind another text.
fn pack_rows(text: &[u8], rows: &[Row], out: &mut Vec<u8>) -> Result<Vec<Row>, NoMemory>
    requires { All (RowWithin text.now) rows.now }
    ensures rows { IfOk result (λ v. rows_at out.new.items v.items ≡ rows_at text.now rows.now) }
    ensures within { IfOk result (λ v. All (RowWithin out.new.items) v.items) }
    ensures grown { IsGrown out.old.items out.new.items }
{
    let mut packed = Vec::with_capacity(*out.allocator(), rows.len())?;
    for row in rows {
        let made = pack_row(text, *row, out)?;
        packed.push(made)?;
    }
    Ok(packed)
}

// Puts lines that stand between records behind another text.
fn pack_stretch(text: &[u8], stretch: Stretch, out: &mut Vec<u8>) -> Result<Item, NoMemory>
    requires { ItemWithin text.now (Lines stretch) }
    ensures item { IfOk result (IsMoved text.now out.new.items (Lines stretch)) }
    ensures grown { IsGrown out.old.items out.new.items }
{
    let start = out.len();
    out.extend_from_slice(&text[stretch.start as usize..stretch.end as usize])?;
    let end = out.len();
    if end > LAST_PLACE {
        return Err(NoMemory);
    }
    Ok(Item::Lines(Stretch {
        start: start as u32,
        end: end as u32,
    }))
}

// Puts a record behind another text.
fn pack_record(text: &[u8], held: &Record, out: &mut Vec<u8>) -> Result<Item, NoMemory>
    requires { ItemWithin text.now (Held held.now) }
    ensures item { IfOk result (IsMoved text.now out.new.items (Held held.now)) }
    ensures grown { IsGrown out.old.items out.new.items }
{
    let rows = pack_rows(text, &held.rows, out)?;
    let close = pack_span(text, held.close, out)?;
    Ok(Item::Held(Record {
        kind: held.kind,
        rows,
        close,
    }))
}

// Puts what stands at a place behind another text.
fn pack_item(text: &[u8], item: &Item, out: &mut Vec<u8>) -> Result<Item, NoMemory>
    requires { ItemWithin text.now item.now }
    ensures item { IfOk result (IsMoved text.now out.new.items item.now) }
    ensures grown { IsGrown out.old.items out.new.items }
{
    match item {
        Item::Gone => Ok(Item::Gone),
        Item::Lines(stretch) => pack_stretch(text, *stretch, out),
        Item::Held(record) => pack_record(text, record, out),
    }
}

/// Puts items behind another text. Places where nothing stands are left out.
pub(crate) fn pack_items(
    alloc: Global,
    text: &[u8],
    items: &[Item],
    out: &mut Vec<u8>,
) -> Result<Vec<Item>, NoMemory>
    requires { All (ItemWithin text.now) items.now }
    ensures items { IfOk result (λ v. AreMoved text.now out.new.items items.now v.items) }
    ensures grown { IsGrown out.old.items out.new.items }
{
    let mut packed = Vec::new(alloc);
    for item in items {
        if !is_gone(item) {
            let made = pack_item(text, item, out)?;
            packed.push(made)?;
        }
    }
    Ok(packed)
}
