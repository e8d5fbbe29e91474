// The bytes of items.
ghost use Rattle.std.specs.Prelude.{◌≡◌, ◌++◌, ◌∷◌, [], List, length, take, OnOk};
ghost use Rattle.std.specs.List.{All};
ghost use Rattle.sk_text.specs.Lines.{joined};
ghost use Rattle.sk_records.specs.Reading.{row_lines};
ghost use Rattle.sk_records.specs.Written.{bytes_of};
ghost use Rattle.sk_records.specs.Holding.Held.{bytes_at, rows_at, item_blocks, blocks_at, RowWithin, ItemWithin};

use crate::NoMemory;
use crate::items::Item;
use crate::rows::Row;

// Appends the lines of a record but the closing one.
fn write_rows(text: &[u8], rows: &[Row], out: &mut Vec<u8>) -> Result<(), NoMemory>
    requires within { All (RowWithin text.now) rows.now }
    ensures ok { OnOk result (out.new.items ≡ out.old.items ++ joined (row_lines (rows_at text.now rows.now))) }
    ensures kept { take (length out.old.items) out.new.items ≡ out.old.items }
{
    for row in rows {
        out.extend_from_slice(&text[row.start as usize..row.end()])?;
    }
    Ok(())
}

// Appends what stands at a place.
fn write_item(text: &[u8], item: &Item, out: &mut Vec<u8>) -> Result<(), NoMemory>
    requires within { ItemWithin text.now item.now }
    ensures ok { OnOk result (out.new.items ≡ out.old.items ++ bytes_of (item_blocks text.now item.now)) }
    ensures kept { take (length out.old.items) out.new.items ≡ out.old.items }
{
    match item {
        Item::Gone => {}
        Item::Lines(stretch) => out.extend_from_slice(
            &text[stretch.start as usize..stretch.end as usize],
        )?,
        Item::Held(record) => {
            write_rows(text, &record.rows, out)?;
            out.extend_from_slice(&text[record.close.start as usize..record.close.end as usize])?;
        }
    }
    Ok(())
}

/// Appends the bytes of items. At an `Err` some of them may have been appended.
pub(crate) fn write_items(text: &[u8], items: &[Item], out: &mut Vec<u8>) -> Result<(), NoMemory>
    requires within { All (ItemWithin text.now) items.now }
    ensures ok { OnOk result (out.new.items ≡ out.old.items ++ bytes_of (blocks_at text.now items.now)) }
    ensures kept { take (length out.old.items) out.new.items ≡ out.old.items }
{
    for item in items {
        write_item(text, item, out)?;
    }
    Ok(())
}
