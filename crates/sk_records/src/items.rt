// A text as a list of items over the held text, which only grows.
ghost use Rattle.std.specs.Prelude.{◌≡◌, ◌≤◌, ◌++◌, ◌∷◌, [], List, length, take, drop, OnOk, OnErr, IfSome};
ghost use Rattle.std.specs.List.{All};
ghost use Rattle.sk_text.specs.Lines.{TextLine, lines_in, line_bytes};
ghost use Rattle.sk_records.specs.Blocks.{Block, Loose};
ghost use Rattle.sk_records.specs.Holding.Held.{bytes_at, line_at, blocks_at, IsWithin, ItemWithin, IsJoined};

use crate::NoMemory;
use crate::kinds::Kind;
use crate::rows::{Row, Span};

/// A stretch of the held text: whole lines that stand between records.
#[derive(Clone, Copy)]
pub(crate) struct Stretch {
    pub(crate) start: u32,
    pub(crate) end: u32,
}

/// A record: its lines, and apart the line that closes it.
#[derive(Drop)]
pub(crate) struct Record {
    pub(crate) kind: Kind,
    pub(crate) rows: Vec<Row>,
    pub(crate) close: Span,
}

/// What stands at a place of the list.
#[derive(Drop)]
pub(crate) enum Item {
    /// Nothing: what stood here has gone, or something may come.
    Gone,
    /// Lines that stand between records.
    Lines(Stretch),
    /// A record.
    Held(Record),
}

// Where the last stretch begins, if it reaches up to a place and its last line has an end.
fn joined_start(text: &[u8], items: &[Item], at: u32) -> Option<u32>
    ensures { IfSome result (IsJoined text.now items.now at) }
{
    match items {
        [.., Item::Lines(stretch)] => {
            if stretch.start < at
                && stretch.end == at
                && at as usize <= text.len()
                && text[at as usize - 1] == b'\n'
            {
                Some(stretch.start)
            } else {
                None
            }
        }
        _ => None,
    }
}

/// Puts a line that stands between records behind the items.
pub(crate) fn push_line(text: &[u8], items: &mut Vec<Item>, span: Span) -> Result<(), NoMemory>
    requires within { IsWithin text.now span }
    requires line { lines_in (line_bytes (line_at text.now span)) ≡ line_at text.now span ∷ [] }
    requires all { All (ItemWithin text.now) items.old.items }
    ensures ok { OnOk result (blocks_at text.now items.new.items ≡ blocks_at text.now items.old.items ++ Loose (line_at text.now span) ∷ []) }
    ensures within { All (ItemWithin text.now) items.new.items }
{
    match joined_start(text, items, span.start) {
        Some(start) => {
            let last = items.len() - 1;
            items[last] = Item::Lines(Stretch {
                start,
                end: span.end,
            });
        }
        None => {
            items.push(Item::Lines(Stretch {
                start: span.start,
                end: span.end,
            }))?;
        }
    }
    Ok(())
}
