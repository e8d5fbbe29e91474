// Items that go.
ghost use Rattle.std.specs.Prelude.{◌≡◌, ◌≤◌, ◌<◌, ◌+◌, ◌++◌, ◌∷◌, List, length, take, drop};
ghost use Rattle.std.specs.List.{All};
ghost use Rattle.sk_records.specs.Holding.Held.{bytes_at, StretchWithin, ItemWithin};
ghost use Rattle.sk_records.specs.declared.items.Item.TheVariants.{Gone};
ghost use Rattle.sk_records.specs.Holding.Removed.{blank_len, shrunk, is_gone, shrink_first};

use crate::items::{Item, Stretch};

/// The length of the empty line at the front of a stretch, or 0 where its first line isn't empty.
pub(crate) fn blank_len(text: &[u8], stretch: Stretch) -> u32
    requires { StretchWithin text.now stretch }
    ensures blank { result ≡ blank_len (bytes_at text.now stretch.start stretch.end) }
    ensures within { stretch.start + result ≤ stretch.end }
{
    match &text[stretch.start as usize..stretch.end as usize] {
        [b'\n', ..] => 1,
        [b'\r', b'\n', ..] => 2,
        _ => 0,
    }
}

// What is left of an item without the empty line at its front; None where no such line stands there.
pub(crate) fn without_blank(text: &[u8], item: &Item) -> Option<Item>
    requires { ItemWithin text.now item.now }
    ensures { result ≡ shrunk text.now item.now }
{
    match item {
        Item::Lines(stretch) => {
            let blank = blank_len(text, *stretch);
            let end = stretch.end;
            let start = stretch.start + blank;
            if blank == 0 {
                None
            } else if start == end {
                Some(Item::Gone)
            } else {
                Some(Item::Lines(Stretch { start, end }))
            }
        }
        _ => None,
    }
}

/// Whether nothing stands at a place.
pub(crate) fn is_gone(item: &Item) -> bool
    ensures { result ≡ is_gone item.now }
{
    match item {
        Item::Gone => true,
        _ => false,
    }
}

// The empty line goes that stands before anything else.
fn drop_tail(text: &[u8], items: &mut [Item])
    requires { All (ItemWithin text.now) items.old }
    ensures { items.new ≡ shrink_first text.now items.old }
{
    for item in items.iter_mut() {
        if !is_gone(item) {
            if let Some(rest) = without_blank(text, item) {
                *item = rest;
            }
            return;
        }
    }
}

/// From a place on, the empty line goes that stands before anything else.
pub(crate) fn drop_tail_from(text: &[u8], items: &mut Vec<Item>, from: usize)
    requires place { from ≤ length items.old.items }
    requires within { All (ItemWithin text.now) items.old.items }
    ensures { items.new.items ≡ take from items.old.items ++ shrink_first text.now (drop from items.old.items) }
{
    drop_tail(text, &mut items[from..]);
}

/// The item at a place goes, and the empty line behind it.
pub(crate) fn remove_at(text: &[u8], items: &mut Vec<Item>, at: usize)
    requires place { at < length items.old.items }
    requires within { All (ItemWithin text.now) items.old.items }
    ensures { items.new.items ≡ take at items.old.items ++ Gone ∷ shrink_first text.now (drop (at + 1) items.old.items) }
{
    items[at] = Item::Gone;
    drop_tail(text, &mut items[at + 1..]);
}
