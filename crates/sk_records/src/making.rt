// Changes of records that are made at once.
ghost use Rattle.std.specs.Prelude.{◌≡◌, ◌<◌, List, length, map, IfOk, OnOk, OnErr};
ghost use Rattle.std.specs.List.{All};
ghost use Rattle.sk_records.specs.Blocks.{records, on_record};
ghost use Rattle.sk_records.specs.ChangeLists.{all_changed, change_place, change_rows};
ghost use Rattle.sk_records.specs.Holding.ChangesHeld.{change_of, edit_place, EditFits, Exists, IsChanged};
ghost use Rattle.sk_records.specs.Given.{AreRecords};
ghost use Rattle.sk_records.specs.Holding.Grown.{IsGrown};
ghost use Rattle.sk_records.specs.Holding.Held.{blocks_at, IsWithin};
ghost use Rattle.sk_records.specs.Holding.BookHeld.{IsHeld};
ghost use Rattle.sk_records.specs.Holding.Ready.{IsKept};

use crate::NoMemory;
use crate::adding::add_all;
use crate::change_list::Edit;
use crate::changes::{set_list_at, set_value_at};
use crate::items::Item;
use crate::kinds::{Kind, RecId};
use crate::packing::{pack_items, pack_span};
use crate::places::{all_places, place_of};
use crate::rows::Span;

fn place_in(edit: Edit) -> usize
    ensures { result ≡ edit_place edit }
{
    match edit {
        Edit::Value(edit) => edit.place,
        Edit::Map(edit) => edit.place,
    }
}

// Makes one change.
fn make_change(
    text: &mut Vec<u8>,
    items: &mut Vec<Item>,
    places: &[Vec<usize>],
    kind: Kind,
    bytes: &[u8],
    edit: Edit,
) -> Result<(), NoMemory>
    requires held { IsHeld text.old.items items.old.items places.now }
    requires fits { EditFits kind bytes.now edit }
    requires exists { Exists kind (blocks_at text.old.items items.old.items) (change_of bytes.now edit) }
    ensures ok { OnOk result (blocks_at text.new.items items.new.items ≡ on_record kind (change_place (change_of bytes.now edit)) (change_rows (change_of bytes.now edit)) (blocks_at text.old.items items.old.items)) }
    ensures held { OnOk result (IsHeld text.new.items items.new.items places.now) }
    ensures grown { IsGrown text.old.items text.new.items }
{
    let place = place_in(edit);
    let at = place_of(places, items, RecId { kind, place });
    match edit {
        Edit::Value(edit) => {
            let key = &bytes[edit.start..edit.middle];
            let value = &bytes[edit.middle..edit.end];
            set_value_at(text, items, at, key, value)
        }
        Edit::Map(edit) => set_list_at(text, items, at, &bytes[edit.start..edit.end]),
    }
}

// Makes changes one after the other. At an `Err` some of them may have been made.
fn make_changes(
    text: &mut Vec<u8>,
    items: &mut Vec<Item>,
    places: &[Vec<usize>],
    kind: Kind,
    bytes: &[u8],
    edits: &[Edit],
) -> Result<(), NoMemory>
    requires held { IsHeld text.old.items items.old.items places.now }
    requires fit { All (EditFits kind bytes.now) edits.now }
    requires exist { All (Exists kind (blocks_at text.old.items items.old.items)) (map (change_of bytes.now) edits.now) }
    ensures ok { OnOk result (blocks_at text.new.items items.new.items ≡ all_changed kind (map (change_of bytes.now) edits.now) (blocks_at text.old.items items.old.items)) }
    ensures held { OnOk result (IsHeld text.new.items items.new.items places.now) }
    ensures grown { IsGrown text.old.items text.new.items }
{
    for edit in edits {
        make_change(text, items, places, kind, bytes, *edit)?;
    }
    Ok(())
}

/// Makes changes of records of a kind, and puts whole records that a caller gives where records of the kind go. All is done in a
/// copy, which holds nothing of what earlier changes left behind and then takes the place of what there was: at an `Err` the blocks
/// are as they were.
pub(crate) fn change_all(
    text: &mut Vec<u8>,
    header: &mut Span,
    items: &mut Vec<Item>,
    places: &mut Vec<Vec<usize>>,
    kind: Kind,
    bytes: &[u8],
    edits: &[Edit],
    added: &[u8],
) -> Result<(), NoMemory>
    requires first { IsWithin text.old.items header.old }
    requires held { IsHeld text.old.items items.old.items places.old.items }
    requires fit { All (EditFits kind bytes.now) edits.now }
    requires exist { All (Exists kind (blocks_at text.old.items items.old.items)) (map (change_of bytes.now) edits.now) }
    requires given { AreRecords kind added.now }
    ensures ok { OnOk result (IsChanged text.old.items text.new.items kind (map (change_of bytes.now) edits.now) added.now header.old header.new items.old.items items.new.items places.new.items) }
    ensures err { OnErr result (IsKept text.old.items text.new.items header.old header.new items.old.items items.new.items places.new.items) }
{
    let alloc = *items.allocator();
    let mut fresh = Vec::new(alloc);
    let mut line = pack_span(text, *header, &mut fresh)?;
    let mut next = pack_items(alloc, text, items, &mut fresh)?;
    let mut index = all_places(alloc, &next)?;
    make_changes(&mut fresh, &mut next, &index, kind, bytes, edits)?;
    add_all(&mut fresh, &mut line, &mut next, &mut index, kind, added)?;
    *text = fresh;
    *header = line;
    *items = next;
    *places = index;
    Ok(())
}

/// Makes changes of records of a kind, and puts whole records that a caller gives where records of the kind go, where they stand: at
/// an `Err` some of it may be done.
pub(crate) fn change_in_place(
    text: &mut Vec<u8>,
    header: &mut Span,
    items: &mut Vec<Item>,
    places: &mut Vec<Vec<usize>>,
    kind: Kind,
    bytes: &[u8],
    edits: &[Edit],
    added: &[u8],
) -> Result<(), NoMemory>
    requires first { IsWithin text.old.items header.old }
    requires held { IsHeld text.old.items items.old.items places.old.items }
    requires fit { All (EditFits kind bytes.now) edits.now }
    requires exist { All (Exists kind (blocks_at text.old.items items.old.items)) (map (change_of bytes.now) edits.now) }
    requires given { AreRecords kind added.now }
    ensures ok { OnOk result (IsChanged text.old.items text.new.items kind (map (change_of bytes.now) edits.now) added.now header.old header.new items.old.items items.new.items places.new.items) }
{
    make_changes(text, items, places, kind, bytes, edits)?;
    add_all(text, header, items, places, kind, added)?;
    Ok(())
}
