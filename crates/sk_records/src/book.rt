// Books of records.
ghost use Rattle.std.specs.Prelude.{◌≡◌, ◌<◌, ◌++◌, List, ℕ, length, MatchResult, Ok, Err, OnOk, OnErr, IfOk};
ghost use Rattle.std.specs.Option.{option_copied};
ghost use Rattle.sk_text.specs.Lines.{lines_in};
ghost use Rattle.sk_records.specs.Blocks.{records, on_record, dropped, add_records, made_anew};
ghost use Rattle.std.specs.Prelude.{map, IsOk};
ghost use Rattle.std.specs.Borrow.{Bor};
ghost use Rattle.sk_records.specs.Rows.{last_value, last_number, last_place, with_value, with_map};
ghost use Rattle.sk_records.specs.ChangeLists.{Change, all_changed, change_place};
ghost use Rattle.sk_records.specs.Given.{IsKey, IsValue, AllEnded, is_whole_list, given_list, IsOneRecord, AreRecords, given_records};
ghost use Rattle.std.specs.Prelude.{true};
ghost use Rattle.sk_records.specs.declared.kinds.Kind.TheVariants.{Group, Entity};
ghost use Rattle.sk_records.specs.Reading.{read_text};
ghost use Rattle.sk_records.specs.Written.{bytes_of, IsText};
ghost use Rattle.sk_records.specs.Answers.{IsAnswer, rows_in};
ghost use Rattle.sk_records.specs.declared.faults.ReadFault.TheVariants as fault;
ghost use Rattle.sk_records.specs.MapRows.{entry_lines};

use crate::adding::add_given;
use crate::anew::{make_anew, set_anew};
use crate::change_list::ChangeList;
use crate::changes::{set_list_at, set_value_at};
use crate::classes::is_header;
use crate::faults::ReadFault;
use crate::items::Item;
use crate::kinds::{Kind, RecId};
use crate::making::{change_all, change_in_place};
use crate::map_lines::{MapLines, map_lines};
use crate::packing::{pack_items, pack_span};
use crate::reading::read_lines;
use crate::removing::remove_at;
use crate::rows::{LAST_NUMBER, Row, Span};
use crate::writing::write_items;
use crate::{NoMemory, lookup, places};
use sk_text::lines;
use std::alloc::Global;
use std::marker::Model;

// The most bytes that a text may have.
const LIMIT: usize = 1 << 26;

/// The records of a model text and the lines between them.
///
/// A book holds its text in one buffer, which only grows: a line that a call changes is put behind all
/// others, and the book points to it. Contracts see a book as the list of its blocks.
#[derive(Drop)]
pub struct Book {
    text: Vec<u8>,
    header: Span,
    items: Vec<Item>,
    places: Vec<Vec<usize>>,
}

impl Model for Book {
    ghost use Rattle.std.specs.Prelude.{List};
    ghost use Rattle.sk_records.specs.Blocks.{Block};

    ghost Value = { List Block };

    ghost use Rattle.sk_records.specs.Holding.BookHeld.{book_blocks, IsBook};

    ghost view = { λ b. book_blocks b.text.items b.header b.items.items };

    ghost invariant = { λ b. IsBook b.text.items b.header b.items.items b.places.items };
}

impl Book {
    /// Reads a text, or finds its first fault: its size, the header, then the lines in order.
    pub fn read(alloc: Global, text: Vec<u8>) -> Result<Book, ReadFault>
        ensures { IsAnswer fault.NoMemory result (read_text text.items) }
    {
        if text.len() > LIMIT {
            return Err(ReadFault::TooLarge);
        }
        let Parts { header, items } = match parts_of(alloc, &text) {
            Ok(parts) => parts,
            Err(fault) => return Err(fault),
        };
        let places = places::all_places(alloc, &items)?;
        Ok(Book {
            text,
            header,
            items,
            places,
        })
    }

    /// Reads a text that has no fault but, maybe, its size: such as what a book writes. At 2^28 - 1 bytes memory is wanting.
    pub fn again(alloc: Global, text: Vec<u8>) -> Result<Book, NoMemory>
        requires { IsOk (read_lines (lines_in text.items)) }
        ensures { IfOk result (λ book. read_lines (lines_in text.items) ≡ Ok book) }
    {
        if text.len() >= LAST_NUMBER {
            return Err(NoMemory);
        }
        let Parts { header, items } = match parts_of(alloc, &text) {
            Ok(parts) => parts,
            // The text has no fault, so this is want of memory.
            Err(_) => return Err(NoMemory),
        };
        let places = places::all_places(alloc, &items)?;
        Ok(Book {
            text,
            header,
            items,
            places,
        })
    }

    /// How many records of a kind the book has.
    pub fn count(&self, kind: Kind) -> usize
        ensures { result ≡ length (records kind self.now) }
    {
        places::count(&self.places, &self.items, kind)
    }

    /// The value on the record's last line with this key, lent from the held text. None exactly where no line has it.
    pub fn value(&self, rec: RecId, key: &[u8]) -> Option<&[u8]>
        requires exists { rec.place < length (records rec.kind self.now) }
        ensures { option_copied result ≡ last_value key.now (rows_in rec self.now) }
    {
        let text = self.text.as_slice();
        lookup::last_value(text, record_rows(text, &self.items, &self.places, rec), key)
    }

    /// Finds the record's last lines with some keys, in one pass over its lines: for each key the line's place among those of the
    /// record, from 0, and None where no line has it.
    pub fn find(&self, rec: RecId, keys: &[&[u8]], found: &mut [Option<usize>])
        requires exists { rec.place < length (records rec.kind self.now) }
        requires room { length found.old ≡ length keys.now }
        ensures { found.new ≡ map (λ (k : Bor (List ℕ)). last_place k.now (rows_in rec self.now)) keys.now }
    {
        let text = self.text.as_slice();
        let rows = record_rows(text, &self.items, &self.places, rec);
        lookup::last_places(text, rows, keys, found);
    }

    /// The value on the record's last line with this key, of which `find` told the place.
    pub fn value_at(&self, rec: RecId, key: &[u8], line: Option<usize>) -> Option<&[u8]>
        requires exists { rec.place < length (records rec.kind self.now) }
        requires found { line ≡ last_place key.now (rows_in rec self.now) }
        ensures { option_copied result ≡ last_value key.now (rows_in rec self.now) }
    {
        let text = self.text.as_slice();
        let rows = record_rows(text, &self.items, &self.places, rec);
        lookup::value_on(text, rows, key, line)
    }

    /// The number of the record's last line with this key, as it was read, from 1. None where no line has the key, and
    /// for a line that a call added.
    pub fn line_of(&self, rec: RecId, key: &[u8]) -> Option<usize>
        requires exists { rec.place < length (records rec.kind self.now) }
        ensures { result ≡ last_number key.now (rows_in rec self.now) }
    {
        let text = self.text.as_slice();
        lookup::last_number(text, record_rows(text, &self.items, &self.places, rec), key)
    }

    /// The lines of the record's remap lists, in order.
    pub fn map_lines(&self, rec: RecId) -> MapLines<'_>
        requires exists { rec.place < length (records rec.kind self.now) }
        ensures { result ≡ entry_lines (rows_in rec self.now) }
    {
        let text = self.text.as_slice();
        map_lines(text, record_rows(text, &self.items, &self.places, rec))
    }

    /// Sets a value on the record's last line with this key, whose end stays; where it has no such line, one is added
    /// before its closing line. At an `Err` the book is as it was.
    ///
    /// The key is whole, as `Constraint.valA`.
    pub fn set_value(&mut self, rec: RecId, key: &[u8], value: &[u8]) -> Result<(), NoMemory>
        requires exists { rec.place < length (records rec.kind self.old) }
        requires key { IsKey rec.kind key.now }
        requires value { IsValue value.now }
        ensures ok { OnOk result (self.new ≡ on_record rec.kind rec.place (with_value key.now value.now) self.old) }
        ensures err { OnErr result (self.new ≡ self.old) }
    {
        let at = places::place_of(&self.places, &self.items, rec);
        set_value_at(&mut self.text, &mut self.items, at, key, value)
    }

    /// Sets the remap list of a group: it stands in the place of the record's first list, and further lists go; where
    /// the record has none, it stands before the closing line. At an `Err` the book is as it was.
    ///
    /// The lines are one whole list, from `Group.remap={` to `}`, each ended.
    pub fn set_map(&mut self, rec: RecId, lines: &[u8]) -> Result<(), NoMemory>
        requires exists { rec.place < length (records rec.kind self.old) }
        requires group { rec.kind ≡ Group }
        requires list { is_whole_list (lines_in lines.now) ≡ true }
        requires ended { AllEnded (lines_in lines.now) }
        ensures ok { OnOk result (self.new ≡ on_record Group rec.place (with_map (given_list lines.now)) self.old) }
        ensures err { OnErr result (self.new ≡ self.old) }
    {
        let at = places::place_of(&self.places, &self.items, rec);
        set_list_at(&mut self.text, &mut self.items, at, lines)
    }

    /// Adds a record behind the last of its kind, or else of the nearest earlier kind that has one, or else behind the first
    /// line, with an empty line behind it. At an `Err` the book is as it was.
    ///
    /// The lines are one whole record of the kind, without a tail, each ended.
    pub fn add_record(&mut self, kind: Kind, lines: &[u8]) -> Result<RecId, NoMemory>
        requires given { IsOneRecord kind lines.now }
        ensures ok { OnOk result (self.new ≡ add_records kind (given_records lines.now) self.old) }
        ensures id { IfOk result (λ rec. rec ≡ record { kind = kind; place = length (records kind self.old) }) }
        ensures err { OnErr result (self.new ≡ self.old) }
    {
        let place = places::count(&self.places, &self.items, kind);
        match add_given(
            &mut self.text,
            &mut self.header,
            &mut self.items,
            &mut self.places,
            kind,
            lines,
        ) {
            Ok(()) => Ok(RecId { kind, place }),
            Err(error) => Err(error),
        }
    }

    /// Makes the changes of a list, one after the other, and then adds records of its kind in one list, as by `add_record`: in a
    /// copy, unless there is nothing to do. At an `Err` the book is as it was.
    ///
    /// The lines are whole records of the kind, each with an empty line (a line feed) behind it, each ended; there may be none.
    pub fn change(&mut self, changes: &ChangeList, added: &[u8]) -> Result<(), NoMemory>
        requires exist { All (λ (c : Change). change_place c < length (records changes.now.kind self.old)) changes.now.list }
        requires given { AreRecords changes.now.kind added.now }
        ensures ok { OnOk result (self.new ≡ add_records changes.now.kind (given_records added.now) (all_changed changes.now.kind changes.now.list self.old)) }
        ensures err { OnErr result (self.new ≡ self.old) }
    {
        if changes.edits.is_empty() && added.is_empty() {
            return Ok(());
        }
        change_all(
            &mut self.text,
            &mut self.header,
            &mut self.items,
            &mut self.places,
            changes.kind,
            &changes.bytes,
            &changes.edits,
            added,
        )
    }

    /// The book with the changes of a list and the added records, as `change` makes them. At an `Err` there is no book any more: the
    /// changes are made where the records stand, and nothing is copied.
    pub fn into_changed(self, changes: &ChangeList, added: &[u8]) -> Result<Book, NoMemory>
        requires exist { All (λ (c : Change). change_place c < length (records changes.now.kind self)) changes.now.list }
        requires given { AreRecords changes.now.kind added.now }
        ensures { IfOk result (λ book. book ≡ add_records changes.now.kind (given_records added.now) (all_changed changes.now.kind changes.now.list self)) }
    {
        let Book {
            mut text,
            mut header,
            mut items,
            mut places,
        } = self;
        change_in_place(
            &mut text,
            &mut header,
            &mut items,
            &mut places,
            changes.kind,
            &changes.bytes,
            &changes.edits,
            added,
        )?;
        Ok(Book {
            text,
            header,
            items,
            places,
        })
    }

    /// The book with its entity records made anew, as `set_entities` makes them. At an `Err` there is no book any more.
    pub fn into_entities_set(self, lines: &[u8]) -> Result<Book, NoMemory>
        requires given { AreRecords Entity lines.now }
        ensures { IfOk result (λ book. book ≡ made_anew Entity (given_records lines.now) self) }
    {
        let Book {
            mut text,
            mut header,
            mut items,
            mut places,
        } = self;
        make_anew(
            &mut text,
            &mut header,
            &mut items,
            &mut places,
            Kind::Entity,
            lines,
        )?;
        Ok(Book {
            text,
            header,
            items,
            places,
        })
    }

    /// Takes a record away, and its tail: the empty line directly behind it, where there is one. It takes no memory.
    pub fn drop_record(&mut self, rec: RecId)
        requires exists { rec.place < length (records rec.kind self.old) }
        ensures { self.new ≡ dropped rec.kind rec.place self.old }
    {
        let at = places::place_of(&self.places, &self.items, rec);
        remove_at(&self.text, &mut self.items, at);
        places::remove_place(&mut self.places, rec);
    }

    /// Makes all entity records anew: they go, each with its tail, and the new ones stand where the first of them stood;
    /// where there was none, the new ones are added as by `add_record`. At an `Err` the book is as it was.
    ///
    /// The lines are whole entity records, each with an empty line (a line feed) behind it, each ended. Where no lines are
    /// given, the book has no entity record then.
    pub fn set_entities(&mut self, lines: &[u8]) -> Result<(), NoMemory>
        requires given { AreRecords Entity lines.now }
        ensures ok { OnOk result (self.new ≡ made_anew Entity (given_records lines.now) self.old) }
        ensures err { OnErr result (self.new ≡ self.old) }
    {
        set_anew(
            &mut self.text,
            &mut self.header,
            &mut self.items,
            &mut self.places,
            Kind::Entity,
            lines,
        )
    }

    /// Nothing when it runs: it tells that the blocks of a book are those of a text.
    pub fn law_text(&self)
        ensures { IsText self.now }
    {
        let _text = &self.text;
    }

    /// An equal book, which holds nothing of what changes left behind.
    pub fn copy(&self, alloc: Global) -> Result<Book, NoMemory>
        ensures { IfOk result (λ book. book ≡ self.now) }
    {
        let mut text = Vec::new(alloc);
        let header = pack_span(&self.text, self.header, &mut text)?;
        let items = pack_items(alloc, &self.text, &self.items, &mut text)?;
        let places = places::all_places(alloc, &items)?;
        Ok(Book {
            text,
            header,
            items,
            places,
        })
    }

    /// Appends the text. A line that no call changed is written as it was read. At an `Err` nothing is appended.
    pub fn write(&self, _alloc: Global, out: &mut Vec<u8>) -> Result<(), NoMemory>
        ensures ok { OnOk result (out.new.items ≡ out.old.items ++ bytes_of self.now) }
        ensures err { OnErr result (out.new.items ≡ out.old.items) }
    {
        let before = out.len();
        let header = &self.text[self.header.start as usize..self.header.end as usize];
        out.extend_from_slice(header)?;
        match write_items(&self.text, &self.items, out) {
            Ok(()) => Ok(()),
            Err(error) => {
                out.truncate(before);
                Err(error)
            }
        }
    }
}

// The functions below work on the fields.
ghost use Rattle.std.specs.List.{All};
ghost use Rattle.sk_records.specs.Holding.Held.{rows_at, blocks_at, RowWithin};
ghost use Rattle.std.specs.Prelude.{◌≤◌, ◌+◌, ◌^◌};
ghost use Rattle.sk_records.specs.Holding.Held.{ItemWithin, IsWithin};
ghost use Rattle.sk_records.specs.Reading.{read_lines};
ghost use Rattle.sk_records.specs.Holding.BookHeld.{IsHeld, IsParted, AreWithin};

// The lines of a record.
fn record_rows<'b>(text: &[u8], items: &'b [Item], places: &[Vec<usize>], rec: RecId) -> &'b [Row]
    requires held { IsHeld text.now items.now places.now }
    requires exists { rec.place < length (records rec.kind (blocks_at text.now items.now)) }
    ensures rows { rows_at text.now result.now ≡ rows_in rec (blocks_at text.now items.now) }
    ensures within { All (RowWithin text.now) result.now }
{
    let at = places::place_of(places, items, rec);
    match &items[at] {
        Item::Held(record) => &record.rows,
        _ => &[],
    }
}

// A text in parts: its header, and the items behind it.
#[derive(Drop)]
struct Parts {
    header: Span,
    items: Vec<Item>,
}

fn parts_of(alloc: Global, text: &[u8]) -> Result<Parts, ReadFault>
    requires small { length text.now + 1 < 2 ^ 28 }
    ensures read { IsParted text.now result (read_lines (lines_in text.now)) }
    ensures within { IfOk result (AreWithin text.now) }
{
    let mut rest = lines(text);
    let Some(first) = rest.next() else {
        return Err(ReadFault::BadHeader);
    };
    if !is_header(first.body) {
        return Err(ReadFault::BadHeader);
    }
    let body_end = first.at + first.body.len();
    let end = body_end + first.end.len();
    let header = Span {
        start: first.at as u32,
        body_end: body_end as u32,
        end: end as u32,
    };
    match read_lines(alloc, text, 0, rest, 2) {
        Ok(items) => Ok(Parts { header, items }),
        Err(fault) => Err(fault),
    }
}
