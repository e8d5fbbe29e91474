// Changes of records that a book makes at once.
ghost use Rattle.std.specs.Prelude.{◌≡◌, ◌≤◌, ◌++◌, ◌∷◌, [], true, List, ℕ, length, IfOk, OnOk, OnErr};
ghost use Rattle.sk_text.specs.Lines.{lines_in};
ghost use Rattle.sk_records.specs.ChangeLists.{KindChanges, SetValue, SetMap};
ghost use Rattle.sk_records.specs.Given.{IsKey, IsValue, AllEnded, is_whole_list, given_list};
ghost use Rattle.sk_records.specs.declared.kinds.Kind.TheVariants.{Group};

use crate::NoMemory;
use crate::kinds::Kind;
use std::alloc::Global;
use std::marker::Model;

/// A value that is set in the record with a place: where its key stands in the list's bytes, and behind it the value.
#[derive(Clone, Copy)]
pub(crate) struct ValueEdit {
    pub(crate) place: usize,
    pub(crate) start: usize,
    pub(crate) middle: usize,
    pub(crate) end: usize,
}

/// A remap list that is set in the group with a place: where its lines stand in the list's bytes.
#[derive(Clone, Copy)]
pub(crate) struct MapEdit {
    pub(crate) place: usize,
    pub(crate) start: usize,
    pub(crate) end: usize,
}

/// A change as it is held.
#[derive(Clone, Copy)]
pub(crate) enum Edit {
    Value(ValueEdit),
    Map(MapEdit),
}

/// Changes of records of one kind, which `Book::change` makes one after the other, or none of them.
///
/// Contracts see the kind, and the list of changes.
#[derive(Drop)]
pub struct ChangeList {
    pub(crate) kind: Kind,
    pub(crate) bytes: Vec<u8>,
    pub(crate) edits: Vec<Edit>,
}

impl Model for ChangeList {
    ghost use Rattle.std.specs.Prelude.{map};
    ghost use Rattle.std.specs.List.{All};
    ghost use Rattle.sk_records.specs.ChangeLists.{KindChanges};
    ghost use Rattle.sk_records.specs.Holding.ChangesHeld.{change_of, EditFits};

    ghost Value = { KindChanges };

    ghost view = { λ c. record { kind = c.kind; list = map (change_of c.bytes.items) c.edits.items } };

    ghost invariant = { λ c. All (EditFits c.kind c.bytes.items) c.edits.items };
}

impl ChangeList {
    /// No change yet of records of a kind.
    pub fn new(alloc: Global, kind: Kind) -> ChangeList
        ensures { result ≡ record { kind = kind; list = [] } }
    {
        ChangeList {
            kind,
            bytes: Vec::new(alloc),
            edits: Vec::new(alloc),
        }
    }

    /// Behind the others, a value is set in the record with this place in its kind, as by `Book::set_value`. At an `Err` the
    /// list is as it was.
    pub fn set_value(&mut self, place: usize, key: &[u8], value: &[u8]) -> Result<(), NoMemory>
        requires key { IsKey self.old.kind key.now }
        requires value { IsValue value.now }
        ensures ok { OnOk result (self.new ≡ record { kind = self.old.kind; list = self.old.list ++ SetValue place key.now value.now ∷ [] }) }
        ensures err { OnErr result (self.new ≡ self.old) }
    {
        let start = self.bytes.len();
        self.bytes.extend_from_slice(key)?;
        let middle = self.bytes.len();
        self.bytes.extend_from_slice(value)?;
        let end = self.bytes.len();
        self.edits.push(Edit::Value(ValueEdit {
            place,
            start,
            middle,
            end,
        }))?;
        Ok(())
    }

    /// Behind the others, a remap list is set in the group with this place, as by `Book::set_map`. At an `Err` the list is as it
    /// was.
    pub fn set_map(&mut self, place: usize, lines: &[u8]) -> Result<(), NoMemory>
        requires group { self.old.kind ≡ Group }
        requires list { is_whole_list (lines_in lines.now) ≡ true }
        requires ended { AllEnded (lines_in lines.now) }
        ensures ok { OnOk result (self.new ≡ record { kind = self.old.kind; list = self.old.list ++ SetMap place (given_list lines.now) ∷ [] }) }
        ensures err { OnErr result (self.new ≡ self.old) }
    {
        let start = self.bytes.len();
        self.bytes.extend_from_slice(lines)?;
        let end = self.bytes.len();
        self.edits.push(Edit::Map(MapEdit { place, start, end }))?;
        Ok(())
    }
}
