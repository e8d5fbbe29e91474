ghost use Rattle.std.specs.Prelude.{◌≡◌, ◌≤◌, ◌++◌, ◌∷◌, [], length, take, Some, None, IfOk, OnOk, OnErr, MatchResult, ⊤};
ghost use Rattle.std.specs.Borrow.{sem, follows_so};
ghost use mathlib.Core.Option.{none};
ghost use Rattle.sk_undo.specs.contracts.history.History.{the_row};
ghost use Rattle.sk_undo.specs.Histories.{no_past, kept, last_64, to_undo, to_redo, undone, redone};

use crate::NoMemory;
use crate::entry::Entry;
use std::alloc::Global;
use std::marker::Model;

// How many changes are kept.
const DEPTH: usize = 64;

/// There is no such entry.
#[derive(Clone, Copy, Debug, PartialEq, Eq)]
pub struct Nothing;

/// The last 64 changes of a text, and how many of them can be undone. Contracts see the list and that number.
#[derive(Debug, Drop)]
pub struct History {
    entries: Vec<Entry>,
    place: usize,
}

/// Puts an entry at a place, and drops all that stood from there on. At an `Err` the entries are as they were.
fn put_at(entries: &mut Vec<Entry>, place: usize, entry: Entry) -> Result<(), NoMemory>
    requires { place ≤ length entries.old.items }
    ensures ok { OnOk result (entries.new.items ≡ take place entries.old.items ++ entry ∷ []) }
    ensures err { OnErr result (entries.new.items ≡ entries.old.items) }
{
    let last = entries.len();
    entries.push(entry)?;
    entries.swap(place, last);
    entries.truncate(place + 1);
    Ok(())
}

/// Drops the oldest entry past 64.
fn forget_oldest(entries: &mut Vec<Entry>)
    requires { length entries.old.items ≤ 65 }
    ensures { entries.new.items ≡ last_64 entries.old.items }
{
    if entries.len() > DEPTH {
        entries.remove(0);
    }
}

impl Model for History {
    ghost use Rattle.sk_undo.specs.Histories.{Past, IsPast};

    ghost Value = { Past };

    ghost view = { λ h. record { entries = h.entries.items; place = h.place } };

    ghost invariant = { λ h. IsPast (record { entries = h.entries.items; place = h.place }) };
}

impl History {
    /// A history of nothing.
    pub fn new(alloc: Global) -> Result<History, NoMemory>
        ensures { IfOk result (λ h. h ≡ no_past) }
    {
        Ok(History {
            entries: Vec::new(alloc),
            place: 0,
        })
    }

    /// Keeps a change as the last one. What could be redone goes, and the oldest change past 64. At an `Err` the history is as it
    /// was.
    pub fn keep(&mut self, entry: Entry) -> Result<(), NoMemory>
        ensures ok { OnOk result (self.new ≡ kept self.old entry) }
        ensures err { OnErr result (self.new ≡ self.old) }
    {
        put_at(&mut self.entries, self.place, entry)?;
        forget_oldest(&mut self.entries);
        self.place = self.entries.len();
        Ok(())
    }

    /// Steps back: gives the last entry that can be undone, which can be redone then. Nothing comes exactly where there is none.
    pub fn undo(&mut self) -> Result<&Entry, Nothing>
        ensures* history { sem 𝓛 (follows_so the_row the_row self.entry.ghost_name none (λ _ _. ⊤) (λ n. n ≡ undone self.old)) }
        ensures entry { MatchResult result (λ e. to_undo self.old ≡ Some e.now) (λ n. to_undo self.old ≡ None) }
    {
        if self.place == 0 {
            return Err(Nothing);
        }
        self.place -= 1;
        Ok(&self.entries[self.place])
    }

    /// Steps on: gives the first entry that can be redone, which can be undone then. Nothing comes exactly where there is none.
    pub fn redo(&mut self) -> Result<&Entry, Nothing>
        ensures* history { sem 𝓛 (follows_so the_row the_row self.entry.ghost_name none (λ _ _. ⊤) (λ n. n ≡ redone self.old)) }
        ensures entry { MatchResult result (λ e. to_redo self.old ≡ Some e.now) (λ n. to_redo self.old ≡ None) }
    {
        if self.place == self.entries.len() {
            return Err(Nothing);
        }
        self.place += 1;
        Ok(&self.entries[self.place - 1])
    }

    /// The entries, oldest first.
    pub fn entries(&self) -> &[Entry]
        ensures { result.now ≡ self.now.entries }
    {
        self.entries.as_slice()
    }

    /// How many of them can be undone.
    pub fn place(&self) -> usize
        ensures { result ≡ self.now.place }
    {
        self.place
    }
}
