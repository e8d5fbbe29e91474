// The numbers of a group's copies.

ghost use Rattle.std.specs.Prelude.{◌≡◌, Some, None, if◌then◌else◌, unwrap_or, IfOk, false};
ghost use Rattle.std.specs.List.{list_any};
ghost use Rattle.sk_records.specs.MapLent.{lent_entry};
ghost use Rattle.sk_model.specs.Chain.{IsAnswer, seen_in};
ghost use Rattle.sk_model.specs.Remap.{entry_numbers, all_numbers, remap_of, first_word, after_word, until_space, from_space, after_spaces, is_in_range, remap_entry, entry_over};
ghost use Rattle.sk_types.specs.Copies.{copied, same_copy};
ghost use Rattle.sk_model.specs.Lists.{items_of};

use crate::faults::ModelFault;
use indexmap::IndexSet;
use sk_num::{Items, read_handle, read_whole};
use sk_records::{MapLine, MapLines};
use sk_types::{EntityId, GroupId, RemapEntry};
use std::alloc::Global;

/// A group, and a remap list for it.
#[derive(Drop)]
pub struct GroupList {
    /// The group.
    pub group: GroupId,
    /// The entries, in the order of the list.
    pub entries: Items<RemapEntry>,
}

/// The three numbers of a line of a remap list.
#[derive(Clone, Copy)]
pub(crate) struct EntryNumbers {
    pub(crate) number: i32,
    pub(crate) source: u32,
    pub(crate) copy: i32,
}

// What stands behind the spaces at the front.
fn after_spaces(body: &[u8]) -> &[u8]
    ensures { result.now ≡ after_spaces body.now }
{
    for (i, byte) in body.iter().enumerate() {
        if *byte != b' ' {
            return &body[i..];
        }
    }
    &[]
}

// What stands before the first space.
fn until_space(body: &[u8]) -> &[u8]
    ensures { result.now ≡ until_space body.now }
{
    for (i, byte) in body.iter().enumerate() {
        if *byte == b' ' {
            return &body[..i];
        }
    }
    body
}

// From the first space on.
fn from_space(body: &[u8]) -> &[u8]
    ensures { result.now ≡ from_space body.now }
{
    for (i, byte) in body.iter().enumerate() {
        if *byte == b' ' {
            return &body[i..];
        }
    }
    &[]
}

// The first word, and what stands behind it.
fn split_word(body: &[u8]) -> (&[u8], &[u8])
    ensures word { result.0.now ≡ first_word body.now }
    ensures rest { result.1.now ≡ after_word body.now }
{
    let body = after_spaces(body);
    (until_space(body), from_space(body))
}

fn number_at(line: &MapLine<'_>) -> ModelFault
    ensures { result ≡ ModelFault.NumberAt (unwrap_or line.now.line 0) }
{
    ModelFault::NumberAt(line.line.unwrap_or(0))
}

// The numbers of one line.
#[tactic(auto, unfolding(crate::specs::Remap::entry_numbers))]
fn entry_numbers(line: MapLine<'_>) -> Result<EntryNumbers, ModelFault>
    ensures { result ≡ entry_numbers (lent_entry line.entry) }
{
    let (number, rest) = split_word(line.body);
    let (source, rest) = split_word(rest);
    let (copy, _) = split_word(rest);
    let number = match read_whole(number) {
        Ok(number) => number,
        Err(_) => return Err(number_at(&line)),
    };
    let source = match read_handle(source) {
        Ok(source) => source,
        Err(_) => return Err(number_at(&line)),
    };
    let copy = match read_whole(copy) {
        Ok(copy) => copy,
        Err(_) => return Err(number_at(&line)),
    };
    Ok(EntryNumbers {
        number,
        source,
        copy,
    })
}

/// The numbers of the lines, to the first that doesn't read.
pub(crate) fn all_numbers(
    alloc: Global,
    lines: MapLines<'_>,
) -> Result<Vec<EntryNumbers>, ModelFault>
    ensures { IsAnswer (items_of result) (all_numbers lines.entry) }
{
    let mut numbers = Vec::new(alloc);
    for line in lines {
        let entry = entry_numbers(line)?;
        numbers.push(entry)?;
    }
    Ok(numbers)
}

impl EntryNumbers {
    // Numbers are 1 to 65535, copies 0 to 65535.
    fn in_range(&self) -> Option<RemapEntry>
        ensures { result ≡ (if is_in_range self.now then Some (remap_entry self.now) else None) }
    {
        if self.number < 1 || self.number > 65535 || self.copy < 0 || self.copy > 65535 {
            return None;
        }
        Some(RemapEntry {
            number: self.number.unsigned_abs() as u16,
            source: EntityId(self.source),
            copy: self.copy.unsigned_abs() as u16,
        })
    }

    // The entry over the numbers and the copies of earlier ones.
    #[tactic(auto, unfolding(crate::specs::Remap::entry_over))]
    fn over(
        &self,
        id: u32,
        numbers: &IndexSet<u16>,
        copies: &IndexSet<(u32, u16)>,
    ) -> Result<RemapEntry, ModelFault>
        ensures value { result ≡ entry_over id numbers.now.keys copies.now.keys self.now }
        ensures new_number { IfOk result (λ e. seen_in e.number numbers.now.keys ≡ false) }
        ensures new_copy { IfOk result (λ e. list_any (same_copy (copied e)) copies.now.keys ≡ false) }
    {
        let Some(entry) = self.in_range() else {
            return Err(ModelFault::BadValue(id));
        };
        if numbers.contains(&entry.number) {
            return Err(ModelFault::BadValue(id));
        }
        if copies.contains(&(entry.source.0, entry.copy)) {
            return Err(ModelFault::BadValue(id));
        }
        Ok(entry)
    }
}

/// The list of a group: every entry in its range, with a number and a copy that no earlier one has.
pub(crate) fn remap_of(
    alloc: Global,
    id: u32,
    lines: &[EntryNumbers],
) -> Result<Vec<RemapEntry>, ModelFault>
    ensures { IsAnswer (items_of result) (remap_of id lines.now) }
{
    let mut numbers: IndexSet<u16> = IndexSet::new(alloc);
    let mut copies: IndexSet<(u32, u16)> = IndexSet::new(alloc);
    let mut remap = Vec::new(alloc);
    for line in lines {
        let entry = line.over(id, &numbers, &copies)?;
        numbers.insert(entry.number)?;
        copies.insert((entry.source.0, entry.copy))?;
        remap.push(entry)?;
    }
    Ok(remap)
}
