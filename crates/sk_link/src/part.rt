// The entities of one part.

ghost use Rattle.std.specs.Prelude.{◌≡◌, ◌<◌, IfOk, length};
ghost use Rattle.sk_num.specs.Scale.{IsScale};
ghost use Rattle.sk_records.specs.Answers.{IsAnswer, rows_in};
ghost use Rattle.sk_records.specs.Blocks.{records};
ghost use Rattle.sk_link.specs.Lent.{items_of};
ghost use Rattle.sk_link.specs.Part.{entities_in, part_in, present_in};
ghost use Rattle.sk_link.specs.PartLaws.{LastCountsLaw};
ghost use Rattle.sk_link.specs.Stored.{stored};

use crate::NoMemory;
use crate::fault::Refusal;
use crate::fields::Fields;
use crate::keys::find_lines;
use crate::stored::Stored;
use sk_records::{Book, Kind, RecId};
use sk_types::Entity;
use std::alloc::Global;
use std::collections::BTreeMap;

// What a record of the book stores.
fn stored_at<const S: u32>(alloc: Global, book: &Book, rec: RecId) -> Result<Stored<S>, Refusal>
    requires scale { IsScale S }
    requires exists { rec.place < length (records rec.kind book.now) }
    ensures { IsAnswer Refusal.NoMemory result (stored S (rows_in rec book.now)) }
{
    let found = find_lines(book, rec);
    let fields = Fields::of(book, rec, &found);
    Stored::read(alloc, &fields)
}

// The entities that are there, in their order.
fn present<const S: u32>(
    alloc: Global,
    counted: BTreeMap<u32, Option<Entity<S>>>,
) -> Result<Vec<Entity<S>>, NoMemory>
    ensures { IfOk result (λ v. v.items ≡ present_in counted.entry.entries) }
{
    let mut entities = Vec::new(alloc);
    for entity in counted.into_values() {
        if let Some(entity) = entity {
            entities.push(entity)?;
        }
    }
    Ok(entities)
}

// The entities that a book stores.
fn entities_in<const S: u32>(alloc: Global, book: &Book) -> Result<Vec<Entity<S>>, Refusal>
    requires { IsScale S }
    ensures { IsAnswer Refusal.NoMemory (items_of result) (entities_in S book.now) }
{
    let mut counted = BTreeMap::new(alloc);
    for place in 0..book.count(Kind::Entity) {
        let rec = RecId {
            kind: Kind::Entity,
            place,
        };
        let stored = stored_at(alloc, book, rec)?;
        counted.insert(stored.handle, stored.entity)?;
    }
    let entities = present(alloc, counted)?;
    Ok(entities)
}

/// The entities of a part's text by rising handle, or its first fault. Of records with the same handle the last counts, and of
/// those that count the ones whose number is from 0 to 65535.
#[tactic(auto, unfolding(crate::specs::Part::part_in))]
pub(crate) fn part_in<const S: u32>(alloc: Global, text: Vec<u8>) -> Result<Vec<Entity<S>>, Refusal>
    requires { IsScale S }
    ensures { IsAnswer Refusal.NoMemory (items_of result) (part_in S text.items) }
{
    let book = Book::read(alloc, text)?;
    entities_in(alloc, &book)
}

/// Of a part's records with one handle the last counts, in file order and whatever its number: a law. The function does nothing
/// when it runs.
pub fn law_last_counts()
    ensures { LastCountsLaw }
{}
