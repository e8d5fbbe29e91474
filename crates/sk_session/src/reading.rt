// The model of a text, and the parts of its linked groups.

ghost use Rattle.std.specs.Prelude.{◌≡◌, ◌≤◌, IfOk, IsErrOf};
ghost use Rattle.std.specs.List.{All, filter, filter_map};
ghost use Rattle.sk_num.specs.Scale.{IsScale};
ghost use Rattle.sk_files.specs.Files.{OnTold};
ghost use Rattle.sk_files.specs.Outcome.{Rose};
ghost use Rattle.sk_types.specs.declared.handle.GroupId.{GroupId as Id};
ghost use Rattle.sk_records.specs.Answers.{IsAnswer};
ghost use Rattle.sk_link.specs.Parts.{parts_in, Reads, IsReached};
ghost use Rattle.sk_chain.specs.Known.{IsReadPart};
ghost use Rattle.sk_chain.specs.Lookups.{group_at};
ghost use Rattle.sk_records.specs.Reading.{read_text};
ghost use Rattle.sk_link.specs.Chain.{with_err};
ghost use Rattle.sk_model.specs.Typed.{typed};
ghost use Rattle.sk_session.specs.Opening.{is_linked, linked_groups, lists_in, model_of};

use crate::NoMemory;
use crate::fault::TextFault;
use sk_chain::{group_at, order_groups};
use sk_files::Folder;
use sk_link::{PartFault, Parts, read_parts};
use sk_model::Model;
use sk_records::Book;
use sk_regen::law_read;
use sk_types::{Group, GroupId, GroupKind};
use std::alloc::Global;

// The book of a text.
#[tactic(auto, using(crate::proofs::Faults::text_fault))]
fn read_book(alloc: Global, text: Vec<u8>) -> Result<Book, TextFault>
    ensures { IsAnswer TextFault.NoMemory result (with_err TextFault.Unread (read_text text.items)) }
{
    match Book::read(alloc, text) {
        Ok(book) => Ok(book),
        Err(fault) => Err(fault.into()),
    }
}

// The typed model of a book.
#[tactic(auto, using(crate::proofs::Faults::model_fault))]
fn typed_model<const S: u32>(alloc: Global, book: Book) -> Result<Model<S>, TextFault>
    requires { IsScale S }
    ensures lists { IsAnswer TextFault.NoMemory (lists_in result) (with_err TextFault.Untyped (typed S book)) }
    ensures book { IfOk result (λ m. m.blocks ≡ book) }
{
    match Model::from_book(alloc, book) {
        Ok(model) => Ok(model),
        Err(fault) => Err(fault.into()),
    }
}

/// The model of a text, or its first fault: of its size, its header, its lines, then of its records.
#[tactic(auto, unfolding(crate::specs::Opening::model_of))]
pub fn read_model<const S: u32>(alloc: Global, text: Vec<u8>) -> Result<Model<S>, TextFault>
    requires { IsScale S }
    ensures { IsAnswer TextFault.NoMemory result (model_of S text.items) }
{
    let book = read_book(alloc, text)?;
    let model = typed_model(alloc, book)?;
    Ok(model)
}

fn is_linked<const S: u32>(group: &Group<S>) -> bool
    ensures { result ≡ is_linked group.now }
{
    matches!(group.kind, GroupKind::Linked)
}

/// The linked groups in file order.
fn linked<const S: u32>(alloc: Global, groups: &[Group<S>]) -> Result<Vec<Group<S>>, NoMemory>
    ensures { IfOk result (λ v. v.items ≡ filter is_linked groups.now) }
{
    let mut linked = Vec::new(alloc);
    for group in groups {
        if is_linked(group) {
            linked.push(group.copy(alloc)?)?;
        }
    }
    Ok(linked)
}

/// Groups in an order; what isn't among them is passed over.
fn in_order<const S: u32>(
    alloc: Global,
    groups: &[Group<S>],
    order: &[GroupId],
) -> Result<Vec<Group<S>>, NoMemory>
    ensures { IfOk result (λ v. v.items ≡ filter_map (λ (g : Id). group_at g.0 groups.now) order.now) }
{
    let mut found = Vec::new(alloc);
    for id in order {
        if let Some(group) = group_at(groups, *id) {
            found.push(group.copy(alloc)?)?;
        }
    }
    Ok(found)
}

/// The linked groups in group order.
fn linked_groups<const S: u32>(alloc: Global, model: &Model<S>) -> Result<Vec<Group<S>>, NoMemory>
    ensures { IfOk result (λ v. v.items ≡ linked_groups model.now.lists.groups) }
{
    let linked = linked(alloc, model.groups())?;
    let order = order_groups(alloc, model)?;
    let groups = in_order(alloc, &linked, &order)?;
    Ok(groups)
}

/// Reads the parts of a model's linked groups, one read for each, in group order, up to the first fault.
pub fn linked_parts<const S: u32, F: Folder>(
    alloc: Global,
    model: &Model<S>,
    folder: &mut F,
) -> Result<Parts<S>, PartFault>
    requires { IsScale S }
    // The parts or the fault are those of what the folder gave at each read.
    ensures reads { Reads S (F.files folder.old) (Rose (F.faults folder.old) (F.faults folder.new)) (linked_groups model.now.lists.groups) result }
    // Where files are told and no fault was counted, they are those of the files, or memory was wanted.
    ensures complete { OnTold (F.files folder.old) (λ files. (Rose (F.faults folder.old) (F.faults folder.new) → ⊥) → IsAnswer PartFault.NoMemory result (parts_in S files (linked_groups model.now.lists.groups))) }
    // A failed read is told only where it was counted.
    ensures unread { (g : Id) → IsErrOf result (PartFault.PartRead g) → Rose (F.faults folder.old) (F.faults folder.new) × IsReached S (F.files folder.old) (linked_groups model.now.lists.groups) g }
    ensures parts { IfOk result (λ p. All IsReadPart p) }
    ensures files { F.files folder.new ≡ F.files folder.old }
    ensures later { F.faults folder.old ≤ F.faults folder.new }
{
    let groups = linked_groups(alloc, model)?;
    let parts = read_parts(alloc, &groups, folder)?;
    law_read();
    Ok(parts)
}
