// The parts of linked groups.

ghost use Rattle.std.specs.Prelude.{◌≡◌, ◌≤◌, IsErrOf};
ghost use Rattle.sk_num.specs.Scale.{IsScale};
ghost use Rattle.sk_files.specs.Files.{OnTold};
ghost use Rattle.sk_files.specs.Outcome.{Rose};
ghost use Rattle.sk_types.specs.declared.handle.GroupId.{GroupId as Id};
ghost use Rattle.sk_types.specs.Lookups.{Rise};
ghost use Rattle.sk_records.specs.Answers.{IsAnswer};
ghost use Rattle.sk_link.specs.Lent.{items_of};
ghost use Rattle.sk_link.specs.Parts.{entities_of, parts_in, Reads, ReadsOne, IsReached, IsTheFirst};

use crate::fault::PartFault;
use crate::part::part_in;
use sk_files::{Folder, OuterFault};
use sk_num::Items;
use sk_types::{Entity, Group, GroupId};
use std::alloc::Global;
use std::marker::Model;

/// The entities of a group's part.
#[derive(Debug, Drop)]
pub(crate) struct Part<const S: u32> {
    pub(crate) group: GroupId,
    pub(crate) entities: Items<Entity<S>>,
}

/// The parts of linked groups: of each its entities, and nothing else of its text.
#[derive(Debug, Drop)]
pub struct Parts<const S: u32> {
    parts: Vec<Part<S>>,
}

impl<const S: u32> Model for Parts<S> {
    ghost use Rattle.std.specs.List.{All};
    ghost use Rattle.std.specs.Prelude.{List};
    ghost use Rattle.sk_types.specs.Lookups.{Rise};
    ghost use Rattle.sk_link.specs.declared.parts.Part.{Part as Linked};

    ghost Value = { List (Linked S) };

    ghost view = { λ p. p.parts.items };

    ghost invariant = { λ p. All (λ (q : Linked S). Rise q.entities) p.parts.items };
}

impl<const S: u32> Parts<S> {
    /// The entities of a group's part by rising handle, unscaled; none where the group isn't there.
    #[tactic(auto, using(crate::proofs::Rising::entities_rise))]
    pub fn entities(&self, group: GroupId) -> &[Entity<S>]
        ensures entities { result.now ≡ entities_of group self.now }
        ensures rise { Rise result.now }
    {
        entities_of(&self.parts, group)
    }
}

// The functions below work on the list.
ghost use Rattle.sk_link.specs.Chain.{with_err};
ghost use Rattle.sk_link.specs.Faults.{fault_at};
ghost use Rattle.sk_link.specs.Part.{part_in};

// The entities of a group's part.
fn entities_of<const S: u32>(parts: &[Part<S>], group: GroupId) -> &[Entity<S>]
    ensures { result.now ≡ entities_of group parts.now }
{
    for part in parts {
        if group.0 == part.group.0 {
            return part.entities.as_slice();
        }
    }
    &[]
}

// The entities of the text of a group's part.
fn part_at<const S: u32>(
    alloc: Global,
    group: GroupId,
    text: Vec<u8>,
) -> Result<Vec<Entity<S>>, PartFault>
    requires { IsScale S }
    ensures { IsAnswer PartFault.NoMemory (items_of result) (with_err (fault_at group) (part_in S text.items)) }
{
    match part_in(alloc, text) {
        Ok(entities) => Ok(entities),
        Err(refusal) => Err(refusal.of(group)),
    }
}

// Reads the part of a group.
fn read_part<const S: u32, F: Folder>(
    alloc: Global,
    group: &Group<S>,
    folder: &mut F,
) -> Result<Vec<Entity<S>>, PartFault>
    requires { IsScale S }
    ensures reads { ReadsOne S (F.files folder.old) (Rose (F.faults folder.old) (F.faults folder.new)) group.now (items_of result) }
    ensures files { F.files folder.new ≡ F.files folder.old }
    ensures later { F.faults folder.old ≤ F.faults folder.new }
{
    match folder.read(alloc, group.part.as_str()) {
        Ok(Some(text)) => part_at(alloc, group.id, text),
        Ok(None) => Err(PartFault::PartAbsent(group.id)),
        Err(OuterFault::Failed) => Err(PartFault::PartRead(group.id)),
        Err(OuterFault::NoMemory) => Err(PartFault::NoMemory),
    }
}

// Reads the parts of groups in order, to the first fault.
fn read_all<const S: u32, F: Folder>(
    alloc: Global,
    linked: &[Group<S>],
    folder: &mut F,
) -> Result<Vec<Part<S>>, PartFault>
    requires { IsScale S }
    ensures reads { Reads S (F.files folder.old) (Rose (F.faults folder.old) (F.faults folder.new)) linked.now (items_of result) }
    ensures files { F.files folder.new ≡ F.files folder.old }
    ensures later { F.faults folder.old ≤ F.faults folder.new }
{
    let mut parts = Vec::new(alloc);
    for group in linked {
        let entities = read_part(alloc, group, folder)?;
        parts.push(Part {
            group: group.id,
            entities: Items::of(entities),
        })?;
    }
    Ok(parts)
}

/// Reads the parts of groups in order, one read of the folder for each group, also where two name one file, and ends at the
/// first fault. The groups are to be linked ones: of each its name is read, and nothing else of it but its handle.
///
/// PartAbsent is the answer to a name that the folder doesn't hold, PartRead to a failure that it counted. PartText and
/// PartNumber tell what is wrong in the text: all lines come before all values, and values are tried over all entity records in
/// file order.
#[tactic(auto, using(crate::proofs::Rising::reads_rise))]
pub fn read_parts<const S: u32, F: Folder>(
    alloc: Global,
    linked: &[Group<S>],
    folder: &mut F,
) -> Result<Parts<S>, PartFault>
    requires { IsScale S }
    // The parts or the fault are those of what the folder gave at each read, in the order of the groups.
    ensures reads { Reads S (F.files folder.old) (Rose (F.faults folder.old) (F.faults folder.new)) linked.now result }
    // Where files are told each answer is the first fault of the parts that are held, or all parts.
    ensures first { OnTold (F.files folder.old) (λ files. IsTheFirst S files (Rose (F.faults folder.old) (F.faults folder.new)) linked.now result) }
    // A failed read is told only where it was counted.
    ensures unread { (g : Id) → IsErrOf result (PartFault.PartRead g) → Rose (F.faults folder.old) (F.faults folder.new) × IsReached S (F.files folder.old) linked.now g }
    // Where none was counted the first fault does come, or memory was wanted.
    ensures complete { OnTold (F.files folder.old) (λ files. (Rose (F.faults folder.old) (F.faults folder.new) → ⊥) → IsAnswer PartFault.NoMemory result (parts_in S files linked.now)) }
    ensures files { F.files folder.new ≡ F.files folder.old }
    ensures later { F.faults folder.old ≤ F.faults folder.new }
{
    match read_all(alloc, linked, folder) {
        Ok(parts) => Ok(Parts { parts }),
        Err(fault) => Err(fault),
    }
}
