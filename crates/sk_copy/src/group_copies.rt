// The entities of an extrusion, a translation or a linked group, and the list extended.

ghost use Rattle.std.specs.Prelude.{◌≡◌, ◌≤◌, ◌⊎◌, IfOk, IfErr, OnErr, Ok, Err, Some, None};
ghost use Rattle.sk_num.specs.Scale.{IsScale};
ghost use Rattle.sk_types.specs.Lookups.{Rise};
ghost use Rattle.sk_copy.specs.Extended.{number_in};
ghost use Rattle.sk_copy.specs.Copies.{copies, made_by};

use crate::extrude::extrude;
use crate::fault::CopyFault;
use crate::linked::link;
use crate::lists::extended;
use crate::numbers::Numbers;
use crate::order::put_in_order;
use crate::planes::plane_entities;
use crate::translate::translate;
use sk_types::{Entity, Group, GroupKind, RemapEntry};
use std::alloc::Global;

// What a group makes by the numbers of its list.
fn made_by<const S: u32>(
    alloc: Global,
    group: &Group<S>,
    list: &[RemapEntry],
    source: &[Entity<S>],
) -> Result<Vec<Entity<S>>, CopyFault>
    requires scale { IsScale S }
    requires id { group.now.id.0 ≤ 32767 }
    requires copies { group.now.copies ≤ 999 }
    requires rise { Rise source.now }
    ensures made { IfOk result (λ v. made_by group.now.kind group.now (number_in list.now) source.now ≡ Some v.items) }
    ensures past { IfErr result (λ f. (f ≡ CopyFault.NoMemory) ⊎ ((f ≡ CopyFault.PastLimit) × (made_by group.now.kind group.now (number_in list.now) source.now ≡ None))) }
{
    let numbers = Numbers::of(alloc, list)?;
    match group.kind {
        GroupKind::Space => Ok(Vec::new(alloc)),
        GroupKind::Plane => Ok(plane_entities(alloc, group)?),
        GroupKind::Extrude => Ok(extrude(alloc, &numbers, group, source)?),
        GroupKind::Translate => Ok(translate(alloc, &numbers, group, source)?),
        GroupKind::Linked => Ok(link(alloc, &numbers, group, source)?),
    }
}

/// The entities that a group makes of those that it copies, in rising handle order, and the list extended by the copies that
/// it lacks: each gets one more than the greatest number, in rising handle of what is copied, then by the copy's number. No
/// entry goes. A drawing copies nothing.
///
/// Full exactly where a next number would be 65536; PastLimit exactly where none would be and a scaled number passes the
/// limit. At an `Err` the list is as it was.
pub fn copies<const S: u32>(
    alloc: Global,
    group: &Group<S>,
    source: &[Entity<S>],
    list: &mut Vec<RemapEntry>,
) -> Result<Vec<Entity<S>>, CopyFault>
    requires scale { IsScale S }
    requires id { group.now.id.0 ≤ 32767 }
    requires copies { group.now.copies ≤ 999 }
    requires rise { Rise source.now }
    ensures done { IfOk result (λ v. copies group.now list.old.items source.now ≡ Ok (record { list = list.new.items; entities = v.items })) }
    ensures refused { IfErr result (λ f. (f ≡ CopyFault.NoMemory) ⊎ (copies group.now list.old.items source.now ≡ Err f)) }
    ensures unchanged { OnErr result (list.new.items ≡ list.old.items) }
{
    let longer = extended(alloc, group, source, list.as_slice())?;
    let mut made = made_by(alloc, group, &longer, source)?;
    put_in_order(&mut made)?;
    *list = longer;
    Ok(made)
}
