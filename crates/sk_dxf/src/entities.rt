// The text of a group's entities.
#![tactic(auto)]

ghost use Rattle.std.specs.Prelude.{◌≡◌, ◌++◌, OnOk, OnErr, take, length};
ghost use Rattle.sk_num.specs.Scale.{IsScale};
ghost use Rattle.sk_types.specs.Lookups.{act_handle, RiseBy};
ghost use Rattle.sk_dxf.specs.Drawing.{drawn_text, entity_text, entity_texts};

use crate::NoMemory;
use crate::lines::put_shape;
use crate::shape::{LeftOut, Shape};
use crate::sheet::Sheet;
use sk_types::{Entity, GroupId};
use std::alloc::Global;

/// Puts what is drawn.
fn put_drawn<const S: u32>(
    out: &mut Vec<u8>,
    shape: &Result<Shape<S>, LeftOut>,
) -> Result<(), NoMemory>
    requires { IsScale S }
    ensures { OnOk result (out.new.items ≡ out.old.items ++ drawn_text shape.now) }
{
    match shape {
        Ok(shape) => put_shape(out, shape),
        Err(_) => Ok(()),
    }
}

/// Appends an entity, where it is one of the group; its text is first made in `piece`. At an `Err` nothing is appended.
#[tactic(auto, unfolding(crate::specs::Drawing::entity_text))]
fn put_entity<const S: u32>(
    piece: &mut Vec<u8>,
    sheet: &Sheet<'_, S>,
    group: GroupId,
    e: &Entity<S>,
    out: &mut Vec<u8>,
) -> Result<(), NoMemory>
    requires scale { IsScale S }
    requires acts { RiseBy act_handle sheet.now.acts.now }
    ensures ok { OnOk result (out.new.items ≡ out.old.items ++ entity_text sheet.now.plane sheet.now.acts.now group.0 e.now) }
    ensures err { OnErr result (out.new.items ≡ out.old.items) }
{
    if e.group.0 != group.0 {
        return Ok(());
    }
    piece.clear();
    put_drawn(piece, &sheet.shape(e))?;
    out.extend_from_slice(piece.as_slice())?;
    Ok(())
}

/// Appends the entities of the group. At an `Err` some of them may have been appended.
pub(crate) fn put_entities<const S: u32>(
    alloc: Global,
    sheet: &Sheet<'_, S>,
    group: GroupId,
    entities: &[Entity<S>],
    out: &mut Vec<u8>,
) -> Result<(), NoMemory>
    requires scale { IsScale S }
    requires acts { RiseBy act_handle sheet.now.acts.now }
    ensures ok { OnOk result (out.new.items ≡ out.old.items ++ entity_texts sheet.now.plane sheet.now.acts.now group.0 entities.now) }
    ensures kept { take (length out.old.items) out.new.items ≡ out.old.items }
{
    let mut piece = Vec::new(alloc);
    for e in entities {
        put_entity(&mut piece, sheet, group, e, out)?;
    }
    Ok(())
}
