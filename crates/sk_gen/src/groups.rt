// The four groups.
ghost use Rattle.std.specs.Prelude.{◌≡◌, ◌++◌, OnOk, codes};
ghost use Rattle.sk_gen.specs.MadeModel.{header, workplane, reference_group, drawing, extrusion, translation};

use crate::NoMemory;
use crate::lines::{put_close, put_handle, put_quantity, put_whole};
use sk_types::{EntityId, GroupId, RequestId};

/// The workplane in which the lines are drawn.
pub(crate) fn workplane() -> u32
    ensures { result ≡ workplane }
{
    EntityId::of_group(GroupId(2), 0).0
}

/// Puts the format's name, and two empty lines.
#[tactic(auto, unfolding(crate::specs::MadeModel::header))]
pub(crate) fn put_header(out: &mut Vec<u8>) -> Result<(), NoMemory>
    ensures { OnOk result (out.new.items ≡ out.old.items ++ header) }
{
    out.extend_from_slice(b"\xb1\xb2\xb3SolveSpaceREVa\n\n\n")?;
    Ok(())
}

/// Puts the group of the reference workplanes.
#[tactic(auto, unfolding(crate::specs::MadeModel::reference_group))]
pub(crate) fn put_reference_group(out: &mut Vec<u8>) -> Result<(), NoMemory>
    ensures { OnOk result (out.new.items ≡ out.old.items ++ reference_group) }
{
    put_handle(out, "Group.h.v", 1)?;
    put_whole(out, "Group.type", 5000)?;
    put_close(out, "AddGroup")
}

/// Puts the drawing in the workplane.
#[tactic(auto, unfolding(crate::specs::MadeModel::drawing))]
pub(crate) fn put_drawing(out: &mut Vec<u8>) -> Result<(), NoMemory>
    ensures { OnOk result (out.new.items ≡ out.old.items ++ drawing) }
{
    put_handle(out, "Group.h.v", 2)?;
    put_whole(out, "Group.type", 5001)?;
    put_whole(out, "Group.order", 1)?;
    put_handle(out, "Group.activeWrkpl.v", workplane())?;
    put_whole(out, "Group.subtype", 6000)?;
    put_quantity(out, "Group.predef.q.w", 1)?;
    put_handle(
        out,
        "Group.predef.origin.v",
        EntityId::of_request(RequestId(1), 1).0,
    )?;
    put_close(out, "AddGroup")
}

/// Puts its extrusion.
#[tactic(auto, unfolding(crate::specs::MadeModel::extrusion))]
pub(crate) fn put_extrusion(out: &mut Vec<u8>) -> Result<(), NoMemory>
    ensures { OnOk result (out.new.items ≡ out.old.items ++ extrusion) }
{
    put_handle(out, "Group.h.v", 3)?;
    put_whole(out, "Group.type", 5100)?;
    put_whole(out, "Group.order", 2)?;
    put_handle(out, "Group.opA.v", 2)?;
    put_whole(out, "Group.subtype", 7000)?;
    put_handle(out, "Group.predef.entityB.v", workplane())?;
    put_close(out, "AddGroup")
}

/// Puts the translation of the extrusion.
#[tactic(auto, unfolding(crate::specs::MadeModel::translation))]
pub(crate) fn put_translation(out: &mut Vec<u8>) -> Result<(), NoMemory>
    ensures { OnOk result (out.new.items ≡ out.old.items ++ translation) }
{
    put_handle(out, "Group.h.v", 4)?;
    put_whole(out, "Group.type", 5201)?;
    put_whole(out, "Group.order", 3)?;
    put_handle(out, "Group.opA.v", 3)?;
    put_quantity(out, "Group.valA", 3)?;
    put_whole(out, "Group.subtype", 7000)?;
    put_handle(out, "Group.predef.entityB.v", workplane())?;
    put_close(out, "AddGroup")
}
