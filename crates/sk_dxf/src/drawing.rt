// Drawings of groups.
#![tactic(auto)]

ghost use Rattle.std.specs.Prelude.{◌≡◌, ◌↔◌, ◌++◌, List, ℕ, Some, None, Err, OnOk, OnErr, take, length};
ghost use Rattle.std.specs.Option.{option_copied};
ghost use Rattle.sk_num.specs.Scale.{IsScale};
ghost use Rattle.sk_types.specs.Lookups.{act_handle, Rise, RiseBy};
ghost use Rattle.sk_dxf.specs.Plane.{workplane_or, drawing_plane, plane_numbers};
ghost use Rattle.sk_dxf.specs.Drawing.{section_head, section_end, entity_texts, group_drawing, active_in, drawing};
ghost use Rattle.sk_dxf.specs.declared.fault.DxfFault.TheVariants as fault;

use crate::NoMemory;
use crate::entities::put_entities;
use crate::fault::DxfFault;
use crate::plane::Plane;
use crate::sheet::{Sheet, named, numbers_at};
use sk_model::Model;
use sk_num::Grid;
use sk_types::{
    Act, Entity, EntityId, Group, GroupId, Numbers, Outline, RequestId, entity_at, entity_kind,
};
use std::alloc::Global;

/// The workplane that is active in a group, where the model has the group.
fn active_in<const S: u32>(groups: &[Group<S>], id: GroupId) -> Option<EntityId>
    ensures { result ≡ active_in id.0 groups.now }
{
    for group in groups {
        if id.0 == group.id.0 {
            return Some(group.active);
        }
    }
    None
}

fn workplane_or<'a, const S: u32>(
    other: Option<&'a Entity<S>>,
    e: Option<&'a Entity<S>>,
) -> Option<&'a Entity<S>>
    ensures { option_copied result ≡ workplane_or (option_copied other.entry) (option_copied e.entry) }
{
    match e {
        Some(e) if e.kind == entity_kind::WORKPLANE => Some(e),
        _ => other,
    }
}

/// What is active in the group, where that is a workplane, else XY.
fn drawing_plane<const S: u32>(entities: &[Entity<S>], active: EntityId) -> Option<&Entity<S>>
    requires { Rise entities.now }
    ensures { option_copied result ≡ drawing_plane entities.now active }
{
    let xy = entity_at(entities, EntityId::of_request(RequestId(1), 0));
    workplane_or(xy, entity_at(entities, active))
}

/// The plane of a workplane, by the numbers at which its point and its normal stand.
fn plane_of<const S: u32>(acts: &[Act<S>], workplane: Option<&Entity<S>>) -> Plane<S>
    requires scale { IsScale S }
    requires acts { RiseBy act_handle acts.now }
    ensures { result ≡ plane_numbers acts.now (option_copied workplane.entry) }
{
    match workplane {
        Some(w) => Plane::new(
            numbers_at(acts, named(w.points.as_slice(), 0)),
            numbers_at(acts, w.normal),
        ),
        None => Plane::new([Grid::zero(); 4], [Grid::zero(); 4]),
    }
}

/// Appends the section. At an `Err` a part of it may have been appended.
fn put_section<const S: u32>(
    alloc: Global,
    sheet: &Sheet<'_, S>,
    group: GroupId,
    entities: &[Entity<S>],
    out: &mut Vec<u8>,
) -> Result<(), NoMemory>
    requires scale { IsScale S }
    requires acts { RiseBy act_handle sheet.now.acts.now }
    ensures ok { OnOk result (out.new.items ≡ out.old.items ++ (section_head ++ (entity_texts sheet.now.plane sheet.now.acts.now group.0 entities.now ++ section_end))) }
    ensures kept { take (length out.old.items) out.new.items ≡ out.old.items }
{
    out.extend_from_slice(b"0\nSECTION\n2\nENTITIES\n")?;
    put_entities(alloc, sheet, group, entities, out)?;
    out.extend_from_slice(b"0\nENDSEC\n0\nEOF\n")?;
    Ok(())
}

/// Appends the drawing of a group in which that is active. At an `Err` nothing is appended.
#[tactic(auto, unfolding(crate::specs::Drawing::group_drawing))]
fn put_drawing<const S: u32>(
    alloc: Global,
    entities: &[Entity<S>],
    acts: &[Act<S>],
    group: GroupId,
    active: EntityId,
    out: &mut Vec<u8>,
) -> Result<(), NoMemory>
    requires scale { IsScale S }
    requires entities { Rise entities.now }
    requires acts { RiseBy act_handle acts.now }
    ensures ok { OnOk result (out.new.items ≡ out.old.items ++ group_drawing entities.now acts.now group.0 active) }
    ensures err { OnErr result (out.new.items ≡ out.old.items) }
{
    let before = out.len();
    let plane = plane_of(acts, drawing_plane(entities, active));
    let sheet = Sheet { plane, acts };
    match put_section(alloc, &sheet, group, entities, out) {
        Ok(()) => Ok(()),
        Err(error) => {
            out.truncate(before);
            Err(error)
        }
    }
}

/// Appends the drawing of a group in ASCII DXF: its lines, datum points, circles, arcs and cubics in the plane of its active
/// workplane, or of XY where what is active is none. Millimetres with 20 decimals, all on layer 0.
///
/// NoGroup exactly where the model has no such group. At an `Err` nothing is appended.
pub fn write_dxf<const S: u32>(
    alloc: Global,
    model: &Model<S>,
    outline: &Outline<S>,
    numbers: &Numbers<S>,
    group: GroupId,
    out: &mut Vec<u8>,
) -> Result<(), DxfFault>
    requires scale { IsScale S }
    requires entities { Rise outline.now.entities }
    requires acts { RiseBy act_handle numbers.now.acts }
    ensures drawn { OnOk result ((text : List ℕ) ×
        (drawing model.now.lists.groups outline.now.entities numbers.now.acts group ≡ Some text) × (out.new.items ≡ out.old.items ++ text)) }
    ensures no_group { result ≡ Err fault.NoGroup ↔
        drawing model.now.lists.groups outline.now.entities numbers.now.acts group ≡ None }
    ensures refused { OnErr result (out.new.items ≡ out.old.items) }
{
    let active = match active_in(model.groups(), group) {
        Some(active) => active,
        None => return Err(DxfFault::NoGroup),
    };
    let entities = outline.entities.as_slice();
    let acts = numbers.acts.as_slice();
    put_drawing(alloc, entities, acts, group, active, out)?;
    Ok(())
}
