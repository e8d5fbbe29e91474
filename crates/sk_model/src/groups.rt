// Groups.

ghost use Rattle.std.specs.Prelude.{◌≡◌, IfOk, false};
ghost use Rattle.sk_num.specs.Scale.{IsScale};
ghost use Rattle.sk_records.specs.declared.kinds.Kind.TheVariants as record_kind;
ghost use Rattle.sk_model.specs.Chain.{IsAnswer, seen_in};
ghost use Rattle.sk_model.specs.Groups.{group_of, part_name, part_of};
ghost use Rattle.sk_model.specs.Lists.{text_of};

use crate::faults::ModelFault;
use crate::fields::Fields;
use crate::group_keys::GroupKeys;
use crate::keys::Key;
use crate::remap::{all_numbers, remap_of};
use indexmap::IndexSet;
use sk_num::{Items, Text};
use sk_types::{EntityId, Group, GroupId, GroupKind};
use std::alloc::Global;

/// A group, over the handles of earlier ones, or its first fault.
#[tactic(auto, unfolding(crate::specs::Groups::group_of))]
pub(crate) fn group_of<const S: u32>(
    alloc: Global,
    seen: &IndexSet<u32>,
    fields: &Fields<'_>,
) -> Result<Group<S>, ModelFault>
    requires scale { IsScale S }
    requires kind { fields.now.kind ≡ record_kind.Group }
    ensures value { IsAnswer result (group_of S seen.now.keys fields.now.rows) }
    ensures new { IfOk result (λ x. seen_in x.id.0 seen.now.keys ≡ false) }
{
    let keys = GroupKeys::<S>::read(fields)?;
    let numbers = all_numbers(alloc, fields.map_lines())?;
    let kind = keys.accepted_kind(seen)?;
    let copies = keys.copies(kind)?;
    let remap = remap_of(alloc, keys.id, &numbers)?;
    let part = part_of(alloc, keys.id, kind, part_name(fields))?;
    Ok(Group {
        id: GroupId(keys.id),
        kind,
        order: keys.order,
        active: EntityId(keys.active),
        source: GroupId(keys.source),
        copies,
        two_sided: keys.is_two_sided(kind),
        skip_first: keys.skip_first,
        by_lines: keys.is_by_lines(kind),
        quaternion: keys.quaternion,
        origin: EntityId(keys.origin),
        entity_b: EntityId(keys.entity_b),
        entity_c: EntityId(keys.entity_c),
        swap_uv: keys.swap_uv,
        negate_u: keys.negate_u,
        negate_v: keys.negate_v,
        scale: keys.scale,
        remap: Items::of(remap),
        part: Text::of(part),
    })
}

// The name of a linked part as it stands.
fn part_name<'b>(fields: &Fields<'b>) -> &'b [u8]
    requires kind { fields.now.kind ≡ record_kind.Group }
    ensures { result.now ≡ part_name fields.now.rows }
{
    let relative = fields.text(Key::GroupRelativeFile);
    if relative.is_empty() {
        fields.text(Key::GroupFile)
    } else {
        relative
    }
}

// The name of a linked part; empty for any other group.
fn part_of(alloc: Global, id: u32, kind: GroupKind, name: &[u8]) -> Result<String, ModelFault>
    ensures { IsAnswer (text_of result) (part_of id kind name.now) }
{
    match kind {
        GroupKind::Linked => {}
        _ => return Ok(String::new(alloc)),
    }
    if name.is_empty() {
        return Err(ModelFault::BadValue(id));
    }
    match std::str::from_utf8(name) {
        Ok(text) => Ok(String::from_str(alloc, text)?),
        Err(_) => Err(ModelFault::BadValue(id)),
    }
}
