// The numbers of a model before any group is regenerated.

ghost use Rattle.std.specs.Prelude.{◌≡◌, ◌<◌, ◌≤◌, ◌++◌, map, IfOk, OnOk, flat_map};
ghost use Rattle.std.specs.List.{All};
ghost use Rattle.sk_types.specs.declared.group.Group.{Group as AnyGroup};
ghost use Rattle.sk_types.specs.Params.{OwnFit, own_params, group_params};
ghost use Rattle.sk_regen.specs.GroupWorks.{nought, stands, no_act, all_params, all_acts};

use crate::NoMemory;
use sk_num::Grid;
use sk_types::{
    Act, Entity, Group, ParamId, ParamValue, group_params, has_numbers, is_face, own_params,
};
use std::alloc::Global;

/// A parameter at 0.
fn nought<const S: u32>(id: ParamId) -> ParamValue<S>
    ensures { result ≡ nought id }
{
    ParamValue {
        id,
        value: Grid::zero(),
    }
}

/// Appends parameters at 0.
fn push_noughts<const S: u32>(
    params: &mut Vec<ParamValue<S>>,
    ids: &[ParamId],
) -> Result<(), NoMemory>
    ensures { OnOk result (params.new.items ≡ params.old.items ++ map nought ids.now) }
{
    for id in ids {
        params.push(nought(*id))?;
    }
    Ok(())
}

/// Appends the parameters of entities at 0.
fn push_of_entities<const S: u32>(
    alloc: Global,
    params: &mut Vec<ParamValue<S>>,
    entities: &[Entity<S>],
) -> Result<(), NoMemory>
    requires { OwnFit entities.now }
    ensures { OnOk result (params.new.items ≡ params.old.items ++ map nought (flat_map own_params entities.now)) }
{
    for entity in entities {
        push_noughts(params, &own_params(alloc, entity)?)?;
    }
    Ok(())
}

/// Appends the parameters of groups at 0.
fn push_of_groups<const S: u32>(
    alloc: Global,
    params: &mut Vec<ParamValue<S>>,
    groups: &[Group<S>],
) -> Result<(), NoMemory>
    requires { All (λ (g : AnyGroup S). g.id.0 ≤ 32767) groups.now }
    ensures { OnOk result (params.new.items ≡ params.old.items ++ map nought (flat_map group_params groups.now)) }
{
    for group in groups {
        push_noughts(params, &group_params(alloc, group)?)?;
    }
    Ok(())
}

/// All parameters at 0, by rising handle.
pub(crate) fn all_params<const S: u32>(
    alloc: Global,
    groups: &[Group<S>],
    entities: &[Entity<S>],
) -> Result<Vec<ParamValue<S>>, NoMemory>
    requires fit { OwnFit entities.now }
    requires known { All (λ (g : AnyGroup S). g.id.0 ≤ 32767) groups.now }
    ensures { IfOk result (λ v. v.items ≡ all_params groups.now entities.now) }
{
    let mut params = Vec::new(alloc);
    push_of_entities(alloc, &mut params, entities)?;
    push_of_groups(alloc, &mut params, groups)?;
    let handle = |param: &ParamValue<S>| -> u32
        ensures { result ≡ param.now.id.0 }
    { param.id.0 };
    params.sort_by_key(handle)?;
    Ok(params)
}

/// Whether an entity has numbers at which it stands.
fn stands<const S: u32>(entity: &Entity<S>) -> bool
    ensures { result ≡ stands entity.now }
{
    has_numbers(entity.kind) || is_face(entity.kind)
}

/// An entity at 0.
fn no_act<const S: u32>(entity: &Entity<S>) -> Act<S>
    ensures { result ≡ no_act entity.now }
{
    Act {
        entity: entity.id,
        values: [Grid::zero(); 4],
    }
}

/// The numbers of all entities that have some, at 0.
pub(crate) fn all_acts<const S: u32>(
    alloc: Global,
    entities: &[Entity<S>],
) -> Result<Vec<Act<S>>, NoMemory>
    ensures { IfOk result (λ v. v.items ≡ all_acts entities.now) }
{
    let mut acts = Vec::new(alloc);
    for entity in entities {
        if stands(entity) {
            acts.push(no_act(entity))?;
        }
    }
    Ok(acts)
}
