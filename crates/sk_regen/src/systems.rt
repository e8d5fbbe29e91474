// The system of a group over the numbers so far.

ghost use Rattle.std.specs.Prelude.{◌≡◌, true, map, nat_eq, IfOk, OnOk};
ghost use Rattle.std.specs.List.{All, IsDistinct};
ghost use Rattle.sk_num.specs.Scale.{IsScale};
ghost use Rattle.sk_types.specs.declared.entity.ParamValue.{ParamValue as Value};
ghost use Rattle.sk_types.specs.Lookups.{RiseBy, value_handle};
ghost use Rattle.sk_types.specs.Params.{unknown_params};
ghost use Rattle.sk_model.specs.Chain.{seen_in};
ghost use Rattle.sk_system.specs.SystemViews.{system_of as made_of};
ghost use Rattle.sk_regen.specs.Ground.{ArePlaced, IsGround, stands_among};
ghost use Rattle.sk_regen.specs.GroupWorks.{own_normal, params_of, system_of, acts_of};

use crate::NoMemory;
use crate::frames::{own_normal, put_frame};
use crate::ground::Ground;
use crate::numbers::{put_act, put_params};
use crate::parameters::{fixed_of, point_of};
use sk_num::Grid;
use sk_system::System;
use sk_types::{Act, Group, Numbers, ParamId, ParamValue, act_at, value_of};
use std::alloc::Global;

/// Where a parameter stands, 0 for one that isn't there.
fn stands_among<const S: u32>(params: &[ParamValue<S>], id: ParamId) -> ParamValue<S>
    requires { RiseBy value_handle params.now }
    ensures { (v : Value S) → v.id ≡ id → result ≡ stands_among params.now v }
{
    let value = value_of(params, u64::from(id.0)).unwrap_or(Grid::zero());
    ParamValue { id, value }
}

/// Where parameters stand.
fn standing<const S: u32>(
    alloc: Global,
    params: &[ParamValue<S>],
    among: &[ParamValue<S>],
) -> Result<Vec<ParamValue<S>>, NoMemory>
    requires { RiseBy value_handle among.now }
    ensures { IfOk result (λ v. v.items ≡ map (stands_among among.now) params.now) }
{
    let mut stand = Vec::new(alloc);
    for param in params {
        stand.push(stands_among(among, param.id))?;
    }
    Ok(stand)
}

/// The system of a group over the numbers so far, these fixed parameters and its frame. The numbers stay.
pub(crate) fn system_over<const S: u32>(
    alloc: Global,
    ground: &Ground<'_, S>,
    group: &Group<S>,
    numbers: &mut Numbers<S>,
    fixed: &[ParamValue<S>],
) -> Result<System<S>, NoMemory>
    requires scale { IsScale S }
    requires places { ArePlaced ground.now.model.now.lists ground.now.outline.now ground.now.requests.now.keys ground.now.shares.now }
    requires ground { IsGround ground.now.model.now.lists ground.now.outline.now numbers.old group.now }
    requires stand { All (λ (p : Value S). seen_in p.id.0 (map value_handle numbers.old.params) ≡ true) fixed.now }
    requires differ { IsDistinct nat_eq (map value_handle fixed.now) }
    ensures value { IfOk result (λ y. made_of y ≡ system_of ground.now.outline.now.entities ground.now.model.now.lists.constraints numbers.old group.now fixed.now) }
    ensures numbers { OnOk result (numbers.new ≡ numbers.old) }
{
    let outline = ground.outline;
    let share = ground.shares.share(group.id);
    let before = standing(alloc, fixed, numbers.params.as_slice())?;
    let normal = act_at(numbers.acts.as_slice(), own_normal(group));
    put_params(&mut numbers.params, fixed);
    put_frame(&mut numbers.acts, outline.entities.as_slice(), group);
    let system = System::new(alloc, group, outline, share, numbers)?;
    put_params(&mut numbers.params, &before);
    match normal {
        Some(normal) => put_act(&mut numbers.acts, normal),
        None => {}
    }
    Ok(system)
}

/// The readings of a group's entities where its parameters stand so.
pub(crate) fn acts_over<const S: u32>(
    alloc: Global,
    ground: &Ground<'_, S>,
    group: &Group<S>,
    unknowns: &[ParamId],
    numbers: &mut Numbers<S>,
    params: &[ParamValue<S>],
) -> Result<Vec<Act<S>>, NoMemory>
    requires scale { IsScale S }
    requires places { ArePlaced ground.now.model.now.lists ground.now.outline.now ground.now.requests.now.keys ground.now.shares.now }
    requires ground { IsGround ground.now.model.now.lists ground.now.outline.now numbers.old group.now }
    requires unknowns { unknowns.now ≡ unknown_params ground.now.model.now.lists.constraints ground.now.outline.now.entities group.now }
    requires own { map (λ (p : Value S). p.id) params.now ≡ params_of ground.now.outline.now.entities group.now }
    ensures value { IfOk result (λ v. v.items ≡ acts_of ground.now.outline.now.entities ground.now.model.now.lists.constraints numbers.old group.now params.now) }
    ensures numbers { OnOk result (numbers.new ≡ numbers.old) }
{
    let fixed = fixed_of(alloc, unknowns, params)?;
    let point = point_of(alloc, unknowns, params)?;
    let system = system_over(alloc, ground, group, numbers, &fixed)?;
    let acts = system.acts(alloc, &point)?;
    Ok(acts)
}
