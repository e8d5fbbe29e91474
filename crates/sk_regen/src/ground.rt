// What groups are regenerated over.

ghost use Rattle.std.specs.Prelude.{◌≡◌, ◌≤◌, map, nat_eq, IfOk};
ghost use Rattle.std.specs.List.{IsDistinct};
ghost use Rattle.sk_types.specs.declared.request.Request.{Request as AnyRequest};
ghost use Rattle.sk_types.specs.Params.{OwnFit, unknown_params};
ghost use Rattle.sk_regen.specs.Ground.{ArePlaced};
ghost use Rattle.sk_regen.specs.GroupWorks.{params_of, request_handle};

use crate::NoMemory;
use indexmap::IndexSet;
use sk_model::Model;
use sk_system::Shares;
use sk_types::{Group, Outline, ParamId, Request, RequestId, unknown_params};
use std::alloc::Global;

/// A model and its outline, with what is looked up in them for each group.
#[derive(Clone, Copy)]
pub(crate) struct Ground<'a, const S: u32> {
    /// The model, with extended remap lists.
    pub(crate) model: &'a Model<S>,
    /// Its outline.
    pub(crate) outline: &'a Outline<S>,
    /// The requests with their places.
    pub(crate) requests: &'a IndexSet<RequestId>,
    /// What belongs to each group.
    pub(crate) shares: &'a Shares<S>,
}

/// The parameters of a group that no constraint fixes.
pub(crate) fn unknowns_in<const S: u32>(
    alloc: Global,
    ground: &Ground<'_, S>,
    group: &Group<S>,
) -> Result<Vec<ParamId>, NoMemory>
    requires places { ArePlaced ground.now.model.now.lists ground.now.outline.now ground.now.requests.now.keys ground.now.shares.now }
    requires fit { OwnFit ground.now.outline.now.entities }
    requires known { group.now.id.0 ≤ 32767 }
    ensures { IfOk result (λ v. v.items ≡ unknown_params ground.now.model.now.lists.constraints ground.now.outline.now.entities group.now) }
{
    let share = ground.shares.share(group.id);
    let unknowns = unknown_params(alloc, share.constraints, share.entities, group)?;
    Ok(unknowns)
}

/// All parameters of a group.
pub(crate) fn params_in<const S: u32>(
    alloc: Global,
    ground: &Ground<'_, S>,
    group: &Group<S>,
) -> Result<Vec<ParamId>, NoMemory>
    requires places { ArePlaced ground.now.model.now.lists ground.now.outline.now ground.now.requests.now.keys ground.now.shares.now }
    requires fit { OwnFit ground.now.outline.now.entities }
    requires known { group.now.id.0 ≤ 32767 }
    ensures { IfOk result (λ v. v.items ≡ params_of ground.now.outline.now.entities group.now) }
{
    let share = ground.shares.share(group.id);
    let params = unknown_params(alloc, &[], share.entities, group)?;
    Ok(params)
}

/// The requests with their places.
pub(crate) fn places_of(
    alloc: Global,
    requests: &[Request],
) -> Result<IndexSet<RequestId>, NoMemory>
    requires { IsDistinct nat_eq (map (λ (r : AnyRequest). r.id.0) requests.now) }
    ensures { IfOk result (λ places. places.keys ≡ map request_handle requests.now) }
{
    let mut places = IndexSet::new(alloc);
    for request in requests {
        places.insert(request.id)?;
    }
    Ok(places)
}
