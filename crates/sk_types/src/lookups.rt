// Look-ups by handle, by binary search.

ghost use Rattle.std.specs.Prelude.{◌≡◌, ◌<◌, IfSome, length};
ghost use Rattle.std.specs.Option.{option_copied};
ghost use Rattle.sk_types.specs.Lookups.{entity_at, act_at, value_of, place_of, act_handle, value_handle, param_handle, Rise, RiseBy};

use crate::entity::{Act, Entity, ParamValue};
use crate::handle::{EntityId, ParamId};
use sk_num::Grid;

/// The entity with a handle, among entities by rising handle; None where there is none.
pub fn entity_at<const S: u32>(entities: &[Entity<S>], id: EntityId) -> Option<&Entity<S>>
    requires { Rise entities.now }
    ensures { option_copied result ≡ entity_at id.0 entities.now }
{
    let handle = |entity: &Entity<S>| -> u32
        ensures { result ≡ entity.now.id.0 }
    { entity.id.0 };
    match entities.binary_search_by_key(&id.0, handle) {
        Ok(place) => Some(&entities[place]),
        Err(_) => None,
    }
}

/// The numbers at which the entity with a handle stands, among acts by rising handle; None where it has none.
pub fn act_at<const S: u32>(acts: &[Act<S>], id: EntityId) -> Option<Act<S>>
    requires { RiseBy act_handle acts.now }
    ensures { result ≡ act_at id.0 acts.now }
{
    let handle = |act: &Act<S>| -> u32
        ensures { result ≡ act.now.entity.0 }
    { act.entity.0 };
    match acts.binary_search_by_key(&id.0, handle) {
        Ok(place) => Some(acts[place]),
        Err(_) => None,
    }
}

/// The value of the parameter with a handle, among parameters by rising handle; None where there is none, as past 2^32.
pub fn value_of<const S: u32>(params: &[ParamValue<S>], handle: u64) -> Option<Grid<S>>
    requires { RiseBy value_handle params.now }
    ensures { result ≡ value_of handle params.now }
{
    let key = |param: &ParamValue<S>| -> u64
        ensures { result ≡ param.now.id.0 }
    { u64::from(param.id.0) };
    match params.binary_search_by_key(&handle, key) {
        Ok(place) => Some(params[place].value),
        Err(_) => None,
    }
}

/// The place of the parameter with a handle, among parameters by rising handle, from 0; None where it isn't there, as past 2^32.
pub fn place_of(params: &[ParamId], handle: u64) -> Option<usize>
    requires { RiseBy param_handle params.now }
    ensures place { result ≡ place_of handle params.now }
    ensures there { IfSome result (λ i. i < length params.now) }
{
    let key = |param: &ParamId| -> u64
        ensures { result ≡ param.now.0 }
    { u64::from(param.0) };
    match params.binary_search_by_key(&handle, key) {
        Ok(place) => Some(place),
        Err(_) => None,
    }
}
