// The numbers so far, each in its place.

ghost use Rattle.std.specs.Prelude.{◌≡◌, true, map};
ghost use Rattle.std.specs.List.{All};
ghost use Rattle.sk_types.specs.declared.entity.ParamValue.{ParamValue as Value};
ghost use Rattle.sk_types.specs.Lookups.{RiseBy, value_handle, act_handle};
ghost use Rattle.sk_model.specs.Chain.{seen_in};
ghost use Rattle.sk_model.specs.Changes.{with_param, with_params};
ghost use Rattle.sk_regen.specs.Regeneration.{with_act, with_acts};

use sk_num::Items;
use sk_types::{Act, ParamValue};

/// Sets a parameter that stands.
fn put_param<const S: u32>(params: &mut Items<ParamValue<S>>, param: ParamValue<S>)
    requires rise { RiseBy value_handle params.old }
    requires stands { seen_in param.id.0 (map value_handle params.old) ≡ true }
    ensures { params.new ≡ with_param param.entry.id.0 param.entry.value params.old }
{
    let key = |old: &ParamValue<S>| -> u32
        ensures { result ≡ old.now.id.0 }
    { old.id.0 };
    if let Ok(place) = params.as_slice().binary_search_by_key(&param.id.0, key) {
        params.put(place, param);
    }
}

/// Sets parameters that stand, one after the other.
pub(crate) fn put_params<const S: u32>(params: &mut Items<ParamValue<S>>, values: &[ParamValue<S>])
    requires rise { RiseBy value_handle params.old }
    requires stand { All (λ (p : Value S). seen_in p.id.0 (map value_handle params.old) ≡ true) values.now }
    ensures value { params.new ≡ with_params values.now params.old }
    ensures handles { map value_handle params.new ≡ map value_handle params.old }
{
    for value in values {
        put_param(params, *value);
    }
}

/// Sets the reading of an entity; one that has no place changes nothing.
pub(crate) fn put_act<const S: u32>(acts: &mut Items<Act<S>>, act: Act<S>)
    requires { RiseBy act_handle acts.old }
    ensures value { acts.new ≡ with_act act.entry acts.old }
    ensures handles { map act_handle acts.new ≡ map act_handle acts.old }
{
    let key = |old: &Act<S>| -> u32
        ensures { result ≡ old.now.entity.0 }
    { old.entity.0 };
    if let Ok(place) = acts.as_slice().binary_search_by_key(&act.entity.0, key) {
        acts.put(place, act);
    }
}

/// Sets the readings of entities, one after the other.
pub(crate) fn put_acts<const S: u32>(acts: &mut Items<Act<S>>, readings: &[Act<S>])
    requires { RiseBy act_handle acts.old }
    ensures value { acts.new ≡ with_acts readings.now acts.old }
    ensures handles { map act_handle acts.new ≡ map act_handle acts.old }
{
    for reading in readings {
        put_act(acts, *reading);
    }
}
