// A group's parameters: where they stand, and the unknown ones among them.

ghost use Rattle.std.specs.Prelude.{◌≡◌, IfOk};
ghost use Rattle.sk_types.specs.Lookups.{RiseBy, param_handle};
ghost use Rattle.sk_regen.specs.GroupWorks.{is_one_of};
ghost use Rattle.sk_regen.specs.Regeneration.{point_of, fixed_of, placed};

use crate::NoMemory;
use sk_num::Grid;
use sk_types::{ParamId, ParamValue, place_of};
use std::alloc::Global;

/// Whether a parameter is one of those, which rise.
fn is_one_of(params: &[ParamId], id: ParamId) -> bool
    requires { RiseBy param_handle params.now }
    ensures { result ≡ is_one_of params.now id }
{
    place_of(params, u64::from(id.0)).is_some()
}

/// The values of the unknown ones of these parameters, in their order.
pub(crate) fn point_of<const S: u32>(
    alloc: Global,
    unknowns: &[ParamId],
    params: &[ParamValue<S>],
) -> Result<Vec<Grid<S>>, NoMemory>
    requires { RiseBy param_handle unknowns.now }
    ensures { IfOk result (λ v. v.items ≡ point_of (is_one_of unknowns.now) params.now) }
{
    let mut point = Vec::new(alloc);
    for param in params {
        if is_one_of(unknowns, param.id) {
            point.push(param.value)?;
        }
    }
    Ok(point)
}

/// The parameters that are fixed.
pub(crate) fn fixed_of<const S: u32>(
    alloc: Global,
    unknowns: &[ParamId],
    params: &[ParamValue<S>],
) -> Result<Vec<ParamValue<S>>, NoMemory>
    requires { RiseBy param_handle unknowns.now }
    ensures { IfOk result (λ v. v.items ≡ fixed_of (is_one_of unknowns.now) params.now) }
{
    let mut fixed = Vec::new(alloc);
    for param in params {
        if !is_one_of(unknowns, param.id) {
            fixed.push(*param)?;
        }
    }
    Ok(fixed)
}

/// The parameters with the unknown ones at a point.
pub(crate) fn placed<const S: u32>(
    alloc: Global,
    unknowns: &[ParamId],
    params: &[ParamValue<S>],
    point: &[Grid<S>],
) -> Result<Vec<ParamValue<S>>, NoMemory>
    requires { RiseBy param_handle unknowns.now }
    ensures { IfOk result (λ v. v.items ≡ placed (is_one_of unknowns.now) params.now point.now) }
{
    let mut kept = Vec::new(alloc);
    let mut values = point.iter();
    for param in params {
        let mut now = *param;
        if is_one_of(unknowns, param.id) {
            if let Some(value) = values.next() {
                now.value = *value;
            }
        }
        kept.push(now)?;
    }
    Ok(kept)
}
