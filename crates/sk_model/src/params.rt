// Parameters.

ghost use Rattle.std.specs.Prelude.{◌≡◌, IfOk, false};
ghost use Rattle.sk_num.specs.Scale.{IsScale};
ghost use Rattle.sk_records.specs.declared.kinds.Kind.TheVariants as record_kind;
ghost use Rattle.sk_model.specs.Chain.{seen_in};
ghost use Rattle.sk_model.specs.Params.{param_of};

use crate::faults::ModelFault;
use crate::fields::Fields;
use crate::keys::Key;
use indexmap::IndexSet;
use sk_num::Grid;
use sk_types::{ParamId, ParamValue};

/// A parameter, over the handles of earlier ones, or its first fault.
#[tactic(auto, unfolding(crate::specs::Params::param_of))]
pub(crate) fn param_of<const S: u32>(
    seen: &IndexSet<u32>,
    fields: &Fields<'_>,
) -> Result<ParamValue<S>, ModelFault>
    requires scale { IsScale S }
    requires kind { fields.now.kind ≡ record_kind.Param }
    ensures value { result ≡ param_of S seen.now.keys fields.now.rows }
    ensures new { IfOk result (λ x. seen_in x.id.0 seen.now.keys ≡ false) }
{
    let id = fields.handle(Key::ParamHandle)?;
    let value = fields.quantity(Key::ParamValue, Grid::zero())?;
    if id == 0 {
        return Err(ModelFault::BadValue(id));
    }
    if seen.contains(&id) {
        return Err(ModelFault::DuplicateHandle(id));
    }
    Ok(ParamValue {
        id: ParamId(id),
        value,
    })
}
