// The numbers and the report so far, and what each group adds.

ghost use Rattle.std.specs.Prelude.{◌≡◌, ◌++◌, true, map, OnOk};
ghost use Rattle.std.specs.List.{All};
ghost use Rattle.sk_types.specs.declared.entity.ParamValue.{ParamValue as Value};
ghost use Rattle.sk_types.specs.Lookups.{RiseBy, value_handle, act_handle};
ghost use Rattle.sk_model.specs.Chain.{seen_in};
ghost use Rattle.sk_regen.specs.Regeneration.{taken};

use crate::NoMemory;
use crate::numbers::{put_acts, put_params};
use sk_num::Items;
use sk_solve::Listed;
use sk_types::{Act, Numbers, ParamValue};

/// What a group leaves.
#[derive(Debug, Drop)]
pub struct Left<const S: u32> {
    /// Its member of the report.
    pub members: Items<Listed<S>>,
    /// Its parameters as they are kept.
    pub params: Items<ParamValue<S>>,
    /// The readings of its entities there.
    pub acts: Items<Act<S>>,
}

/// Where regeneration stands between two groups.
#[derive(Debug, Drop)]
pub struct State<const S: u32> {
    /// All parameters and the numbers of all entities: those of groups to come at 0.
    pub numbers: Numbers<S>,
    /// How the groups so far came out.
    pub members: Items<Listed<S>>,
}

/// Appends members to a report.
fn push_members<const S: u32>(
    members: &mut Items<Listed<S>>,
    more: Vec<Listed<S>>,
) -> Result<(), NoMemory>
    ensures { OnOk result (members.new ≡ members.old ++ more.entry.items) }
{
    for listed in more {
        members.push(listed)?;
    }
    Ok(())
}

impl<const S: u32> State<S> {
    /// Takes what a group leaves.
    pub(crate) fn take(&mut self, left: Left<S>) -> Result<(), NoMemory>
        requires params { RiseBy value_handle self.old.numbers.params }
        requires acts { RiseBy act_handle self.old.numbers.acts }
        requires stand { All (λ (p : Value S). seen_in p.id.0 (map value_handle self.old.numbers.params) ≡ true) left.params }
        ensures value { OnOk result (self.new ≡ taken self.old left.entry) }
        ensures params { map value_handle self.new.numbers.params ≡ map value_handle self.old.numbers.params }
        ensures acts { map act_handle self.new.numbers.acts ≡ map act_handle self.old.numbers.acts }
    {
        let Left {
            members,
            params,
            acts,
        } = left;
        put_params(&mut self.numbers.params, params.as_slice());
        put_acts(&mut self.numbers.acts, acts.as_slice());
        push_members(&mut self.members, members.into_vec())?;
        Ok(())
    }
}
