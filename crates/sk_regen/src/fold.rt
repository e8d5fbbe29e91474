// All groups in their order, and the new text.

ghost use Rattle.std.specs.Prelude.{◌≡◌, ◌≢◌, ◌+◌, true, nat_eq, length, map, if◌then◌else◌, IfOk, OnOk, OnErr};
ghost use Rattle.std.specs.List.{All, IsDistinct, filter};
ghost use Rattle.sk_num.specs.Scale.{IsScale};
ghost use Rattle.sk_types.specs.declared.entity.ParamValue.{ParamValue as Value};
ghost use Rattle.sk_types.specs.Lookups.{RiseBy, value_handle, act_handle};
ghost use Rattle.sk_records.specs.declared.kinds.Kind.TheVariants.{Entity as EntityKind};
ghost use Rattle.sk_records.specs.Blocks.{made_anew};
ghost use Rattle.sk_chain.specs.Laws.{IsFound, IsOutlineOf};
ghost use Rattle.sk_model.specs.Changes.{params_set, with_params};
ghost use Rattle.sk_model.specs.Checked.{AreChecked};
ghost use Rattle.sk_model.specs.EntityRecords.{entity_records};
ghost use Rattle.sk_regen.specs.Ground.{ArePlaced, BoxesSound, HasAll, IsGround, group_works};
ghost use Rattle.sk_regen.specs.NewText.{reported, text_with};
ghost use Rattle.sk_regen.specs.Below.{BoxesOver, model_works, over_dirty};
ghost use Rattle.sk_regen.specs.Regeneration.{is_listed, left_over, taken, regenerated_over};

use crate::NoMemory;
use crate::ground::{Ground, places_of};
use crate::references::first_numbers;
use crate::solving::{left_as, left_by};
use crate::state::{Left, State};
use sk_chain::group_at;
use sk_count::Steps;
use sk_model::Model;
use sk_num::Items;
use sk_solve::{Listed, Report};
use sk_system::Shares;
use sk_types::{Group, GroupId, Numbers, Outline};
use std::alloc::Global;
use std::sync::ledger::Ledger;

/// All groups but group 1, in group order.
pub fn all_groups<const S: u32>(
    alloc: Global,
    outline: &Outline<S>,
) -> Result<Vec<GroupId>, NoMemory>
    ensures { IfOk result (λ v. v.items ≡ reported outline.now) }
{
    let mut groups = Vec::new(alloc);
    let order = outline.order.as_slice();
    for group in order {
        if group.0 != 1 {
            groups.push(*group)?;
        }
    }
    Ok(groups)
}

/// Whether a group is among others.
fn is_listed(groups: &[GroupId], group: GroupId) -> bool
    ensures { result ≡ is_listed groups.now group }
{
    groups.iter().any(|listed| group.0 == listed.0)
}

/// What a group leaves: of the listed ones each is regenerated, in one step; any other stays where it stands. The numbers stay.
fn left_over<L: Ledger, const S: u32>(
    alloc: Global,
    ground: &Ground<'_, S>,
    numbers: &mut Numbers<S>,
    group: &Group<S>,
    dirty: &[GroupId],
    before: &[Listed<S>],
    steps: &mut Steps<L>,
) -> Result<Left<S>, NoMemory>
    requires scale { IsScale S }
    requires places { ArePlaced ground.now.model.now.lists ground.now.outline.now ground.now.requests.now.keys ground.now.shares.now }
    requires ground { IsGround ground.now.model.now.lists ground.now.outline.now numbers.old group.now }
    ensures value { IfOk result (λ x. x ≡ left_over (group_works ground.now.model.now.lists ground.now.outline.now group.now) ground.now.model.now.lists.params dirty.now before.now numbers.old group.now.id) }
    ensures sound { IfOk result (λ x. is_listed dirty.now group.now.id ≡ true → BoxesSound (group_works ground.now.model.now.lists ground.now.outline.now group.now) numbers.old group.now.id x) }
    ensures numbers { OnOk result (numbers.new ≡ numbers.old) }
    ensures steps { OnOk result (steps.new ≡ steps.old + (if is_listed dirty.now group.now.id then 1 else 0)) }
{
    if is_listed(dirty, group.id) {
        let left = left_by(alloc, ground, numbers, group, steps)?;
        return Ok(left);
    }
    let left = left_as(alloc, ground, numbers, group, before)?;
    Ok(left)
}

/// Takes what one of the model's groups leaves.
fn take_group<L: Ledger, const S: u32>(
    alloc: Global,
    ground: &Ground<'_, S>,
    state: &mut State<S>,
    group: GroupId,
    dirty: &[GroupId],
    before: &[Listed<S>],
    steps: &mut Steps<L>,
) -> Result<(), NoMemory>
    requires scale { IsScale S }
    requires places { ArePlaced ground.now.model.now.lists ground.now.outline.now ground.now.requests.now.keys ground.now.shares.now }
    requires checked { AreChecked ground.now.model.now.lists }
    requires outline { IsOutlineOf ground.now.model.now.lists ground.now.outline.now }
    requires there { IsFound ground.now.model.now.lists.groups group }
    requires whole { HasAll ground.now.model.now.lists ground.now.outline.now state.old.numbers }
    ensures value { OnOk result (state.new ≡ taken state.old (left_over (model_works ground.now.model.now.lists ground.now.outline.now) ground.now.model.now.lists.params dirty.now before.now state.old.numbers group)) }
    ensures whole { OnOk result (HasAll ground.now.model.now.lists ground.now.outline.now state.new.numbers) }
    ensures sound { OnOk result (is_listed dirty.now group ≡ true → BoxesSound (model_works ground.now.model.now.lists ground.now.outline.now) state.old.numbers group (left_over (model_works ground.now.model.now.lists ground.now.outline.now) ground.now.model.now.lists.params dirty.now before.now state.old.numbers group)) }
    ensures steps { OnOk result (steps.new ≡ steps.old + (if is_listed dirty.now group then 1 else 0)) }
{
    let Some(group) = group_at(ground.model.groups(), group) else {
        return Ok(());
    };
    let left = left_over(
        alloc,
        ground,
        &mut state.numbers,
        group,
        dirty,
        before,
        steps,
    )?;
    state.take(left)?;
    Ok(())
}

/// The groups of a list, one after the other, from group 1.
fn folded<L: Ledger, const S: u32>(
    alloc: Global,
    ground: &Ground<'_, S>,
    order: &[GroupId],
    dirty: &[GroupId],
    before: &[Listed<S>],
    steps: &mut Steps<L>,
) -> Result<State<S>, NoMemory>
    requires scale { IsScale S }
    requires places { ArePlaced ground.now.model.now.lists ground.now.outline.now ground.now.requests.now.keys ground.now.shares.now }
    requires checked { AreChecked ground.now.model.now.lists }
    requires outline { IsOutlineOf ground.now.model.now.lists ground.now.outline.now }
    requires there { All (IsFound ground.now.model.now.lists.groups) order.now }
    ensures value { IfOk result (λ st. st ≡ regenerated_over (model_works ground.now.model.now.lists ground.now.outline.now) ground.now.model.now.lists.params dirty.now before.now order.now) }
    ensures whole { IfOk result (λ st. HasAll ground.now.model.now.lists ground.now.outline.now st.numbers) }
    ensures sound { OnOk result (BoxesOver ground.now.model.now.lists ground.now.outline.now dirty.now before.now order.now) }
    ensures steps { OnOk result (steps.new ≡ steps.old + length (filter (is_listed dirty.now) order.now)) }
{
    let mut state = State {
        numbers: first_numbers(alloc, ground)?,
        members: Items::of(Vec::new(alloc)),
    };
    for group in order {
        take_group(alloc, ground, &mut state, *group, dirty, before, steps)?;
    }
    Ok(state)
}

/// The groups of a model one after the other, each regenerated or left where it stands.
fn over_groups<L: Ledger, const S: u32>(
    alloc: Global,
    model: &Model<S>,
    outline: &Outline<S>,
    order: &[GroupId],
    dirty: &[GroupId],
    before: &[Listed<S>],
    steps: &mut Steps<L>,
) -> Result<State<S>, NoMemory>
    requires scale { IsScale S }
    requires outline { IsOutlineOf model.now.lists outline.now }
    requires there { All (IsFound model.now.lists.groups) order.now }
    ensures value { IfOk result (λ st. st ≡ regenerated_over (model_works model.now.lists outline.now) model.now.lists.params dirty.now before.now order.now) }
    ensures whole { IfOk result (λ st. HasAll model.now.lists outline.now st.numbers) }
    ensures checked { AreChecked model.now.lists }
    ensures sound { OnOk result (BoxesOver model.now.lists outline.now dirty.now before.now order.now) }
    ensures steps { OnOk result (steps.new ≡ steps.old + length (filter (is_listed dirty.now) order.now)) }
{
    let places = places_of(alloc, model.requests())?;
    let shares = Shares::of(alloc, outline.entities.as_slice(), model.constraints())?;
    let ground = Ground {
        model,
        outline,
        requests: &places,
        shares: &shares,
    };
    let state = folded(alloc, &ground, order, dirty, before, steps)?;
    Ok(state)
}

/// The model with parameters and entity records put into it.
fn with_numbers<const S: u32>(
    model: Model<S>,
    outline: &Outline<S>,
    numbers: &Numbers<S>,
) -> Result<Model<S>, NoMemory>
    requires scale { IsScale S }
    requires some { All (λ (p : Value S). p.id.0 ≢ 0) numbers.now.params }
    requires differ { IsDistinct nat_eq (map value_handle numbers.now.params) }
    requires acts { RiseBy act_handle numbers.now.acts }
    ensures blocks { IfOk result (λ m. m.blocks ≡ made_anew EntityKind (entity_records numbers.now.acts outline.now.entities) (params_set numbers.now.params model.entry.lists.params model.entry.blocks)) }
    ensures lists { IfOk result (λ m. m.lists ≡ record model.entry.lists { params = with_params numbers.now.params model.entry.lists.params }) }
{
    let next = model.into_params_set(numbers.params.as_slice())?;
    let next = next.into_entities_set(outline, numbers)?;
    Ok(next)
}

/// A model that was regenerated, with what came out.
#[derive(Drop)]
pub struct Regenerated<const S: u32> {
    /// The model: its parameters where they are kept, its entity records made anew.
    pub model: Model<S>,
    /// How the groups came out.
    pub report: Report<S>,
    /// The parameters and the numbers of the entities, both by rising handle.
    pub numbers: Numbers<S>,
}

/// Regenerates groups of a model over an earlier report. The model is taken over, not copied.
///
/// Group after group, in group order: a group of the list is solved over the numbers that the groups before it left, from its
/// stored parameters, or where absent ones start, in one step. Any other keeps its stored parameters, or the start values of
/// absent ones, and has its members of the earlier report. Group 1 stands where it stands, and isn't reported.
///
/// The outline is the model's, whose remap lists have been extended.
pub fn into_regenerated<L: Ledger, const S: u32>(
    alloc: Global,
    model: Model<S>,
    outline: &Outline<S>,
    dirty: &[GroupId],
    before: &Report<S>,
    steps: &mut Steps<L>,
) -> Result<Regenerated<S>, NoMemory>
    requires scale { IsScale S }
    requires outline { IsOutlineOf model.lists outline.now }
    ensures report { IfOk result (λ r. r.report.groups ≡ (over_dirty model.entry.lists outline.now dirty.now before.now.groups).members) }
    ensures numbers { IfOk result (λ r. r.numbers ≡ (over_dirty model.entry.lists outline.now dirty.now before.now.groups).numbers) }
    ensures rise { IfOk result (λ r. RiseBy act_handle r.numbers.acts) }
    ensures sound { OnOk result (BoxesOver model.entry.lists outline.now dirty.now before.now.groups (reported outline.now)) }
    ensures blocks { IfOk result (λ r. r.model.blocks ≡ text_with (over_dirty model.entry.lists outline.now dirty.now before.now.groups).numbers model.entry.lists outline.now model.entry.blocks) }
    ensures lists { IfOk result (λ r. r.model.lists ≡ record model.entry.lists { params = with_params (over_dirty model.entry.lists outline.now dirty.now before.now.groups).numbers.params model.entry.lists.params }) }
    ensures steps { OnOk result (steps.new ≡ steps.old + length (filter (is_listed dirty.now) (reported outline.now))) }
{
    let order = all_groups(alloc, outline)?;
    let state = over_groups(
        alloc,
        &model,
        outline,
        &order,
        dirty,
        before.groups.as_slice(),
        steps,
    )?;
    let State { numbers, members } = state;
    let model = with_numbers(model, outline, &numbers)?;
    Ok(Regenerated {
        model,
        report: Report { groups: members },
        numbers,
    })
}

/// Regenerates groups of a model over an earlier report, as `into_regenerated` does, and puts what comes out into the model. The answer
/// is the report, and the parameters and the numbers of entities, both by rising handle. At an `Err` the model is as it was: a
/// copy is regenerated.
pub fn regenerate<L: Ledger, const S: u32>(
    alloc: Global,
    model: &mut Model<S>,
    outline: &Outline<S>,
    dirty: &[GroupId],
    before: &Report<S>,
    steps: &mut Steps<L>,
) -> Result<(Report<S>, Numbers<S>), NoMemory>
    requires scale { IsScale S }
    requires outline { IsOutlineOf model.old.lists outline.now }
    ensures report { IfOk result (λ r. r.0.groups ≡ (over_dirty model.old.lists outline.now dirty.now before.now.groups).members) }
    ensures numbers { IfOk result (λ r. r.1 ≡ (over_dirty model.old.lists outline.now dirty.now before.now.groups).numbers) }
    ensures rise { IfOk result (λ r. RiseBy act_handle r.1.acts) }
    ensures sound { OnOk result (BoxesOver model.old.lists outline.now dirty.now before.now.groups (reported outline.now)) }
    ensures blocks { OnOk result (model.new.blocks ≡ text_with (over_dirty model.old.lists outline.now dirty.now before.now.groups).numbers model.old.lists outline.now model.old.blocks) }
    ensures lists { OnOk result (model.new.lists ≡ record model.old.lists { params = with_params (over_dirty model.old.lists outline.now dirty.now before.now.groups).numbers.params model.old.lists.params }) }
    ensures steps { OnOk result (steps.new ≡ steps.old + length (filter (is_listed dirty.now) (reported outline.now))) }
    ensures err { OnErr result (model.new ≡ model.old) }
{
    let copy = model.copy(alloc)?;
    let done = into_regenerated(alloc, copy, outline, dirty, before, steps)?;
    let Regenerated {
        model: next,
        report,
        numbers,
    } = done;
    *model = next;
    Ok((report, numbers))
}
