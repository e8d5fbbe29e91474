// One group: where its parameters start, how it comes out, and what it leaves.

ghost use Rattle.std.specs.Prelude.{◌≡◌, ◌+◌, ◌∷◌, [], length, unwrap_or, IfOk, IfSome, OnOk};
ghost use Rattle.sk_num.specs.Scale.{IsScale};
ghost use Rattle.sk_types.specs.Lookups.{value_of};
ghost use Rattle.sk_krawczyk.specs.Answers.{IsSoundAt, names_at};
ghost use Rattle.sk_solve.specs.Held.{result_by};
ghost use Rattle.sk_solve.specs.Search.{verdict_over};
ghost use Rattle.sk_system.specs.GroupSystem.{seen_at};
ghost use Rattle.sk_system.specs.SystemViews.{system_of as made_of};
ghost use Rattle.sk_regen.specs.Ground.{ArePlaced, BoxesSound, IsGround, group_works};
ghost use Rattle.sk_regen.specs.GroupWorks.{start_of};
ghost use Rattle.sk_regen.specs.Regeneration.{started, frame_verdict, unless_bad, left_by, left_as, members_of};

use crate::NoMemory;
use crate::frames::bad_frame_of;
use crate::ground::{Ground, params_in, unknowns_in};
use crate::parameters::{fixed_of, placed, point_of};
use crate::starts::start_of;
use crate::state::Left;
use crate::systems::{acts_over, system_over};
use sk_count::Steps;
use sk_geom::FrameFault;
use sk_num::{Grid, Items};
use sk_solve::{GroupResult, Listed, Verdict, solve_group};
use sk_system::System;
use sk_types::{Group, GroupId, Numbers, ParamId, ParamValue};
use std::alloc::Global;
use std::sync::ledger::Ledger;

/// The stored value of a parameter, or where it starts.
fn start_at<const S: u32>(
    alloc: Global,
    ground: &Ground<'_, S>,
    numbers: &Numbers<S>,
    group: &Group<S>,
    id: ParamId,
) -> Result<Grid<S>, NoMemory>
    requires scale { IsScale S }
    requires places { ArePlaced ground.now.model.now.lists ground.now.outline.now ground.now.requests.now.keys ground.now.shares.now }
    requires ground { IsGround ground.now.model.now.lists ground.now.outline.now numbers.now group.now }
    ensures { IfOk result (λ z. z ≡ unwrap_or (value_of id.0 ground.now.model.now.lists.params) (start_of ground.now.model.now.lists.requests ground.now.outline.now.entities numbers.now group.now id)) }
{
    if let Some(value) = ground.model.param(id) {
        return Ok(value);
    }
    let requests = ground.model.requests();
    let start = start_of(
        alloc,
        requests,
        ground.requests,
        ground.outline,
        numbers,
        group,
        id,
    )?;
    Ok(start)
}

/// The parameters of a group where they stand before it is regenerated: at their stored values, absent ones where they start.
pub(crate) fn started<const S: u32>(
    alloc: Global,
    ground: &Ground<'_, S>,
    numbers: &Numbers<S>,
    group: &Group<S>,
) -> Result<Vec<ParamValue<S>>, NoMemory>
    requires scale { IsScale S }
    requires places { ArePlaced ground.now.model.now.lists ground.now.outline.now ground.now.requests.now.keys ground.now.shares.now }
    requires ground { IsGround ground.now.model.now.lists ground.now.outline.now numbers.now group.now }
    ensures { IfOk result (λ v. v.items ≡ started (group_works ground.now.model.now.lists ground.now.outline.now group.now) ground.now.model.now.lists.params numbers.now group.now.id) }
{
    let own = params_in(alloc, ground, group)?;
    let mut params = Vec::new(alloc);
    for id in own {
        let value = start_at(alloc, ground, numbers, group, id)?;
        params.push(ParamValue { id, value })?;
    }
    Ok(params)
}

/// A frame without a direction is degenerate, one past the limit is out of range.
fn frame_verdict(fault: FrameFault) -> Verdict
    ensures { result ≡ frame_verdict fault }
{
    match fault {
        FrameFault::Degenerate => Verdict::Degenerate,
        FrameFault::PastLimit => Verdict::Range,
    }
}

/// How a group comes out from a point, in one step: a bad frame has its verdict, and visits no point.
#[tactic(auto, unfolding(sk_solve::specs::Held::result_by))]
fn result_from<L: Ledger, const S: u32>(
    alloc: Global,
    system: &System<S>,
    fault: Option<FrameFault>,
    point: &[Grid<S>],
    steps: &mut Steps<L>,
) -> Result<GroupResult<S>, NoMemory>
    requires scale { IsScale S }
    requires point { length point.now ≡ length (made_of system.now).unknowns }
    ensures value { IfOk result (λ r. r ≡ result_by (λ x. names_at (seen_at S (made_of system.now) x)) (unless_bad fault point.now (verdict_over S (length (made_of system.now).unknowns) (seen_at S (made_of system.now)) point.now))) }
    ensures sound { IfOk result (λ r. IfSome r.certificate (IsSoundAt (length (made_of system.now).unknowns) (λ x. seen_at S (made_of system.now) x) r.point)) }
    ensures steps { OnOk result (steps.new ≡ steps.old + 1) }
{
    let Some(fault) = fault else {
        let result = solve_group(alloc, system, point, steps)?;
        return Ok(result);
    };
    steps.tick();
    Ok(GroupResult {
        verdict: frame_verdict(fault),
        point: Items::of(Vec::from_slice(alloc, point)?),
        certificate: None,
    })
}

/// One member.
fn only<const S: u32>(alloc: Global, listed: Listed<S>) -> Result<Items<Listed<S>>, NoMemory>
    ensures { IfOk result (λ v. v ≡ listed.entry ∷ []) }
{
    let mut members = Vec::new(alloc);
    members.push(listed)?;
    Ok(Items::of(members))
}

/// What a group leaves that is regenerated, in one step. The numbers stay.
pub(crate) fn left_by<L: Ledger, const S: u32>(
    alloc: Global,
    ground: &Ground<'_, S>,
    numbers: &mut Numbers<S>,
    group: &Group<S>,
    steps: &mut Steps<L>,
) -> Result<Left<S>, NoMemory>
    requires scale { IsScale S }
    requires places { ArePlaced ground.now.model.now.lists ground.now.outline.now ground.now.requests.now.keys ground.now.shares.now }
    requires ground { IsGround ground.now.model.now.lists ground.now.outline.now numbers.old group.now }
    ensures value { IfOk result (λ x. x ≡ left_by (group_works ground.now.model.now.lists ground.now.outline.now group.now) ground.now.model.now.lists.params numbers.old group.now.id) }
    ensures sound { IfOk result (BoxesSound (group_works ground.now.model.now.lists ground.now.outline.now group.now) numbers.old group.now.id) }
    ensures numbers { OnOk result (numbers.new ≡ numbers.old) }
    ensures steps { OnOk result (steps.new ≡ steps.old + 1) }
{
    let unknowns = unknowns_in(alloc, ground, group)?;
    let started = started(alloc, ground, numbers, group)?;
    let fixed = fixed_of(alloc, &unknowns, &started)?;
    let point = point_of(alloc, &unknowns, &started)?;
    let entities = ground.outline.entities.as_slice();
    let fault = bad_frame_of(entities, numbers.acts.as_slice(), group);
    let system = system_over(alloc, ground, group, numbers, &fixed)?;
    let result = result_from(alloc, &system, fault, &point, steps)?;
    let params = placed(alloc, &unknowns, &started, result.point.as_slice())?;
    let acts = system.acts(alloc, result.point.as_slice())?;
    let listed = Listed {
        group: group.id,
        params: Items::of(unknowns),
        result,
    };
    Ok(Left {
        members: only(alloc, listed)?,
        params: Items::of(params),
        acts: Items::of(acts),
    })
}

/// The members of a group in a report.
fn members_of<const S: u32>(
    alloc: Global,
    before: &[Listed<S>],
    group: GroupId,
) -> Result<Items<Listed<S>>, NoMemory>
    ensures { IfOk result (λ v. v ≡ members_of group before.now) }
{
    let mut members = Vec::new(alloc);
    for listed in before {
        if listed.group.0 == group.0 {
            members.push(listed.copy(alloc)?)?;
        }
    }
    Ok(Items::of(members))
}

/// What a group leaves that stays where it stands, with its members of an earlier report. The numbers stay.
pub(crate) fn left_as<const S: u32>(
    alloc: Global,
    ground: &Ground<'_, S>,
    numbers: &mut Numbers<S>,
    group: &Group<S>,
    before: &[Listed<S>],
) -> Result<Left<S>, NoMemory>
    requires scale { IsScale S }
    requires places { ArePlaced ground.now.model.now.lists ground.now.outline.now ground.now.requests.now.keys ground.now.shares.now }
    requires ground { IsGround ground.now.model.now.lists ground.now.outline.now numbers.old group.now }
    ensures value { IfOk result (λ x. x ≡ left_as (group_works ground.now.model.now.lists ground.now.outline.now group.now) ground.now.model.now.lists.params before.now numbers.old group.now.id) }
    ensures numbers { OnOk result (numbers.new ≡ numbers.old) }
{
    let unknowns = unknowns_in(alloc, ground, group)?;
    let params = started(alloc, ground, numbers, group)?;
    let acts = acts_over(alloc, ground, group, &unknowns, numbers, &params)?;
    Ok(Left {
        members: members_of(alloc, before, group.id)?,
        params: Items::of(params),
        acts: Items::of(acts),
    })
}
