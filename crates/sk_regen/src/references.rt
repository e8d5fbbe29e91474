// Group 1: the planes XY, YZ and ZX and the origin stand where they do, whatever is stored.

ghost use Rattle.std.specs.Prelude.{◌≡◌, ◌≤◌, ◌-◌, ◌^◌, pos, neg_ℤ, unwrap_or, ◌∷◌, [], map, get_or, IfOk};
ghost use Rattle.std.specs.List.{All};
ghost use Rattle.sk_num.specs.Limit.{grid_of};
ghost use Rattle.sk_num.specs.Scale.{IsScale};
ghost use Rattle.sk_types.specs.Params.{OwnFit};
ghost use Rattle.sk_types.specs.declared.group.Group.{Group as AnyGroup};
ghost use Rattle.sk_types.specs.Handles.{maker_of};
ghost use Rattle.sk_chain.specs.Laws.{IsOutlineOf};
ghost use Rattle.sk_model.specs.Checked.{AreChecked};
ghost use Rattle.sk_regen.specs.Ground.{ArePlaced, HasAll};
ghost use Rattle.sk_regen.specs.GroupWorks.{reference, reference_by, reference_quaternions, params_of, blank, first_numbers};

use crate::NoMemory;
use crate::blank::{all_acts, all_params};
use crate::ground::{Ground, unknowns_in};
use crate::numbers::{put_acts, put_params};
use crate::systems::acts_over;
use sk_chain::group_at;
use sk_num::{Grid, Items};
use sk_types::{
    Entity, Group, GroupId, Maker, Numbers, ParamId, ParamValue, RequestId, unknown_params,
};
use std::alloc::Global;

/// How many units a half is.
fn half_units<const S: u32>() -> i128
    requires { IsScale S }
    ensures { result ≡ pos (2 ^ (S - 1)) }
{
    (1u64 << (S - 1)) as i128
}

/// The number of so many units, 0 past the limit.
fn grid<const S: u32>(units: i128) -> Grid<S>
    ensures { result ≡ unwrap_or (grid_of units) (pos 0) }
{
    match Grid::of_wide(units) {
        Some(number) => number,
        None => Grid::zero(),
    }
}

/// A half, and less a half.
fn halves<const S: u32>() -> (Grid<S>, Grid<S>)
    requires { IsScale S }
    ensures half { result.0 ≡ pos (2 ^ (S - 1)) }
    ensures minus { result.1 ≡ neg_ℤ (pos (2 ^ (S - 1))) }
{
    let half = half_units::<S>();
    (grid(half), grid(-half))
}

/// The normal of the plane of request 1, 2 or 3: no turn, and a third of a turn about (1, 1, 1), one way and the other.
fn reference_quaternion<const S: u32>(request: RequestId) -> [Grid<S>; 4]
    requires { IsScale S }
    ensures { result ≡ get_or (reference_quaternions S) (request.0 - 1) (pos 0 ∷ pos 0 ∷ pos 0 ∷ pos 0 ∷ []) }
{
    let (half, minus) = halves();
    match request.0 {
        0 | 1 => [Grid::one(), Grid::zero(), Grid::zero(), Grid::zero()],
        2 => [half; 4],
        3 => [half, minus, minus, minus],
        _ => [Grid::zero(); 4],
    }
}

/// Where a parameter of group 1 stands.
fn reference_value<const S: u32>(param: ParamId) -> Grid<S>
    requires { IsScale S }
    ensures { result ≡ reference_by S (maker_of param.0) }
{
    match param.maker() {
        Maker::OfRequest(request, item) if item >= 32 => {
            match reference_quaternion(request).get(usize::from(item - 32)) {
                Some(number) => *number,
                None => Grid::zero(),
            }
        }
        _ => Grid::zero(),
    }
}

/// The parameters of group 1 where they stand.
fn references<const S: u32>(
    alloc: Global,
    entities: &[Entity<S>],
    group: &Group<S>,
) -> Result<Vec<ParamValue<S>>, NoMemory>
    requires scale { IsScale S }
    requires fit { OwnFit entities.now }
    requires known { group.now.id.0 ≤ 32767 }
    ensures { IfOk result (λ v. v.items ≡ map (reference S) (params_of entities.now group.now)) }
{
    let own = unknown_params(alloc, &[], entities, group)?;
    let mut params = Vec::new(alloc);
    for id in own {
        let value = reference_value(id);
        params.push(ParamValue { id, value })?;
    }
    Ok(params)
}

/// All parameters and the numbers of all entities, at 0.
fn blank<const S: u32>(
    alloc: Global,
    groups: &[Group<S>],
    entities: &[Entity<S>],
) -> Result<Numbers<S>, NoMemory>
    requires fit { OwnFit entities.now }
    requires known { All (λ (g : AnyGroup S). g.id.0 ≤ 32767) groups.now }
    ensures { IfOk result (λ n. n ≡ blank groups.now entities.now) }
{
    Ok(Numbers {
        params: Items::of(all_params(alloc, groups, entities)?),
        acts: Items::of(all_acts(alloc, entities)?),
    })
}

/// All parameters and the numbers of all entities: those of group 1 where they stand, the others at 0.
#[tactic(auto, unfolding(crate::specs::GroupWorks::first_numbers, crate::specs::GroupWorks::references))]
pub(crate) fn first_numbers<const S: u32>(
    alloc: Global,
    ground: &Ground<'_, S>,
) -> Result<Numbers<S>, NoMemory>
    requires scale { IsScale S }
    requires places { ArePlaced ground.now.model.now.lists ground.now.outline.now ground.now.requests.now.keys ground.now.shares.now }
    requires checked { AreChecked ground.now.model.now.lists }
    requires outline { IsOutlineOf ground.now.model.now.lists ground.now.outline.now }
    ensures value { IfOk result (λ n. n ≡ first_numbers ground.now.model.now.lists.groups ground.now.outline.now.entities ground.now.model.now.lists.constraints) }
    ensures whole { IfOk result (λ n. HasAll ground.now.model.now.lists ground.now.outline.now n) }
{
    let model = ground.model;
    let entities = ground.outline.entities.as_slice();
    let mut numbers = blank(alloc, model.groups(), entities)?;
    let Some(group) = group_at(model.groups(), GroupId(1)) else {
        return Ok(numbers);
    };
    let unknowns = unknowns_in(alloc, ground, group)?;
    let params = references(alloc, entities, group)?;
    let acts = acts_over(alloc, ground, group, &unknowns, &mut numbers, &params)?;
    put_params(&mut numbers.params, &params);
    put_acts(&mut numbers.acts, &acts);
    Ok(numbers)
}
