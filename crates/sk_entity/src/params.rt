// The parameters of a request.

ghost use Rattle.std.specs.Prelude.{◌≡◌, ◌≤◌, ◌<◌, [], ◌∷◌, ◌++◌, ℕ, IfOk, OnOk};
ghost use Rattle.std.specs.List.{flat_map};
ghost use Rattle.sk_types.specs.Lists.{only_if};
ghost use Rattle.sk_types.specs.Params.{own_params};
ghost use Rattle.sk_num.specs.Scale.{IsScale};
ghost use Rattle.sk_entity.specs.Requests.{point_of, normal_of, distance_of, request_params, has_normal_in_space as normal_in_space, start_value as start_of};

use crate::NoMemory;
use crate::shape::{Shape, shape_of};
use sk_num::Grid;
use sk_types::{ParamId, Request, request_kind};
use std::alloc::Global;

// The parameters of a point, two in a workplane and three in space.
fn add_point(params: &mut Vec<ParamId>, r: &Request, i: u16) -> Result<(), NoMemory>
    requires known { r.now.id.0 ≤ 32767 }
    requires few { i < 259 }
    ensures { OnOk result ((s : ℕ) → params.new.items ≡ params.old.items ++ own_params (point_of s r.now i)) }
{
    let first = 16 + 3 * i;
    params.push(ParamId::of_request(r.id, first))?;
    params.push(ParamId::of_request(r.id, first + 1))?;
    if r.workplane.0 == 0 {
        params.push(ParamId::of_request(r.id, first + 2))?;
    }
    Ok(())
}

// Those of its normal, where it has one.
fn add_normal(params: &mut Vec<ParamId>, r: &Request, shape: &Shape) -> Result<(), NoMemory>
    requires { r.now.id.0 ≤ 32767 }
    ensures { OnOk result ((s : ℕ) → params.new.items ≡ params.old.items ++ flat_map own_params (only_if shape.now.has_normal (normal_of s r.now ∷ []))) }
{
    if shape.has_normal && r.workplane.0 == 0 {
        params.push(ParamId::of_request(r.id, 32))?;
        params.push(ParamId::of_request(r.id, 33))?;
        params.push(ParamId::of_request(r.id, 34))?;
        params.push(ParamId::of_request(r.id, 35))?;
    }
    Ok(())
}

// That of its distance, where it has one.
fn add_distance(params: &mut Vec<ParamId>, r: &Request, shape: &Shape) -> Result<(), NoMemory>
    requires { r.now.id.0 ≤ 32767 }
    ensures { OnOk result ((s : ℕ) → params.new.items ≡ params.old.items ++ flat_map own_params (only_if shape.now.has_distance (distance_of s r.now ∷ []))) }
{
    if shape.has_distance {
        params.push(ParamId::of_request(r.id, 64))?;
    }
    Ok(())
}

/// The parameters of a request, in rising handle order: those that its entities have by their own numbers.
#[tactic(auto, unfolding(crate::specs::Requests::request_entities))]
pub fn request_params(alloc: Global, r: &Request) -> Result<Vec<ParamId>, NoMemory>
    requires { r.now.id.0 ≤ 32767 }
    ensures { (s : ℕ) → IfOk result (λ v. v.items ≡ request_params s r.now) }
{
    let mut params = Vec::new(alloc);
    if r.kind == request_kind::DATUM_POINT {
        add_point(&mut params, r, 0)?;
        return Ok(params);
    }
    let Some(shape) = shape_of(r) else {
        return Ok(params);
    };
    for i in 0..shape.points {
        add_point(&mut params, r, i)?;
    }
    add_normal(&mut params, r, &shape)?;
    add_distance(&mut params, r, &shape)?;
    Ok(params)
}

fn has_normal_in_space(r: &Request) -> bool
    ensures { result ≡ normal_in_space r.now }
{
    r.workplane.0 == 0 && shape_of(r).is_some_and(|shape| shape.has_normal)
}

/// The number at which the i-th parameter of a request starts where it isn't stored: 1 for the first number of a normal in
/// space (parameter 32), which then has length 1, and 0 for any other.
pub fn start_value<const S: u32>(r: &Request, i: u16) -> Grid<S>
    requires { IsScale S }
    ensures { result ≡ start_of S r.now i }
{
    if i == 32 && has_normal_in_space(r) {
        return Grid::one();
    }
    Grid::zero()
}
