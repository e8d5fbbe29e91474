// Where parameters start that aren't stored.

ghost use Rattle.std.specs.Prelude.{◌≡◌, nat_eq, map, IfOk};
ghost use Rattle.std.specs.List.{find};
ghost use Rattle.std.specs.Option.{option_copied};
ghost use Rattle.sk_num.specs.Scale.{IsScale};
ghost use Rattle.sk_types.specs.Lookups.{Rise, RiseBy, act_handle, value_handle, entity_at};
ghost use Rattle.sk_geom.specs.Sources.{IsSource};
ghost use Rattle.sk_geom.specs.Views.{source_of};
ghost use Rattle.sk_expr.specs.PartViews.{v3_of};
ghost use Rattle.std.specs.Prelude.{option_map, slice_get};
ghost use Rattle.sk_expr.specs.Trees.{poly_of};
ghost use Rattle.sk_regen.specs.GroupWorks.{component_reading};
ghost use Rattle.sk_expr.specs.Visits.{grown_of};
ghost use Rattle.sk_regen.specs.GroupWorks.{no_point, request_handle, normal_reading, along, group_start, start_of};

use crate::NoMemory;
use indexmap::IndexSet;
use sk_entity::start_value;
use sk_expr::{Auxiliaries, Expr, V3};
use sk_geom::{Source, frame};
use sk_num::{Grid, Items};
use sk_types::{
    Entity, Group, GroupKind, Maker, Numbers, Outline, ParamId, Request, RequestId, entity_at,
};
use std::alloc::Global;

/// The request with a handle, by the places of all.
pub(crate) fn request_at<'a>(
    requests: &'a [Request],
    places: &IndexSet<RequestId>,
    id: RequestId,
) -> Option<&'a Request>
    requires { places.now.keys ≡ map request_handle requests.now }
    ensures { option_copied result ≡ find (λ q. nat_eq id.0 q.id.0) requests.now }
{
    let place = places.get_index_of(&id)?;
    Some(&requests[place])
}

/// No unknown, no row and no cosine.
fn nothing_seen<const S: u32>(alloc: Global) -> Auxiliaries<S>
    ensures { grown_of result ≡ no_point }
{
    Auxiliaries {
        unknowns: Items::of(Vec::new(alloc)),
        rows: Items::of(Vec::new(alloc)),
        cosines: Items::of(Vec::new(alloc)),
        forced: Items::of(Vec::new(alloc)),
    }
}

/// The tree of a component, None where there is none.
fn component_of<const S: u32>(vector: &V3<S>, place: u16) -> Option<&Expr<Grid<S>>>
    ensures { option_map poly_of (option_copied result) ≡ slice_get (v3_of vector.now) place }
{
    match place {
        0 => Some(&vector.x),
        1 => Some(&vector.y),
        2 => Some(&vector.z),
        _ => None,
    }
}

/// The reading of a component of a vector of numbers; 0 where it passes the limit.
fn component_reading<const S: u32>(alloc: Global, vector: &V3<S>, place: u16) -> Grid<S>
    requires { IsScale S }
    ensures { result ≡ component_reading S place (v3_of vector.now) }
{
    let Some(tree) = component_of(vector, place) else {
        return Grid::zero();
    };
    let nothing = nothing_seen(alloc);
    let reading = nothing.reading(tree);
    match reading {
        Some(reading) => reading,
        None => Grid::zero(),
    }
}

/// The reading of a component of a workplane's normal vector; 0 where it passes the limit.
fn normal_reading<const S: u32>(
    alloc: Global,
    source: &Source<'_, S>,
    component: u16,
    workplane: Option<&Entity<S>>,
) -> Result<Grid<S>, NoMemory>
    requires scale { IsScale S }
    requires source { IsSource (source_of source.now) }
    ensures { IfOk result (λ z. z ≡ normal_reading (source_of source.now) component (option_copied workplane.entry)) }
{
    let Some(workplane) = workplane else {
        return Ok(Grid::zero());
    };
    let frame = frame(alloc, workplane, source)?;
    let reading = component_reading(alloc, &frame.n, component);
    drop(frame);
    Ok(reading)
}

/// A component of the vector of an extrusion: along the normal of its workplane, if it has one.
fn along<const S: u32>(
    alloc: Global,
    outline: &Outline<S>,
    numbers: &Numbers<S>,
    group: &Group<S>,
    component: u16,
) -> Result<Grid<S>, NoMemory>
    requires scale { IsScale S }
    requires entities { Rise outline.now.entities }
    requires params { RiseBy value_handle numbers.now.params }
    requires acts { RiseBy act_handle numbers.now.acts }
    ensures { IfOk result (λ z. z ≡ along outline.now.entities numbers.now group.now component) }
{
    if group.entity_b.0 == 0 {
        return Ok(Grid::zero());
    }
    let source = Source {
        outline,
        numbers,
        unknowns: &[],
        group: group.id,
    };
    let workplane = entity_at(outline.entities.as_slice(), group.entity_b);
    let reading = normal_reading(alloc, &source, component, workplane);
    let Source {
        outline: _outline,
        numbers: _numbers,
        unknowns: _unknowns,
        group: _group,
    } = source;
    reading
}

/// Where a group's own item starts.
fn group_start<const S: u32>(
    alloc: Global,
    outline: &Outline<S>,
    numbers: &Numbers<S>,
    group: &Group<S>,
    item: u16,
) -> Result<Grid<S>, NoMemory>
    requires scale { IsScale S }
    requires entities { Rise outline.now.entities }
    requires params { RiseBy value_handle numbers.now.params }
    requires acts { RiseBy act_handle numbers.now.acts }
    ensures { IfOk result (λ z. z ≡ group_start group.now.kind outline.now.entities numbers.now group.now item) }
{
    match group.kind {
        GroupKind::Extrude => Ok(along(alloc, outline, numbers, group, item)?),
        GroupKind::Linked if item == 3 => Ok(Grid::one()),
        _ => Ok(Grid::zero()),
    }
}

/// Where a parameter of a group starts that isn't stored.
#[tactic(auto, unfolding(crate::specs::GroupWorks::start_of))]
pub(crate) fn start_of<const S: u32>(
    alloc: Global,
    requests: &[Request],
    places: &IndexSet<RequestId>,
    outline: &Outline<S>,
    numbers: &Numbers<S>,
    group: &Group<S>,
    param: ParamId,
) -> Result<Grid<S>, NoMemory>
    requires scale { IsScale S }
    requires places { places.now.keys ≡ map request_handle requests.now }
    requires entities { Rise outline.now.entities }
    requires params { RiseBy value_handle numbers.now.params }
    requires acts { RiseBy act_handle numbers.now.acts }
    ensures { IfOk result (λ z. z ≡ start_of requests.now outline.now.entities numbers.now group.now param) }
{
    match param.maker() {
        Maker::OfGroup(_, item) => Ok(group_start(alloc, outline, numbers, group, item)?),
        Maker::OfRequest(id, item) => match request_at(requests, places, id) {
            Some(request) => Ok(start_value(request, item)),
            None => Ok(Grid::zero()),
        },
    }
}
