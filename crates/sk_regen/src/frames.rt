// Frames by line segments.

ghost use Rattle.std.specs.Prelude.{◌≡◌, ◌≤◌, map, Result, Ok, Err};
ghost use Rattle.std.specs.Option.{option_copied};
ghost use Rattle.sk_num.specs.Limit.{grid_of};
ghost use Rattle.sk_num.specs.Scale.{IsScale};
ghost use Rattle.std.specs.Prelude.{◌-ℤ◌};
ghost use Rattle.sk_types.specs.Lookups.{Rise, RiseBy, act_at, act_handle};
ghost use Rattle.sk_types.specs.Needs.{named};
ghost use Rattle.sk_geom.specs.Sources.{values_or_zeros};
ghost use Rattle.sk_regen.specs.GroupWorks.{stands_at, vector_of, frame_of, quaternion_in, bad_frame_of, framed, own_normal};

use crate::numbers::put_act;
use sk_geom::{FrameFault, frame_quaternion};
use sk_num::{Grid, Items};
use sk_types::{Act, Entity, EntityId, Group, act_at, entity_at};

/// Where an entity stands; 0 where it has no numbers.
fn stands_at<const S: u32>(acts: &[Act<S>], id: EntityId) -> [Grid<S>; 4]
    requires { RiseBy act_handle acts.now }
    ensures { result ≡ values_or_zeros (act_at id.0 acts.now) }
{
    match act_at(acts, id) {
        Some(act) => act.values,
        None => [Grid::zero(); 4],
    }
}

fn named(ids: &[EntityId], place: usize) -> EntityId
    ensures { result ≡ named ids.now place }
{
    match ids.get(place) {
        Some(id) => *id,
        None => EntityId(0),
    }
}

fn less<const S: u32>(a: Grid<S>, b: Grid<S>) -> Option<Grid<S>>
    ensures { result ≡ grid_of (a.entry -ℤ b.entry) }
{
    Grid::of_wide(i128::from(a.units()) - i128::from(b.units()))
}

/// The vector from the second point of a line to its first; None where a component passes the limit.
fn vector_of<const S: u32>(acts: &[Act<S>], line: Option<&Entity<S>>) -> Option<[Grid<S>; 3]>
    requires { RiseBy act_handle acts.now }
    ensures { result ≡ vector_of acts.now (option_copied line.entry) }
{
    let Some(line) = line else {
        return Some([Grid::zero(); 3]);
    };
    let points = line.points.as_slice();
    let [px, py, pz, _] = stands_at(acts, named(points, 0));
    let [qx, qy, qz, _] = stands_at(acts, named(points, 1));
    let x = less(px, qx)?;
    let y = less(py, qy)?;
    let z = less(pz, qz)?;
    Some([x, y, z])
}

/// The quaternion of a group's frame by two lines.
#[tactic(auto, unfolding(crate::specs::GroupWorks::frame_of))]
pub(crate) fn frame_of<const S: u32>(
    entities: &[Entity<S>],
    acts: &[Act<S>],
    group: &Group<S>,
) -> Result<[Grid<S>; 4], FrameFault>
    requires scale { IsScale S }
    requires entities { Rise entities.now }
    requires acts { RiseBy act_handle acts.now }
    ensures { result ≡ frame_of entities.now acts.now group.now }
{
    let Some(u) = vector_of(acts, entity_at(entities, group.entity_b)) else {
        return Err(FrameFault::PastLimit);
    };
    let Some(v) = vector_of(acts, entity_at(entities, group.entity_c)) else {
        return Err(FrameFault::PastLimit);
    };
    frame_quaternion(u, v, group.swap_uv, group.negate_u, group.negate_v)
}

/// The quaternion, that of no turn where the frame is bad.
pub(crate) fn quaternion_in<const S: u32>(frame: Result<[Grid<S>; 4], FrameFault>) -> [Grid<S>; 4]
    requires { IsScale S }
    ensures { result ≡ quaternion_in S frame.entry }
{
    match frame {
        Ok(quaternion) => quaternion,
        Err(_) => [Grid::one(), Grid::zero(), Grid::zero(), Grid::zero()],
    }
}

/// The group's own normal: its item 1.
pub(crate) fn own_normal<const S: u32>(group: &Group<S>) -> EntityId
    requires { group.now.id.0 ≤ 32767 }
    ensures { result ≡ own_normal group.now }
{
    EntityId::of_group(group.id, 1)
}

/// Why the frame of a group isn't there, where it has one by two lines.
pub(crate) fn bad_frame_of<const S: u32>(
    entities: &[Entity<S>],
    acts: &[Act<S>],
    group: &Group<S>,
) -> Option<FrameFault>
    requires scale { IsScale S }
    requires entities { Rise entities.now }
    requires acts { RiseBy act_handle acts.now }
    ensures { result ≡ bad_frame_of entities.now acts.now group.now }
{
    if !group.by_lines {
        return None;
    }
    match frame_of(entities, acts, group) {
        Ok(_) => None,
        Err(fault) => Some(fault),
    }
}

/// Puts the own normal of a group along its frame by two lines, where it has one.
pub(crate) fn put_frame<const S: u32>(
    acts: &mut Items<Act<S>>,
    entities: &[Entity<S>],
    group: &Group<S>,
)
    requires scale { IsScale S }
    requires known { group.now.id.0 ≤ 32767 }
    requires entities { Rise entities.now }
    requires acts { RiseBy act_handle acts.old }
    ensures value { acts.new ≡ framed entities.now acts.old group.now }
    ensures handles { map act_handle acts.new ≡ map act_handle acts.old }
{
    if !group.by_lines {
        return;
    }
    let values = quaternion_in(frame_of(entities, acts.as_slice(), group));
    let normal = Act {
        entity: own_normal(group),
        values,
    };
    put_act(acts, normal);
}
