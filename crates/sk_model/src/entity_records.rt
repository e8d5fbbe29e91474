// The records of entities.

ghost use Rattle.std.specs.Prelude.{◌≡◌, ◌<◌, ◌^◌, ◌++◌, ◌∷◌, [], length, OnOk, IfOk};
ghost use Rattle.std.specs.List.{All};
ghost use Rattle.sk_num.specs.Limit.{IsInLimit};
ghost use Rattle.sk_num.specs.Scale.{IsScale};
ghost use Rattle.sk_types.specs.Lookups.{act_at, act_handle, RiseBy};
ghost use Rattle.sk_records.specs.Blocks.{with_tails};
ghost use Rattle.sk_records.specs.Written.{bytes_of};
ghost use Rattle.sk_model.specs.EntityRecords.{handle_pairs, quantity_pairs, point_key, point_pairs, name_pairs, place_numbers, turn_numbers, length_numbers, is_turned, act_numbers, number_pairs, act_pairs, flag_text, head_pairs, entity_record, entity_records};
ghost use Rattle.sk_model.specs.WrittenLines.{pair_bytes};
ghost use Rattle.sk_model.specs.Settable.{AreFit, IsActFit, IsWritable};

use crate::NoMemory;
use crate::changes::is_same;
use crate::writing::push_value;
use itoa::Buffer;
use sk_num::{Grid, handle_text, quantity_text};
use sk_types::{Act, Entity, EntityId, act_at, is_distance, is_face, is_normal, is_point};
use std::alloc::Global;

// Appends the line of a handle, where it isn't 0.
fn push_handle(out: &mut Vec<u8>, key: &[u8], id: EntityId) -> Result<(), NoMemory>
    ensures { OnOk result (out.new.items ≡ out.old.items ++ pair_bytes (handle_pairs key.now id)) }
{
    if id.0 == 0 {
        return Ok(());
    }
    push_value(out, key, &handle_text(id.0))
}

// Appends the line of a quantity, where it isn't 0.
fn push_quantity<const S: u32>(out: &mut Vec<u8>, key: &[u8], v: Grid<S>) -> Result<(), NoMemory>
    requires { IsScale S }
    ensures line { OnOk result (out.new.items ≡ out.old.items ++ pair_bytes (quantity_pairs S key.now v.entry)) }
    ensures fits { OnOk result (IsInLimit v.entry) }
{
    if is_same(v, Grid::zero()) {
        return Ok(());
    }
    let text = quantity_text(v);
    push_value(out, key, &text.bytes[..usize::from(text.len)])
}

// Appends the line of a point with its place, where there is one.
fn push_point(out: &mut Vec<u8>, place: usize, id: EntityId) -> Result<(), NoMemory>
    ensures { OnOk result (out.new.items ≡ out.old.items ++ pair_bytes (handle_pairs (point_key place) id)) }
{
    if id.0 == 0 {
        return Ok(());
    }
    out.extend_from_slice(b"Entity.point[")?;
    out.extend_from_slice(Buffer::new().format(place).as_bytes())?;
    push_value(out, b"].v", &handle_text(id.0))
}

// Appends the lines of points.
fn push_points(out: &mut Vec<u8>, points: &[EntityId]) -> Result<(), NoMemory>
    ensures lines { OnOk result (out.new.items ≡ out.old.items ++ pair_bytes (point_pairs 0 points.now)) }
    ensures few { OnOk result (length points.now < 2 ^ 64) }
{
    for (place, point) in points.iter().enumerate() {
        push_point(out, place, *point)?;
    }
    Ok(())
}

// Appends the lines of what an entity names.
fn push_names<const S: u32>(out: &mut Vec<u8>, entity: &Entity<S>) -> Result<(), NoMemory>
    ensures lines { OnOk result (out.new.items ≡ out.old.items ++ pair_bytes (name_pairs entity.now)) }
    ensures few { OnOk result (length entity.now.points < 2 ^ 64) }
{
    push_points(out, entity.points.as_slice())?;
    push_handle(out, b"Entity.normal.v", entity.normal)?;
    push_handle(out, b"Entity.distance.v", entity.distance)?;
    push_handle(out, b"Entity.workplane.v", entity.workplane)
}

// Appends the lines of a point's place.
fn push_place<const S: u32>(out: &mut Vec<u8>, values: &[Grid<S>; 4]) -> Result<(), NoMemory>
    requires { IsScale S }
    ensures lines { OnOk result (out.new.items ≡ out.old.items ++ pair_bytes (number_pairs S (place_numbers values.now))) }
    ensures fits { OnOk result (AreFit (place_numbers values.now)) }
{
    push_quantity(out, b"Entity.actPoint.x", values[0])?;
    push_quantity(out, b"Entity.actPoint.y", values[1])?;
    push_quantity(out, b"Entity.actPoint.z", values[2])
}

// Appends the lines of a quaternion, or of a normal vector behind 0.
fn push_turn<const S: u32>(out: &mut Vec<u8>, values: &[Grid<S>; 4]) -> Result<(), NoMemory>
    requires { IsScale S }
    ensures lines { OnOk result (out.new.items ≡ out.old.items ++ pair_bytes (number_pairs S (turn_numbers values.now))) }
    ensures fits { OnOk result (AreFit (turn_numbers values.now)) }
{
    push_quantity(out, b"Entity.actNormal.w", values[0])?;
    push_quantity(out, b"Entity.actNormal.vx", values[1])?;
    push_quantity(out, b"Entity.actNormal.vy", values[2])?;
    push_quantity(out, b"Entity.actNormal.vz", values[3])
}

// Appends the line of a distance.
fn push_length<const S: u32>(out: &mut Vec<u8>, values: &[Grid<S>; 4]) -> Result<(), NoMemory>
    requires { IsScale S }
    ensures lines { OnOk result (out.new.items ≡ out.old.items ++ pair_bytes (number_pairs S (length_numbers values.now))) }
    ensures fits { OnOk result (AreFit (length_numbers values.now)) }
{
    push_quantity(out, b"Entity.actDistance", values[0])
}

// Whether entities of this number have a quaternion or a normal vector.
fn is_turned(kind: u16) -> bool
    ensures { result ≡ is_turned kind }
{
    is_normal(kind) || is_face(kind)
}

// Appends the lines of an entity's numbers.
#[tactic(auto, unfolding(crate::specs::EntityRecords::act_numbers))]
fn push_numbers<const S: u32>(
    out: &mut Vec<u8>,
    kind: u16,
    values: &[Grid<S>; 4],
) -> Result<(), NoMemory>
    requires { IsScale S }
    ensures lines { OnOk result (out.new.items ≡ out.old.items ++ pair_bytes (number_pairs S (act_numbers kind values.now))) }
    ensures fits { OnOk result (AreFit (act_numbers kind values.now)) }
{
    if is_point(kind) {
        return push_place(out, values);
    }
    if is_turned(kind) {
        return push_turn(out, values);
    }
    if is_distance(kind) {
        return push_length(out, values);
    }
    Ok(())
}

// Appends the lines of the numbers at which an entity stands, where it has any.
fn push_act<const S: u32>(
    out: &mut Vec<u8>,
    entity: &Entity<S>,
    acts: &[Act<S>],
) -> Result<(), NoMemory>
    requires scale { IsScale S }
    requires acts { RiseBy act_handle acts.now }
    ensures lines { OnOk result (out.new.items ≡ out.old.items ++ pair_bytes (act_pairs entity.now.kind (act_at entity.now.id.0 acts.now))) }
    ensures fits { OnOk result (IsActFit entity.now.kind (act_at entity.now.id.0 acts.now)) }
{
    match act_at(acts, entity.id) {
        Some(act) => push_numbers(out, entity.kind, &act.values),
        None => Ok(()),
    }
}

// How a flag is written.
fn flag_text(flag: bool) -> &'static [u8]
    ensures { result.now ≡ flag_text flag }
{
    if flag { b"1" } else { b"0" }
}

// Appends the lines with which a record begins.
fn push_head<const S: u32>(out: &mut Vec<u8>, entity: &Entity<S>) -> Result<(), NoMemory>
    ensures lines { OnOk result (out.new.items ≡ out.old.items ++ pair_bytes (head_pairs entity.now)) }
    ensures small { OnOk result (entity.now.kind < 2 ^ 16) }
{
    push_value(out, b"Entity.h.v", &handle_text(entity.id.0))?;
    push_value(
        out,
        b"Entity.type",
        Buffer::new().format(entity.kind).as_bytes(),
    )?;
    push_value(out, b"Entity.construction", flag_text(entity.construction))
}

// Appends the record of an entity, and its tail.
fn push_entity<const S: u32>(
    out: &mut Vec<u8>,
    entity: &Entity<S>,
    acts: &[Act<S>],
) -> Result<(), NoMemory>
    requires scale { IsScale S }
    requires acts { RiseBy act_handle acts.now }
    ensures lines { OnOk result (out.new.items ≡ out.old.items ++ bytes_of (with_tails (entity_record acts.now entity.now ∷ []))) }
    ensures writable { OnOk result (IsWritable acts.now entity.now) }
{
    push_head(out, entity)?;
    push_names(out, entity)?;
    push_act(out, entity, acts)?;
    push_value(out, b"Entity.actVisible", b"1")?;
    out.extend_from_slice(b"AddEntity\n\n")?;
    Ok(())
}

/// The records of entities, each with its tail.
pub(crate) fn entity_text<const S: u32>(
    alloc: Global,
    entities: &[Entity<S>],
    acts: &[Act<S>],
) -> Result<Vec<u8>, NoMemory>
    requires scale { IsScale S }
    requires acts { RiseBy act_handle acts.now }
    ensures text { IfOk result (λ text. text.items ≡ bytes_of (with_tails (entity_records acts.now entities.now))) }
    ensures writable { IfOk result (λ _. All (IsWritable acts.now) entities.now) }
{
    let mut out = Vec::new(alloc);
    for entity in entities {
        push_entity(&mut out, entity, acts)?;
    }
    Ok(out)
}
