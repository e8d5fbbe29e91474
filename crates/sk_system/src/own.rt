// What a group's own entities stand at, and the rows of entities and of the group itself.
#![tactic(auto)]

ghost use Rattle.std.specs.Prelude.{◌≡◌, ◌∷◌, ◌++◌, [], false, map, IfOk, OnOk};
ghost use Rattle.sk_num.specs.Scale.{IsScale};
ghost use Rattle.sk_expr.specs.Poly.{times};
ghost use Rattle.sk_expr.specs.Trees.{poly_of};
ghost use Rattle.sk_expr.specs.Rows.{row_of};
ghost use Rattle.sk_expr.specs.PartViews.{pair_of};
ghost use Rattle.sk_expr.specs.Readings.{row_named, rows_from};
ghost use Rattle.sk_expr.specs.declared.row.RowKind.TheVariants.{OfGroup};
ghost use Rattle.sk_geom.specs.Sources.{IsSource};
ghost use Rattle.sk_geom.specs.EntityTrees.{point_tree, normal_tree, distance_tree};
ghost use Rattle.sk_geom.specs.Views.{source_of};
ghost use Rattle.sk_face.specs.FaceRows.{face_normal};
ghost use Rattle.sk_system.specs.ByHandle.{flat_by};
ghost use Rattle.sk_system.specs.Contacts.{face_of};
ghost use Rattle.sk_system.specs.OwnRows.{nought, read_numbers, own_numbers, unit_row, arc_row, arc_row_of, named_entity_rows, along, within, named_group_rows};
ghost use Rattle.sk_system.specs.GroupSystem.{entities_of, numbers_of, own_rows_of};
ghost use Rattle.sk_system.specs.Views.{numbers_view};

use crate::NoMemory;
use crate::by_handle::{flat_by, frame_by, named};
use crate::contacts::face_of;
use sk_expr::{Expr, Row, RowKind, RowName, Tree, V3, Vector, add, copy, mul, sub};
use sk_face::face_normal;
use sk_geom::{Source, distance_tree, point_tree, quat_tree};
use sk_num::Grid;
use sk_types::{
    Entity, EntityId, Group, GroupKind, Maker, entity_kind, is_distance, is_face, is_normal,
    is_point,
};
use std::alloc::Global;

/// The numbers at which an entity of the group stands, as trees: a point's x, y, z and 0, a normal's w, x, y, z, a distance
/// and three 0, or 0 and a face's normal vector. Those of faces don't count as read.
#[derive(Debug, Drop)]
pub struct OwnNumbers<const S: u32> {
    /// The entity.
    pub entity: EntityId,
    /// The four numbers.
    pub trees: [Tree<S>; 4],
    /// Whether they count as read.
    pub is_read: bool,
}

fn point_numbers<const S: u32>(
    alloc: Global,
    source: &Source<'_, S>,
    e: &Entity<S>,
) -> Result<OwnNumbers<S>, NoMemory>
    requires scale { IsScale S }
    requires source { IsSource (source_of source.now) }
    ensures { IfOk result (λ n. numbers_view n ≡ read_numbers e.now.id (point_tree (source_of source.now) e.now ++ nought ∷ [])) }
{
    let V3 { x, y, z } = point_tree(alloc, e, source)?;
    Ok(OwnNumbers {
        entity: e.id,
        trees: [x, y, z, Expr::Num(Grid::zero())],
        is_read: true,
    })
}

fn normal_numbers<const S: u32>(
    alloc: Global,
    source: &Source<'_, S>,
    e: &Entity<S>,
) -> Result<OwnNumbers<S>, NoMemory>
    requires source { IsSource (source_of source.now) }
    ensures { IfOk result (λ n. numbers_view n ≡ read_numbers e.now.id (normal_tree (source_of source.now) e.now)) }
{
    let trees = quat_tree(alloc, e, source)?;
    Ok(OwnNumbers {
        entity: e.id,
        trees,
        is_read: true,
    })
}

fn distance_numbers<const S: u32>(
    alloc: Global,
    source: &Source<'_, S>,
    e: &Entity<S>,
) -> Result<OwnNumbers<S>, NoMemory>
    requires source { IsSource (source_of source.now) }
    ensures { IfOk result (λ n. numbers_view n ≡ read_numbers e.now.id (distance_tree (source_of source.now) e.now ∷ nought ∷ nought ∷ nought ∷ [])) }
{
    let distance = distance_tree(alloc, e, source)?;
    Ok(OwnNumbers {
        entity: e.id,
        trees: [
            distance,
            Expr::Num(Grid::zero()),
            Expr::Num(Grid::zero()),
            Expr::Num(Grid::zero()),
        ],
        is_read: true,
    })
}

fn face_numbers<const S: u32>(
    alloc: Global,
    source: &Source<'_, S>,
    e: &Entity<S>,
) -> Result<OwnNumbers<S>, NoMemory>
    requires scale { IsScale S }
    requires source { IsSource (source_of source.now) }
    ensures { IfOk result (λ n. numbers_view n ≡ record { entity = e.now.id; trees = nought ∷ face_normal (face_of (source_of source.now) e.now); is_read = false }) }
{
    let face = face_of(alloc, source, e)?;
    let V3 { x, y, z } = face_normal(alloc, &face)?;
    Ok(OwnNumbers {
        entity: e.id,
        trees: [Expr::Num(Grid::zero()), x, y, z],
        is_read: false,
    })
}

/// Puts the numbers of an entity behind others, where it has any.
#[tactic(auto, unfolding(crate::specs::OwnRows::own_numbers))]
fn push_numbers<const S: u32>(
    alloc: Global,
    numbers: &mut Vec<OwnNumbers<S>>,
    source: &Source<'_, S>,
    e: &Entity<S>,
) -> Result<(), NoMemory>
    requires scale { IsScale S }
    requires source { IsSource (source_of source.now) }
    ensures { OnOk result (map numbers_view numbers.new.items ≡ map numbers_view numbers.old.items ++ own_numbers (source_of source.now) e.now) }
{
    if is_point(e.kind) {
        numbers.push(point_numbers(alloc, source, e)?)?;
        return Ok(());
    }
    if is_normal(e.kind) {
        numbers.push(normal_numbers(alloc, source, e)?)?;
        return Ok(());
    }
    if is_distance(e.kind) {
        numbers.push(distance_numbers(alloc, source, e)?)?;
        return Ok(());
    }
    if is_face(e.kind) {
        numbers.push(face_numbers(alloc, source, e)?)?;
        return Ok(());
    }
    Ok(())
}

/// The numbers of the group's own entities, by handle.
pub(crate) fn numbers_in<const S: u32>(
    alloc: Global,
    source: &Source<'_, S>,
    own: &[Entity<S>],
) -> Result<Vec<OwnNumbers<S>>, NoMemory>
    requires scale { IsScale S }
    requires source { IsSource (source_of source.now) }
    requires own { own.now ≡ entities_of (source_of source.now) }
    ensures { IfOk result (λ v. map numbers_view v.items ≡ numbers_of (source_of source.now)) }
{
    let mut numbers = Vec::new(alloc);
    for e in own {
        push_numbers(alloc, &mut numbers, source, e)?;
    }
    Ok(numbers)
}

// ---- rows

fn row_named<const S: u32>(kind: RowKind, handle: u32, index: u8, tree: Tree<S>) -> Row<S>
    ensures { row_of result ≡ row_named kind handle index (poly_of tree.entry) }
{
    let name = RowName {
        kind,
        handle,
        index,
    };
    Row { name, tree }
}

fn square<const S: u32>(alloc: Global, a: &Tree<S>) -> Result<Tree<S>, NoMemory>
    ensures { IfOk result (λ t. poly_of t ≡ times (poly_of a.now) (poly_of a.now)) }
{
    let (a, b) = (copy(alloc, a)?, copy(alloc, a)?);
    mul(alloc, a, b)
}

/// `|q|^2 - 1`.
#[tactic(auto, unfolding(crate::specs::OwnRows::unit_row, sk_expr::specs::Vectors::squared, sk_expr::specs::Vectors::dot))]
fn unit_row<const S: u32>(alloc: Global, q: &[Tree<S>; 4]) -> Result<Tree<S>, NoMemory>
    requires { IsScale S }
    ensures { IfOk result (λ t. poly_of t ≡ unit_row S (map poly_of q.now)) }
{
    let [w, x, y, z] = q;
    let sum = add(alloc, square(alloc, w)?, square(alloc, x)?)?;
    let sum = add(alloc, sum, square(alloc, y)?)?;
    let sum = add(alloc, sum, square(alloc, z)?)?;
    sub(alloc, sum, Expr::Num(Grid::<S>::one()))
}

/// `|start - centre|^2 - |end - centre|^2`.
#[tactic(auto, unfolding(crate::specs::OwnRows::arc_row))]
fn arc_row<const S: u32>(
    alloc: Global,
    centre: &[Tree<S>; 2],
    start: &[Tree<S>; 2],
    end: &[Tree<S>; 2],
) -> Result<Tree<S>, NoMemory>
    ensures { IfOk result (λ t. poly_of t ≡ arc_row (pair_of centre.now) (pair_of start.now) (pair_of end.now)) }
{
    let centre = Vector::flat(alloc, centre)?;
    let start = Vector::flat(alloc, start)?;
    let end = Vector::flat(alloc, end)?;
    let to_start = start.less(alloc, &centre)?;
    let to_end = end.less(alloc, &centre)?;
    let first = to_start.squared(alloc)?;
    let second = to_end.squared(alloc)?;
    let row = sub(alloc, first, second)?;
    Ok(row)
}

/// The row of an arc, in its workplane.
fn arc_row_of<const S: u32>(
    alloc: Global,
    source: &Source<'_, S>,
    e: &Entity<S>,
) -> Result<Tree<S>, NoMemory>
    requires scale { IsScale S }
    requires source { IsSource (source_of source.now) }
    ensures { IfOk result (λ t. poly_of t ≡ arc_row_of (source_of source.now) e.now) }
{
    let points = e.points.as_slice();
    let centre = flat_by(alloc, source, e.workplane, named(points, 0))?;
    let start = flat_by(alloc, source, e.workplane, named(points, 1))?;
    let end = flat_by(alloc, source, e.workplane, named(points, 2))?;
    let row = arc_row(alloc, &centre, &start, &end)?;
    Ok(row)
}

/// Puts the rows of an entity behind others.
#[tactic(auto, unfolding(crate::specs::OwnRows::entity_row_trees))]
fn push_entity_rows<const S: u32>(
    alloc: Global,
    rows: &mut Vec<Row<S>>,
    source: &Source<'_, S>,
    e: &Entity<S>,
) -> Result<(), NoMemory>
    requires scale { IsScale S }
    requires source { IsSource (source_of source.now) }
    ensures { OnOk result (map row_of rows.new.items ≡ map row_of rows.old.items ++ named_entity_rows (source_of source.now) e.now) }
{
    match (e.kind, e.id.maker()) {
        (entity_kind::NORMAL_IN_SPACE, _) => {
            let quaternion = quat_tree(alloc, e, source)?;
            let row = unit_row(alloc, &quaternion)?;
            rows.push(row_named(RowKind::OfEntity, e.id.0, 0, row))?;
            Ok(())
        }
        (entity_kind::ARC, Maker::OfRequest(_, _)) => {
            let row = arc_row_of(alloc, source, e)?;
            rows.push(row_named(RowKind::OfEntity, e.id.0, 0, row))?;
            Ok(())
        }
        _ => Ok(()),
    }
}

/// Puts the rows of an extrusion along a workplane's normal behind others.
fn push_along<const S: u32>(
    alloc: Global,
    rows: &mut Vec<Row<S>>,
    source: &Source<'_, S>,
    group: &Group<S>,
) -> Result<(), NoMemory>
    requires scale { IsScale S }
    requires source { IsSource (source_of source.now) }
    ensures { OnOk result (map row_of rows.new.items ≡ map row_of rows.old.items
        ++ rows_from OfGroup group.now.id.0 0 (along (source_of source.now) group.now.entity_b)) }
{
    let frame = frame_by(alloc, source, group.entity_b)?;
    let vector = source.group_vector();
    let first = frame.u.dot(alloc, &vector)?;
    let second = frame.v.dot(alloc, &vector)?;
    rows.push(row_named(RowKind::OfGroup, group.id.0, 0, first))?;
    rows.push(row_named(RowKind::OfGroup, group.id.0, 1, second))?;
    Ok(())
}

/// Puts the row of a translation in a workplane behind others.
fn push_within<const S: u32>(
    alloc: Global,
    rows: &mut Vec<Row<S>>,
    source: &Source<'_, S>,
    group: &Group<S>,
) -> Result<(), NoMemory>
    requires scale { IsScale S }
    requires source { IsSource (source_of source.now) }
    ensures { OnOk result (map row_of rows.new.items ≡ map row_of rows.old.items
        ++ rows_from OfGroup group.now.id.0 0 (within (source_of source.now) group.now.entity_b)) }
{
    let frame = frame_by(alloc, source, group.entity_b)?;
    let row = frame.n.dot(alloc, &source.group_vector())?;
    rows.push(row_named(RowKind::OfGroup, group.id.0, 0, row))?;
    Ok(())
}

/// Puts the rows of the group behind others.
#[tactic(auto, unfolding(crate::specs::OwnRows::group_row_trees))]
fn push_group_rows<const S: u32>(
    alloc: Global,
    rows: &mut Vec<Row<S>>,
    source: &Source<'_, S>,
    group: &Group<S>,
) -> Result<(), NoMemory>
    requires scale { IsScale S }
    requires source { IsSource (source_of source.now) }
    ensures { OnOk result (map row_of rows.new.items ≡ map row_of rows.old.items ++ named_group_rows (source_of source.now) group.now) }
{
    match group.kind {
        GroupKind::Extrude if group.entity_b.0 != 0 => {
            push_along(alloc, rows, source, group)?;
            Ok(())
        }
        GroupKind::Translate if group.entity_b.0 != 0 => {
            push_within(alloc, rows, source, group)?;
            Ok(())
        }
        GroupKind::Linked => {
            let row = unit_row(alloc, &source.group_quaternion())?;
            rows.push(row_named(RowKind::OfGroup, group.id.0, 0, row))?;
            Ok(())
        }
        _ => Ok(()),
    }
}

/// The rows of the group's own entities, by handle, then those of the group.
pub(crate) fn rows_in<const S: u32>(
    alloc: Global,
    source: &Source<'_, S>,
    group: &Group<S>,
    own: &[Entity<S>],
) -> Result<Vec<Row<S>>, NoMemory>
    requires scale { IsScale S }
    requires source { IsSource (source_of source.now) }
    requires own { own.now ≡ entities_of (source_of source.now) }
    ensures { IfOk result (λ v. map row_of v.items ≡ own_rows_of (source_of source.now) group.now) }
{
    let mut rows = Vec::new(alloc);
    for e in own {
        push_entity_rows(alloc, &mut rows, source, e)?;
    }
    push_group_rows(alloc, &mut rows, source, group)?;
    Ok(rows)
}
