ghost use Rattle.std.specs.Prelude.{◌≡◌, ◌≤◌, Some, None, map, length, IfOk, IfErr, OnOk};
ghost use Rattle.sk_num.specs.Scale.{IsScale};
ghost use Rattle.sk_expr.specs.Rows.{row_of};
ghost use Rattle.sk_expr.specs.PartViews.{v3_of};
ghost use Rattle.sk_expr.specs.FormulaViews.{formula_of, IsSmall, HasRoom, HasFewMore};
ghost use Rattle.sk_expr.specs.Visits.{grown_of};
ghost use Rattle.sk_expr.specs.VectorViews.{vector_of};
ghost use Rattle.sk_expr.specs.Vectors.{vector_difference};
ghost use Rattle.sk_expr.specs.Readings.{grown_by};
ghost use Rattle.sk_expr.specs.declared.fault.VisitFault.TheVariants.{PastLimit};
ghost use Rattle.sk_expr.specs.declared.row.RowKind.TheVariants.{OfConstraint};
ghost use Rattle.sk_face.specs.FaceRows.{face_normal, face_point, over_face, in_face, face_formula};
ghost use Rattle.sk_face.specs.FaceViews.{face_of};

use crate::NoMemory;
use crate::faces::{FaceParts, face_normal, face_point};
use sk_expr::{
    Auxiliaries, Auxiliary, Expr, Formula, RowKind, Rows, V3, Vector, VisitFault, mul, sub,
};
use sk_num::Grid;
use sk_types::{Constraint, constraint_kind as kind};
use std::alloc::Global;

/// From the face's point to `p`.
fn from_face<const S: u32>(
    alloc: Global,
    p: &V3<S>,
    face: &FaceParts<S>,
) -> Result<Vector<S>, NoMemory>
    ensures { IfOk result (λ v. vector_of v ≡ vector_difference (v3_of p.now) (face_point (face_of face.now))) }
{
    let p = p.vector(alloc)?;
    let on = face_point(alloc, face)?.vector(alloc)?;
    let apart = p.less(alloc, &on)?;
    Ok(apart)
}

#[tactic(auto, unfolding(crate::specs::FaceRows::over_face))]
fn over_face<const S: u32>(
    alloc: Global,
    i: u16,
    value: Grid<S>,
    p: &V3<S>,
    face: &FaceParts<S>,
) -> Result<Formula<S>, NoMemory>
    ensures formula { IfOk result (λ f. formula_of f ≡ over_face i value.entry (v3_of p.now) (face_of face.now)) }
    ensures small { IfOk result (λ f. IsSmall f) }
{
    let normal = face_normal(alloc, face)?.vector(alloc)?;
    let apart = from_face(alloc, p, face)?.dot(alloc, &normal)?;
    let far = mul(alloc, Expr::Num(value), Expr::Var(i))?;
    let formula = Formula::empty(alloc).auxiliary(Auxiliary::Length(normal))?;
    let formula = formula.row(sub(alloc, apart, far)?)?;
    Ok(formula)
}

#[tactic(auto, unfolding(crate::specs::FaceRows::in_face))]
fn in_face<const S: u32>(
    alloc: Global,
    p: &V3<S>,
    face: &FaceParts<S>,
) -> Result<Formula<S>, NoMemory>
    ensures formula { IfOk result (λ f. formula_of f ≡ in_face (v3_of p.now) (face_of face.now)) }
    ensures small { IfOk result (λ f. IsSmall f) }
{
    let normal = face_normal(alloc, face)?.vector(alloc)?;
    let apart = from_face(alloc, p, face)?;
    let formula = Formula::perpendicular(alloc, &apart, &normal)?;
    Ok(formula)
}

/// The formula of a constraint of the point `p` and a face, where `i` unknowns stand before; that with nothing for any other
/// constraint.
#[tactic(auto, unfolding(crate::specs::FaceRows::face_formula))]
pub fn formula<const S: u32>(
    alloc: Global,
    i: u16,
    c: &Constraint<S>,
    p: &V3<S>,
    face: &FaceParts<S>,
) -> Result<Formula<S>, NoMemory>
    ensures formula { IfOk result (λ f. formula_of f ≡ face_formula S i c.now (v3_of p.now) (face_of face.now)) }
    ensures small { IfOk result (λ f. IsSmall f) }
{
    match c.kind {
        kind::POINT_FACE_DISTANCE => Ok(over_face(alloc, i, c.value, p, face)?),
        kind::POINT_ON_FACE => Ok(in_face(alloc, p, face)?),
        _ => Ok(Formula::empty(alloc)),
    }
}

/// The relation rows of a constraint of the point `p` and a face. The length of the face's normal vector and its own row are
/// appended to what is seen at the point, where `p` is to lie over the face. PastLimit comes exactly where a reading of that
/// length passes the limit. After a fault it is unknown what is appended. No rows for any other constraint.
pub fn rows<const S: u32>(
    alloc: Global,
    c: &Constraint<S>,
    p: &V3<S>,
    face: &FaceParts<S>,
    at: &mut Auxiliaries<S>,
) -> Result<Rows<S>, VisitFault>
    requires scale { IsScale S }
    requires room { HasRoom at.old }
    ensures rows { IfOk result (λ v. grown_by S OfConstraint c.now.id.0 (face_formula S (length at.old.unknowns) c.now (v3_of p.now) (face_of face.now)) (grown_of at.old)
        ≡ Some (record { seen = grown_of at.new; rows = map (row_of {s = S}) v.items })) }
    ensures past { IfErr result (λ e. e ≡ PastLimit →
        grown_by S OfConstraint c.now.id.0 (face_formula S (length at.old.unknowns) c.now (v3_of p.now) (face_of face.now)) (grown_of at.old) ≡ None) }
    ensures few { IfOk result (λ v. length v.items ≤ 9) }
    ensures few_more { OnOk result (HasFewMore at.old at.new) }
{
    let i = at.unknowns.as_slice().len() as u16;
    let formula = formula(alloc, i, c, p, face)?;
    let rows = at.grow(alloc, RowKind::OfConstraint, c.id.0, &formula)?;
    Ok(rows)
}
