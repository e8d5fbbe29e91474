ghost use Rattle.std.specs.Prelude.{◌≡◌, ◌≤◌, Some, None, map, length, IfOk, IfErr, OnOk};
ghost use Rattle.sk_num.specs.Scale.{IsScale};
ghost use Rattle.sk_expr.specs.Rows.{row_of};
ghost use Rattle.sk_expr.specs.PartViews.{parts_of};
ghost use Rattle.sk_expr.specs.FormulaViews.{formula_of, IsSmall, HasRoom, HasFewMore};
ghost use Rattle.sk_expr.specs.Visits.{grown_of};
ghost use Rattle.sk_expr.specs.Readings.{grown_by};
ghost use Rattle.sk_expr.specs.declared.fault.VisitFault.TheVariants.{PastLimit};
ghost use Rattle.sk_expr.specs.declared.row.RowKind.TheVariants.{OfConstraint};
ghost use Rattle.sk_eq_curves.specs.CurveRows.{curve_formula};

use crate::NoMemory;
use crate::circles::{arc_touches_line, arcs_touch, diameter, equal_radii, on_circle};
use sk_expr::{Auxiliaries, ConstraintParts, Formula, RowKind, Rows, VisitFault};
use sk_types::{Constraint, constraint_kind as kind};
use std::alloc::Global;

/// The formula of a constraint of circles or arcs by its parts, where `i` unknowns stand before; that with nothing for any
/// other constraint. Curves that touch are two arcs.
#[tactic(auto, unfolding(crate::specs::CurveRows::curve_formula))]
pub fn formula<const S: u32>(
    alloc: Global,
    i: u16,
    c: &Constraint<S>,
    parts: &ConstraintParts<S>,
) -> Result<Formula<S>, NoMemory>
    requires scale { IsScale S }
    requires room { i ≤ 60000 }
    ensures formula { IfOk result (λ f. formula_of f ≡ curve_formula S i c.now (parts_of parts.now)) }
    ensures small { IfOk result (λ f. IsSmall f) }
{
    match c.kind {
        kind::DIAMETER => Ok(diameter(alloc, i, c.value, parts)?),
        kind::POINT_ON_CIRCLE => Ok(on_circle(alloc, i, parts)?),
        kind::ARC_LINE_TANGENT => Ok(arc_touches_line(alloc, c.other, parts)?),
        kind::CURVE_CURVE_TANGENT => Ok(arcs_touch(alloc, c.other, c.other2, parts)?),
        kind::EQUAL_RADII => Ok(equal_radii(alloc, i, parts)?),
        _ => Ok(Formula::empty(alloc)),
    }
}

/// The relation rows of a constraint of circles or arcs. Its auxiliaries and their own rows are appended to what is seen at
/// the point. PastLimit comes exactly where a reading that the constraint takes passes the limit. After a fault it is unknown
/// what is appended. No rows for any other constraint.
pub fn rows<const S: u32>(
    alloc: Global,
    c: &Constraint<S>,
    parts: &ConstraintParts<S>,
    at: &mut Auxiliaries<S>,
) -> Result<Rows<S>, VisitFault>
    requires scale { IsScale S }
    requires room { HasRoom at.old }
    ensures rows { IfOk result (λ v. grown_by S OfConstraint c.now.id.0 (curve_formula S (length at.old.unknowns) c.now (parts_of parts.now)) (grown_of at.old)
        ≡ Some (record { seen = grown_of at.new; rows = map (row_of {s = S}) v.items })) }
    ensures past { IfErr result (λ e. e ≡ PastLimit →
        grown_by S OfConstraint c.now.id.0 (curve_formula S (length at.old.unknowns) c.now (parts_of parts.now)) (grown_of at.old) ≡ None) }
    ensures few { IfOk result (λ v. length v.items ≤ 9) }
    ensures few_more { OnOk result (HasFewMore at.old at.new) }
{
    let i = at.unknowns.as_slice().len() as u16;
    let formula = formula(alloc, i, c, parts)?;
    let rows = at.grow(alloc, RowKind::OfConstraint, c.id.0, &formula)?;
    Ok(rows)
}
