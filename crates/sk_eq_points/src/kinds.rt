ghost use Rattle.std.specs.Prelude.{◌≡◌, ◌≤◌, Some, None, map, length, IfOk, IfErr, OnOk};
ghost use Rattle.sk_num.specs.Scale.{IsScale};
ghost use Rattle.sk_expr.specs.Rows.{row_of};
ghost use Rattle.sk_expr.specs.PartViews.{parts_of};
ghost use Rattle.sk_expr.specs.FormulaViews.{formula_of, IsSmall, HasRoom, HasFewMore};
ghost use Rattle.sk_expr.specs.Visits.{grown_of};
ghost use Rattle.sk_expr.specs.Readings.{grown_by};
ghost use Rattle.sk_expr.specs.declared.fault.VisitFault.TheVariants.{PastLimit};
ghost use Rattle.sk_expr.specs.declared.row.RowKind.TheVariants.{OfConstraint};
ghost use Rattle.sk_eq_points.specs.PointRows.{point_formula};

use crate::NoMemory;
use crate::points::{coincident, in_plane, level, middle, over_plane, points_apart};
use crate::symmetry::{
    mirrored_over_u, mirrored_over_v, symmetric_over_line, symmetric_over_plane,
};
use sk_expr::{Auxiliaries, ConstraintParts, Formula, RowKind, Rows, VisitFault};
use sk_types::{Constraint, constraint_kind as kind};
use std::alloc::Global;

/// The formula of a constraint of points by its parts; that with no rows for any other constraint.
#[tactic(auto, unfolding(crate::specs::PointRows::point_rows))]
pub fn formula<const S: u32>(
    alloc: Global,
    c: &Constraint<S>,
    parts: &ConstraintParts<S>,
) -> Result<Formula<S>, NoMemory>
    requires { IsScale S }
    ensures formula { IfOk result (λ f. formula_of f ≡ point_formula S c.now (parts_of parts.now)) }
    ensures small { IfOk result (λ f. IsSmall f) }
{
    let flat = c.workplane.0 != 0;
    let has_line = c.entities[0].0 != 0;
    match c.kind {
        kind::POINTS_COINCIDENT => Ok(coincident(alloc, flat, parts)?),
        kind::POINT_POINT_DISTANCE => Ok(points_apart(alloc, flat, c.value, parts)?),
        kind::POINT_PLANE_DISTANCE => Ok(over_plane(alloc, c.value, parts)?),
        kind::POINT_IN_PLANE => Ok(in_plane(alloc, parts)?),
        kind::SYMMETRIC => Ok(symmetric_over_plane(alloc, flat, parts)?),
        kind::SYMMETRIC_HORIZONTAL => Ok(mirrored_over_v(alloc, parts)?),
        kind::SYMMETRIC_VERTICAL => Ok(mirrored_over_u(alloc, parts)?),
        kind::SYMMETRIC_LINE => Ok(symmetric_over_line(alloc, parts)?),
        kind::AT_MIDPOINT => Ok(middle(alloc, c.points[0].0 != 0, flat, parts)?),
        kind::HORIZONTAL => Ok(level(alloc, has_line, true, parts)?),
        kind::VERTICAL => Ok(level(alloc, has_line, false, parts)?),
        _ => Ok(Formula::empty(alloc)),
    }
}

/// The relation rows of a constraint of points, of which none takes a reading: nothing is appended to what is seen at the
/// point. No rows for any other constraint.
pub fn rows<const S: u32>(
    alloc: Global,
    c: &Constraint<S>,
    parts: &ConstraintParts<S>,
    at: &mut Auxiliaries<S>,
) -> Result<Rows<S>, VisitFault>
    requires scale { IsScale S }
    requires room { HasRoom at.old }
    ensures rows { IfOk result (λ v. grown_by S OfConstraint c.now.id.0 (point_formula S c.now (parts_of parts.now)) (grown_of at.old)
        ≡ Some (record { seen = grown_of at.new; rows = map (row_of {s = S}) v.items })) }
    ensures past { IfErr result (λ e. e ≡ PastLimit → grown_by S OfConstraint c.now.id.0 (point_formula S c.now (parts_of parts.now)) (grown_of at.old) ≡ None) }
    ensures few { IfOk result (λ v. length v.items ≤ 9) }
    ensures few_more { OnOk result (HasFewMore at.old at.new) }
{
    let formula = formula(alloc, c, parts)?;
    let rows = at.grow(alloc, RowKind::OfConstraint, c.id.0, &formula)?;
    Ok(rows)
}
