ghost use Rattle.std.specs.Prelude.{◌≡◌, ◌≤◌, Some, None, map, length, IfOk, IfErr, OnOk};
ghost use Rattle.sk_num.specs.Scale.{IsScale};
ghost use Rattle.sk_expr.specs.Rows.{row_of};
ghost use Rattle.sk_expr.specs.PartViews.{parts_of};
ghost use Rattle.sk_expr.specs.FormulaViews.{formula_of, IsSmall, HasRoom, HasFewMore};
ghost use Rattle.sk_expr.specs.Visits.{grown_of};
ghost use Rattle.sk_expr.specs.Readings.{grown_by};
ghost use Rattle.sk_expr.specs.declared.fault.VisitFault.TheVariants.{PastLimit};
ghost use Rattle.sk_expr.specs.declared.row.RowKind.TheVariants.{OfConstraint};
ghost use Rattle.sk_eq_lines.specs.LineRows.{line_formula};
ghost use Rattle.sk_types.specs.Standings.{IsInTurn};

use crate::NoMemory;
use crate::angles::{equal_angles, in_angle, parallel, perpendicular, same_orientation};
use crate::distances::{apart_along, equal_heights, from_line, length_as_height, on_line};
use crate::lengths::{equal_lengths, length_ratio, longer_by};
use sk_expr::{Auxiliaries, ConstraintParts, Formula, RowKind, Rows, VisitFault};
use sk_types::{Constraint, constraint_kind as kind};
use std::alloc::Global;

/// The formula of a constraint of lines or normals by its parts, where `i` unknowns and `k` cosines stand before; that with
/// nothing for any other constraint.
#[tactic(auto, unfolding(crate::specs::LineRows::line_formula))]
pub fn formula<const S: u32>(
    alloc: Global,
    i: u16,
    k: u16,
    c: &Constraint<S>,
    parts: &ConstraintParts<S>,
) -> Result<Formula<S>, NoMemory>
    requires scale { IsScale S }
    requires in_turn { IsInTurn c.now }
    requires room { i ≤ 60000 }
    ensures formula { IfOk result (λ f. formula_of f ≡ line_formula S i k c.now (parts_of parts.now)) }
    ensures small { IfOk result (λ f. IsSmall f) }
{
    let flat = c.workplane.0 != 0;
    match c.kind {
        kind::POINT_LINE_DISTANCE => Ok(from_line(alloc, i, flat, c.value, parts)?),
        kind::PROJECTED_DISTANCE => Ok(apart_along(alloc, i, c.value, parts)?),
        kind::POINT_ON_LINE => Ok(on_line(alloc, i, flat, parts)?),
        kind::EQUAL_LENGTHS => Ok(equal_lengths(alloc, flat, parts)?),
        kind::LENGTH_RATIO => Ok(length_ratio(alloc, flat, c.value, parts)?),
        kind::EQUAL_LENGTH_AND_DISTANCE => Ok(length_as_height(alloc, i, flat, parts)?),
        kind::EQUAL_DISTANCES => Ok(equal_heights(alloc, i, flat, parts)?),
        kind::EQUAL_ANGLES => Ok(equal_angles(alloc, i, c.other, flat, parts)?),
        kind::LENGTH_DIFFERENCE => Ok(longer_by(alloc, i, flat, c.value, parts)?),
        kind::SAME_ORIENTATION => Ok(same_orientation(alloc, parts)?),
        kind::ANGLE => Ok(in_angle(alloc, i, k, c.other, flat, c.value, parts)?),
        kind::PARALLEL => Ok(parallel(alloc, flat, parts)?),
        kind::PERPENDICULAR => Ok(perpendicular(alloc, flat, parts)?),
        _ => Ok(Formula::empty(alloc)),
    }
}

/// The relation rows of a constraint of lines or normals. Its auxiliaries, their own rows and its cosine are appended to
/// what is seen at the point. PastLimit comes exactly where a reading that the constraint takes passes the limit. After a
/// fault it is unknown what is appended. No rows for any other constraint.
pub fn rows<const S: u32>(
    alloc: Global,
    c: &Constraint<S>,
    parts: &ConstraintParts<S>,
    at: &mut Auxiliaries<S>,
) -> Result<Rows<S>, VisitFault>
    requires scale { IsScale S }
    requires in_turn { IsInTurn c.now }
    requires room { HasRoom at.old }
    ensures rows { IfOk result (λ v.
        grown_by S OfConstraint c.now.id.0 (line_formula S (length at.old.unknowns) (length at.old.cosines) c.now (parts_of parts.now)) (grown_of at.old)
        ≡ Some (record { seen = grown_of at.new; rows = map (row_of {s = S}) v.items })) }
    ensures past { IfErr result (λ e. e ≡ PastLimit →
        grown_by S OfConstraint c.now.id.0 (line_formula S (length at.old.unknowns) (length at.old.cosines) c.now (parts_of parts.now)) (grown_of at.old) ≡ None) }
    ensures few { IfOk result (λ v. length v.items ≤ 9) }
    ensures few_more { OnOk result (HasFewMore at.old at.new) }
{
    let i = at.unknowns.as_slice().len() as u16;
    let k = at.cosines.as_slice().len() as u16;
    let formula = formula(alloc, i, k, c, parts)?;
    let rows = at.grow(alloc, RowKind::OfConstraint, c.id.0, &formula)?;
    Ok(rows)
}
