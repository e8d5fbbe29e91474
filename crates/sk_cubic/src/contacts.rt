ghost use Rattle.std.specs.Prelude.{◌≡◌, ◌≤◌, true, Some, None, map, length, IfOk, IfErr, OnOk};
ghost use Rattle.sk_num.specs.Scale.{IsScale};
ghost use Rattle.sk_expr.specs.Rows.{row_of};
ghost use Rattle.sk_expr.specs.FormulaViews.{formula_of, IsSmall, HasRoom, HasFewMore};
ghost use Rattle.sk_expr.specs.Visits.{grown_of};
ghost use Rattle.sk_expr.specs.Readings.{grown_by};
ghost use Rattle.sk_expr.specs.declared.fault.VisitFault.TheVariants.{PastLimit};
ghost use Rattle.sk_expr.specs.declared.row.RowKind.TheVariants.{OfConstraint};
ghost use Rattle.sk_expr.specs.PartViews.{v3_of, pair_of};
ghost use Rattle.sk_expr.specs.Formula.{parallel, perpendicular};
ghost use Rattle.sk_cubic.specs.CubicRows.{with_line, ends_touch, touch, cubic_formula};
ghost use Rattle.sk_cubic.specs.CubicViews.{end_of, both_of, contact_of};

use crate::NoMemory;
use sk_expr::{Auxiliaries, Formula, RowKind, Rows, Tree, V3, Vector, VisitFault};
use sk_types::{Constraint, constraint_kind as kind};
use std::alloc::Global;

/// The end at which a curve touches another, in the constraint's workplane.
#[derive(Debug, Drop)]
pub enum EndParts<const S: u32> {
    /// An arc: its end less its centre.
    Arc([Tree<S>; 2]),
    /// A cubic: its tangent there.
    Cubic([Tree<S>; 2]),
}

/// What the rows of a cubic that touches something are made of.
#[derive(Debug, Drop)]
pub enum CubicParts<const S: u32> {
    /// A cubic and a line.
    Line {
        /// The cubic's tangent, in space: at its start point 1 less point 0, at its end the last point less the one before.
        d: V3<S>,
        /// The line's vector, in space.
        line: V3<S>,
        /// Both in the constraint's workplane, None where it has none.
        flat: Option<[[Tree<S>; 2]; 2]>,
    },
    /// Two curves, of which one at least is a cubic.
    Curves(EndParts<S>, EndParts<S>),
}

/// Two vectors in the workplane lie along one line.
fn flat_parallel<const S: u32>(
    alloc: Global,
    d: &[Tree<S>; 2],
    e: &[Tree<S>; 2],
) -> Result<Formula<S>, NoMemory>
    ensures formula { IfOk result (λ f. formula_of f ≡ parallel true (pair_of d.now) (pair_of e.now)) }
    ensures small { IfOk result (λ f. IsSmall f) }
{
    let d = Vector::flat(alloc, d)?;
    let e = Vector::flat(alloc, e)?;
    let formula = Formula::parallel(alloc, true, d, &e)?;
    Ok(formula)
}

/// Two vectors in the workplane are at a right angle.
fn flat_perpendicular<const S: u32>(
    alloc: Global,
    r: &[Tree<S>; 2],
    d: &[Tree<S>; 2],
) -> Result<Formula<S>, NoMemory>
    ensures formula { IfOk result (λ f. formula_of f ≡ perpendicular (pair_of r.now) (pair_of d.now)) }
    ensures small { IfOk result (λ f. IsSmall f) }
{
    let r = Vector::flat(alloc, r)?;
    let d = Vector::flat(alloc, d)?;
    let formula = Formula::perpendicular(alloc, &r, &d)?;
    Ok(formula)
}

/// Two spokes, or two tangents, lie along one line; a spoke is at a right angle to a tangent.
fn ends_touch<const S: u32>(
    alloc: Global,
    a: &EndParts<S>,
    b: &EndParts<S>,
) -> Result<Formula<S>, NoMemory>
    ensures formula { IfOk result (λ f. formula_of f ≡ ends_touch (end_of a.now) (end_of b.now)) }
    ensures small { IfOk result (λ f. IsSmall f) }
{
    match (a, b) {
        (EndParts::Arc(r), EndParts::Arc(q)) => Ok(flat_parallel(alloc, r, q)?),
        (EndParts::Arc(r), EndParts::Cubic(d)) => Ok(flat_perpendicular(alloc, r, d)?),
        (EndParts::Cubic(d), EndParts::Arc(r)) => Ok(flat_perpendicular(alloc, r, d)?),
        (EndParts::Cubic(d), EndParts::Cubic(e)) => Ok(flat_parallel(alloc, d, e)?),
    }
}

/// A tangent and a line's vector lie along one line, in the workplane where both are given there.
fn touches_line<const S: u32>(
    alloc: Global,
    d: &V3<S>,
    line: &V3<S>,
    flat: &Option<[[Tree<S>; 2]; 2]>,
) -> Result<Formula<S>, NoMemory>
    ensures formula { IfOk result (λ f. formula_of f ≡ touch (with_line (v3_of d.now) (v3_of line.now) (both_of flat.now))) }
    ensures small { IfOk result (λ f. IsSmall f) }
{
    match flat {
        Some(both) => {
            let d = Vector::flat_among(alloc, both.as_slice(), 0)?;
            let line = Vector::flat_among(alloc, both.as_slice(), 1)?;
            let formula = Formula::parallel(alloc, true, d, &line)?;
            Ok(formula)
        }
        None => {
            let d = d.vector(alloc)?;
            let line = line.vector(alloc)?;
            let formula = Formula::parallel(alloc, false, d, &line)?;
            Ok(formula)
        }
    }
}

fn touch<const S: u32>(alloc: Global, parts: &CubicParts<S>) -> Result<Formula<S>, NoMemory>
    ensures formula { IfOk result (λ f. formula_of f ≡ touch (contact_of parts.now)) }
    ensures small { IfOk result (λ f. IsSmall f) }
{
    match parts {
        CubicParts::Line { d, line, flat } => Ok(touches_line(alloc, d, line, flat)?),
        CubicParts::Curves(a, b) => Ok(ends_touch(alloc, a, b)?),
    }
}

/// The formula of a constraint by which a cubic touches something; that with nothing for any other constraint.
#[tactic(auto, unfolding(crate::specs::CubicRows::cubic_formula))]
pub fn formula<const S: u32>(
    alloc: Global,
    c: &Constraint<S>,
    parts: &CubicParts<S>,
) -> Result<Formula<S>, NoMemory>
    ensures formula { IfOk result (λ f. formula_of f ≡ cubic_formula S c.now (contact_of parts.now)) }
    ensures small { IfOk result (λ f. IsSmall f) }
{
    match c.kind {
        kind::CUBIC_LINE_TANGENT | kind::CURVE_CURVE_TANGENT => Ok(touch(alloc, parts)?),
        _ => Ok(Formula::empty(alloc)),
    }
}

/// The relation rows of a constraint by which a cubic touches something. Nothing is appended to what is seen at the point.
/// PastLimit comes exactly where, for a line in space, a reading of the tangent passes the limit. No rows for any other
/// constraint.
pub fn rows<const S: u32>(
    alloc: Global,
    c: &Constraint<S>,
    parts: &CubicParts<S>,
    at: &mut Auxiliaries<S>,
) -> Result<Rows<S>, VisitFault>
    requires scale { IsScale S }
    requires room { HasRoom at.old }
    ensures rows { IfOk result (λ v. grown_by S OfConstraint c.now.id.0 (cubic_formula S c.now (contact_of parts.now)) (grown_of at.old)
        ≡ Some (record { seen = grown_of at.new; rows = map (row_of {s = S}) v.items })) }
    ensures past { IfErr result (λ e. e ≡ PastLimit → grown_by S OfConstraint c.now.id.0 (cubic_formula S c.now (contact_of parts.now)) (grown_of at.old) ≡ None) }
    ensures few { IfOk result (λ v. length v.items ≤ 9) }
    ensures few_more { OnOk result (HasFewMore at.old at.new) }
{
    let formula = formula(alloc, c, parts)?;
    let rows = at.grow(alloc, RowKind::OfConstraint, c.id.0, &formula)?;
    Ok(rows)
}
