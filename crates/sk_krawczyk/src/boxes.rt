ghost use Rattle.std.specs.List.{All};
ghost use Rattle.std.specs.Prelude.{◌≡◌, ◌≤◌, ◌<◌, ◌-◌, ◌*◌, ◌^◌, pos, length, map, slice_get, get_or, nat_le, unsigned_abs, Some, true, false, MatchResult};
ghost use Rattle.sk_num.specs.Scale.{IsScale};
ghost use Rattle.sk_expr.specs.Visits.{system_of, IsTestable};
ghost use Rattle.sk_expr.specs.declared.fault.VisitFault.TheVariants.{PastLimit, NoMemory};
ghost use Rattle.sk_matrix.specs.Cells.{AreCells, table, number_cell, span_cell};
ghost use Rattle.sk_matrix.specs.Matrix.{mag_or, all_to, row_sums, row_sums_plain};
ghost use Rattle.sk_krawczyk.specs.Box.{square_system, box, slope_over};
ghost use Rattle.sk_krawczyk.specs.IntervalTest.{radius_at, is_computed, conditions, length_columns, newton_steps, over_limit, box_test, unless_none, whole_up, radius_ratio};
ghost use Rattle.sk_krawczyk.specs.Answers.{radius_of_log, IsRadiusLog, IsBasis, plain_basis, IsMet};

use crate::basis::Basis;
use crate::certificate::{Certificate, Suspect};
use crate::lists::lengths;
use crate::over::{are_lengths_positive, over};
use crate::radii::radii;
use crate::rests::{both, is_contracting};
use crate::rows::slopes_over;
use crate::sizes::{bound, spread};
use crate::suspects::suspects_over;
use sk_expr::{VisitFault, Visited};
use sk_num::{Grid, Items, Span, SpanMat};
use std::alloc::Global;

/// A box, the slopes over it, and whether it meets the conditions.
#[derive(Debug, Drop)]
struct Measured<const S: u32> {
    over: Items<Span<S>>,
    slopes: SpanMat<S>,
    is_met: bool,
}

fn is_half<const S: u32>(step: &Span<S>, radius: Grid<S>) -> bool
    ensures { result ≡ nat_le (2 * mag_or (Some step.now)) (unsigned_abs radius.entry) }
{
    2 * step.mag().units().unsigned_abs() <= radius.units().unsigned_abs()
}

fn is_half_at<const S: u32>(step: &Items<Span<S>>, radii: &Items<Grid<S>>, j: usize) -> bool
    requires step_in { j < length step.now }
    requires radii_in { j < length radii.now }
    ensures { result ≡ nat_le (2 * mag_or (slice_get step.now j)) (unsigned_abs (get_or radii.now j (pos 0))) }
{
    is_half(&step.as_slice()[j], radii.as_slice()[j])
}

/// Whether each absolute end of the step is at most half the radius.
fn is_step_small<const S: u32>(step: &Items<Span<S>>, radii: &Items<Grid<S>>) -> bool
    requires { length radii.now ≡ length step.now }
    ensures { result ≡ all_to (length step.now) (λ j. nat_le (2 * mag_or (slice_get step.now j)) (unsigned_abs (get_or radii.now j (pos 0)))) }
{
    let mut is_small = true;
    for j in 0..step.as_slice().len() {
        is_small = both(is_small, is_half_at(step, radii, j));
    }
    is_small
}

/// The box of the radii with the slopes over it, and the conditions.
fn measure<const S: u32>(
    alloc: Global,
    v: &Visited<S>,
    params: u16,
    basis: &Basis<S>,
    step: &Items<Span<S>>,
    radii: &Items<Grid<S>>,
) -> Result<Measured<S>, VisitFault>
    requires scale { IsScale S }
    requires testable { IsTestable params v.now }
    requires basis { IsBasis v.now basis.now }
    requires one_each { length radii.now ≡ length basis.now.solved }
    requires small { All (λ r. unsigned_abs r ≤ 2 ^ (S - 10)) radii.now }
    requires step { newton_steps S (system_of params v.now) (plain_basis basis.now) ≡ Some step.now }
    ensures { let q = square_system (system_of params v.now) (plain_basis basis.now) in
        let sizes = map unsigned_abs radii.now in
        MatchResult result
        (λ m. (is_computed S q (radius_at sizes) ≡ true) × (m.over ≡ box q (radius_at sizes))
        × (m.slopes.rows ≡ q.size) × (m.slopes.cols ≡ q.size) × AreCells (table q.size q.size (slope_over S q (radius_at sizes))) m.slopes.cells
        × (m.is_met ≡ conditions S q sizes (length_columns (system_of params v.now))))
        (λ e. e ≡ PastLimit → is_computed S q (radius_at sizes) ≡ false) }
{
    let over = match over(alloc, &v.unknowns, &basis.solved, radii) {
        Err(e) => return Err(e),
        Ok(over) => over,
    };
    let slopes = match slopes_over(alloc, v, &over, &basis.retained, &basis.solved) {
        Err(e) => return Err(e),
        Ok(slopes) => slopes,
    };
    let contracting = match is_contracting(alloc, &basis.inverse, &slopes, radii) {
        Err(e) => return Err(e),
        Ok(contracting) => contracting,
    };
    let lengths = match lengths(alloc, &v.forced) {
        Err(e) => return Err(e),
        Ok(lengths) => lengths,
    };
    let is_inside = both(is_step_small(step, radii), contracting);
    let are_lengths = are_lengths_positive(&v.unknowns, &basis.solved, radii, &lengths);
    Ok(Measured {
        over,
        slopes,
        is_met: both(is_inside, are_lengths),
    })
}

fn certificate<const S: u32>(
    alloc: Global,
    v: &Visited<S>,
    basis: Basis<S>,
    logs: Items<i8>,
    suspects: Items<Suspect>,
    slopes: &SpanMat<S>,
    radii: &Items<Grid<S>>,
) -> Result<Certificate<S>, VisitFault>
    requires scale { IsScale S }
    requires slopes_size { length slopes.now.cells ≡ slopes.now.rows * slopes.now.cols }
    requires inverse_size { length basis.inverse.cells ≡ basis.inverse.rows * basis.inverse.cols }
    requires positive { All (λ r. 0 < unsigned_abs r) radii.now }
    requires small { All (λ r. unsigned_abs r ≤ 2 ^ (S - 10)) radii.now }
    ensures { MatchResult result
        (λ k. (k.centre ≡ v.now.unknowns) × (k.radius_logs ≡ logs) × (k.held ≡ basis.entry.held) × (k.solved ≡ basis.entry.solved) × (k.retained ≡ basis.entry.retained)
        × (k.suspects ≡ suspects) × (k.inverse ≡ basis.entry.inverse)
        × (k.bound ≡ unless_none slopes.now.rows (4 * whole_up S (row_sums slopes.now.rows slopes.now.cols (span_cell slopes.now.cols slopes.now.cells))))
        × (k.spread ≡ unless_none slopes.now.rows (16 * (whole_up S (row_sums slopes.now.rows slopes.now.cols (span_cell slopes.now.cols slopes.now.cells))
        * whole_up S (row_sums_plain basis.entry.inverse.rows basis.entry.inverse.cols (number_cell basis.entry.inverse.cols basis.entry.inverse.cells)) * radius_ratio (map unsigned_abs radii.now)))))
        (λ e. e ≡ NoMemory) }
{
    let bound = bound(slopes);
    let spread = spread(slopes, &basis.inverse, radii);
    let centre = v.unknowns.copy(alloc)?;
    let Basis {
        held,
        solved,
        retained,
        suspects: _,
        inverse,
    } = basis;
    Ok(Certificate {
        radius_logs: logs,
        bound,
        spread,
        centre,
        held,
        solved,
        retained,
        suspects,
        inverse,
    })
}

/// The test over the box of the radii, once Newton's step is known. PastLimit comes exactly where a number of it passes the
/// limit.
pub(crate) fn box_test<const S: u32>(
    alloc: Global,
    v: &Visited<S>,
    params: u16,
    basis: Basis<S>,
    step: &Items<Span<S>>,
    logs: Items<i8>,
) -> Result<Option<Certificate<S>>, VisitFault>
    requires scale { IsScale S }
    requires testable { IsTestable params v.now }
    requires basis { IsBasis v.now basis }
    requires one_each { length logs ≡ length basis.solved }
    requires logs { All (IsRadiusLog S) logs }
    requires step { newton_steps S (system_of params v.now) (plain_basis basis) ≡ Some step.now }
    ensures { let outcome = box_test S (system_of params v.now) (plain_basis basis.entry) (map (radius_of_log S) logs) in
        MatchResult result (IsMet v.now.rows outcome) (λ e. e ≡ PastLimit → outcome ≡ over_limit) }
{
    let radii = match radii(alloc, &logs) {
        Err(e) => return Err(e),
        Ok(radii) => radii,
    };
    let measured = match measure(alloc, v, params, &basis, step, &radii) {
        Err(e) => return Err(e),
        Ok(measured) => measured,
    };
    if !measured.is_met {
        return Ok(None);
    }
    let suspects = match suspects_over(alloc, v, &measured.over, &basis.suspects) {
        Err(e) => return Err(e),
        Ok(suspects) => suspects,
    };
    match certificate(alloc, v, basis, logs, suspects, &measured.slopes, &radii) {
        Err(e) => Err(e),
        Ok(certificate) => Ok(Some(certificate)),
    }
}
