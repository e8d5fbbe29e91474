ghost use Rattle.std.specs.Prelude.{◌≡◌, ◌≤◌, ℕ, List, length, map, true, IfOk, IfSome, Some, Result, Ok, Err, MatchResult};
ghost use Rattle.sk_num.specs.Ends.{Ends, point, mid};
ghost use Rattle.sk_num.specs.Each.{each_some};
ghost use Rattle.sk_num.specs.Scale.{IsScale};
ghost use Rattle.sk_expr.specs.Visits.{system_of, IsTestable};
ghost use Rattle.sk_expr.specs.declared.fault.VisitFault.TheVariants.{PastLimit, NoMemory as VisitNoMemory};
ghost use Rattle.sk_elim.specs.Elimination.{Halt, past_limit, Elimination, eliminate};
ghost use Rattle.sk_elim.specs.Faults.{HaltsAs};
ghost use Rattle.sk_elim.specs.Result.{IsElimination};
ghost use Rattle.sk_elim.specs.PartLaws.{HasParts};
ghost use Rattle.sk_krawczyk.specs.Box.{basis_of, radius_of};
ghost use Rattle.sk_krawczyk.specs.IntervalTest.{Outcome, stops, over_limit, slopes_at, forced_pairs, newton_steps, are_near, box_test, step_test, interval_test};
ghost use Rattle.sk_krawczyk.specs.Answers.{IsTried, StopsAs, IsTested, IsOfPass, IsBasis, plain_basis};
ghost use Rattle.sk_krawczyk.specs.declared.fault.CertFault.TheVariants.{NoMemory};

use crate::basis::Basis;
use crate::boxes::box_test;
use crate::certificate::Certificate;
use crate::fault::CertFault;
use crate::lists::{below, count, pairs, points};
use crate::newton::newton_step;
use crate::radii::{are_near, radius_logs};
use crate::rows::slopes_over;
use sk_elim::{Elim, ElimFault, eliminate, retained_rows, solved_columns};
use sk_expr::{VisitFault, Visited};
use sk_num::{Grid, Items, Span};
use std::alloc::Global;

/// What a point gives: Newton's step in the solved columns, and the certificate where the test passes.
#[derive(Debug, Drop)]
pub struct Tried<const S: u32> {
    /// The solved columns.
    pub solved: Items<u16>,
    /// The midpoint of Newton's step in each of them: what it takes from the unknown.
    pub step: Items<Grid<S>>,
    /// The certificate.
    pub certificate: Option<Certificate<S>>,
}

/// The fault of a system as one of the test.
fn fault_of(fault: VisitFault) -> CertFault
    ensures { (o : Outcome) → (fault ≡ PastLimit → o ≡ stops past_limit) → StopsAs o result }
{
    match fault {
        VisitFault::PastLimit => CertFault::PastLimit,
        VisitFault::NoMemory => CertFault::NoMemory,
    }
}

/// The fault of an elimination as one of the test.
fn fault_of_elimination(fault: ElimFault) -> CertFault
    ensures { (r : Result Elimination Halt) (o : Outcome) → HaltsAs r fault → ((h : Halt) → r ≡ Err h → o ≡ stops h) → StopsAs o result }
{
    match fault {
        ElimFault::Flat(row) => CertFault::Flat(row),
        ElimFault::PastLimit => CertFault::PastLimit,
        ElimFault::NoMemory => CertFault::NoMemory,
    }
}

/// The slopes at the point, and their elimination.
fn eliminated<const S: u32>(
    alloc: Global,
    v: &Visited<S>,
    params: u16,
    points: &Items<Span<S>>,
) -> Result<Elim<S>, CertFault>
    requires scale { IsScale S }
    requires testable { IsTestable params v.now }
    requires points { points.now ≡ map point v.now.unknowns }
    ensures { let system = system_of params v.now in
        MatchResult result
        (λ e. (slopes : List (List Ends)) × (o : Elimination) × (each_some (slopes_at S system) system.rows ≡ Some slopes)
        × (eliminate S (length system.unknowns) params (forced_pairs system) slopes ≡ Ok o) × IsElimination S e o)
        (StopsAs (interval_test S system)) }
{
    let rows = match below(alloc, count(&v.rows)) {
        Err(e) => return Err(fault_of(e)),
        Ok(rows) => rows,
    };
    let columns = match below(alloc, count(&v.unknowns)) {
        Err(e) => return Err(fault_of(e)),
        Ok(columns) => columns,
    };
    let slopes = match slopes_over(alloc, v, points, &rows, &columns) {
        Err(e) => return Err(fault_of(e)),
        Ok(slopes) => slopes,
    };
    let forced = match pairs(alloc, &v.forced) {
        Err(e) => return Err(fault_of(e)),
        Ok(forced) => forced,
    };
    match eliminate(alloc, &slopes, forced.as_slice(), params) {
        Err(e) => Err(fault_of_elimination(e)),
        Ok(elim) => Ok(elim),
    }
}

/// Columns, rows and inverse of an elimination.
fn basis_of<const S: u32>(
    alloc: Global,
    v: &Visited<S>,
    elimination: Elim<S>,
) -> Result<Basis<S>, CertFault>
    requires few_columns { length v.now.unknowns ≤ 65535 }
    requires few_rows { length v.now.rows ≤ 65535 }
    ensures { MatchResult result
        (λ b. (b.inverse ≡ elimination.entry.inverse)
        × ((params : ℕ) (o : Elimination) → HasParts (length v.now.unknowns) params (length v.now.rows) o → IsElimination S elimination.entry o → plain_basis b ≡ basis_of o))
        (λ e. e ≡ NoMemory) }
{
    let columns = count(&v.unknowns);
    let Ok(solved) = solved_columns(alloc, columns, elimination.pivots.as_slice()) else {
        return Err(CertFault::NoMemory);
    };
    let rows = count(&v.rows);
    let Ok(retained) = retained_rows(alloc, rows, elimination.pivots.as_slice()) else {
        return Err(CertFault::NoMemory);
    };
    let Elim {
        pivots: _,
        held,
        suspects,
        inverse,
    } = elimination;
    Ok(Basis {
        held,
        solved: Items::of(solved),
        retained: Items::of(retained),
        suspects,
        inverse,
    })
}

/// The midpoints of the step.
fn middles<const S: u32>(alloc: Global, step: &Items<Span<S>>) -> Result<Items<Grid<S>>, VisitFault>
    ensures { MatchResult result (λ xs. xs ≡ map mid step.now) (λ e. e ≡ VisitNoMemory) }
{
    let mut list = Vec::new(alloc);
    for span in step.as_slice() {
        list.push(span.mid())?;
    }
    Ok(Items::of(list))
}

/// The test over the box of the least radii, where they aren't too large.
fn certified<const S: u32>(
    alloc: Global,
    v: &Visited<S>,
    params: u16,
    basis: Basis<S>,
    step: &Items<Span<S>>,
) -> Result<Option<Certificate<S>>, VisitFault>
    requires scale { IsScale S }
    requires testable { IsTestable params v.now }
    requires basis { IsBasis v.now basis }
    requires step { newton_steps S (system_of params v.now) (plain_basis basis) ≡ Some step.now }
    ensures { let radii = map radius_of step.now in
        let outcome = box_test S (system_of params v.now) (plain_basis basis.entry) radii in
        MatchResult result
        (IsTested (are_near S radii) v.now.rows outcome)
        (λ e. e ≡ PastLimit → (are_near S radii ≡ true) × (outcome ≡ over_limit)) }
{
    if !are_near(step) {
        return Ok(None);
    }
    let logs = match radius_logs(alloc, step) {
        Err(e) => return Err(e),
        Ok(logs) => logs,
    };
    match box_test(alloc, v, params, basis, step, logs) {
        Err(e) => Err(e),
        Ok(certificate) => Ok(certificate),
    }
}

/// What follows an elimination: Newton's step, and the test over the box.
fn test_basis<const S: u32>(
    alloc: Global,
    v: &Visited<S>,
    params: u16,
    points: &Items<Span<S>>,
    basis: Basis<S>,
) -> Result<Tried<S>, VisitFault>
    requires scale { IsScale S }
    requires testable { IsTestable params v.now }
    requires points { points.now ≡ map point v.now.unknowns }
    requires basis { IsBasis v.now basis }
    ensures { let system = system_of params v.now in
        let outcome = step_test S system (plain_basis basis.entry) (newton_steps S system (plain_basis basis.entry)) in
        MatchResult result (IsTried v.now.rows outcome) (λ e. e ≡ PastLimit → outcome ≡ stops past_limit) }
{
    let step = match newton_step(alloc, v, points, &basis.retained, &basis.inverse) {
        Err(e) => return Err(e),
        Ok(step) => step,
    };
    let moves = match middles(alloc, &step.cells) {
        Err(e) => return Err(e),
        Ok(moves) => moves,
    };
    let solved = basis.solved.copy(alloc)?;
    match certified(alloc, v, params, basis, &step.cells) {
        Err(e) => Err(e),
        Ok(certificate) => Ok(Tried {
            solved,
            step: moves,
            certificate,
        }),
    }
}

/// The interval test of a system at a point: elimination of the slopes there, Newton's step, the box of the least radii,
/// and the conditions over it. The certificate is present exactly where the test passes; it is whole, and its box is sound.
/// Flat comes exactly where a forced pivot is flat, PastLimit exactly where a number passes the limit, whichever is met
/// first.
pub fn try_point<const S: u32>(
    alloc: Global,
    v: &Visited<S>,
    params: u16,
) -> Result<Tried<S>, CertFault>
    requires scale { IsScale S }
    requires testable { IsTestable params v.now }
    ensures answer { let outcome = interval_test S (system_of params v.now) in
        MatchResult result (IsTried v.now.rows outcome) (StopsAs outcome) }
    ensures sound { IfOk result (λ t. IfSome t.certificate (IsOfPass v.now.rows (system_of params v.now))) }
{
    let points = match points(alloc, &v.unknowns) {
        Err(e) => return Err(fault_of(e)),
        Ok(points) => points,
    };
    let elim = match eliminated(alloc, v, params, &points) {
        Err(e) => return Err(e),
        Ok(elim) => elim,
    };
    let basis = match basis_of(alloc, v, elim) {
        Err(e) => return Err(e),
        Ok(basis) => basis,
    };
    match test_basis(alloc, v, params, &points, basis) {
        Err(e) => Err(fault_of(e)),
        Ok(tried) => Ok(tried),
    }
}
