ghost use Rattle.std.specs.Prelude.{◌≡◌, ◌≤◌, ◌-◌, length, map, IfOk, IfSome, MatchResult};
ghost use Rattle.sk_num.specs.Scale.{IsScale};
ghost use Rattle.sk_expr.specs.Visits.{system_of, IsTestable};
ghost use Rattle.sk_expr.specs.declared.fault.VisitFault.TheVariants.{PastLimit, NoMemory as VisitNoMemory};
ghost use Rattle.sk_krawczyk.specs.IntervalTest.{box_test, over_limit};
ghost use Rattle.sk_krawczyk.specs.Answers.{radius_of_log, IsMet, IsPresent, IsSound, IsGiven, given_basis, plain_basis};

use crate::NoMemory;
use crate::basis::Basis;
use crate::boxes::box_test;
use crate::certificate::{Certificate, Given};
use crate::lists::{count, others, points};
use crate::newton::newton_step;
use sk_expr::{VisitFault, Visited};
use std::alloc::Global;

fn basis_of<const S: u32>(
    alloc: Global,
    v: &Visited<S>,
    params: u16,
    given: &Given<S>,
) -> Result<Basis<S>, VisitFault>
    requires { length v.now.rows ≤ 65535 }
    ensures { MatchResult result
        (λ b. (plain_basis b ≡ given_basis params v.now given.now) × (b.inverse ≡ given.now.inverse))
        (λ e. e ≡ VisitNoMemory) }
{
    let held = match others(alloc, params, &given.solved) {
        Err(e) => return Err(e),
        Ok(held) => held,
    };
    let rows = count(&v.rows);
    let suspects = match others(alloc, rows, &given.retained) {
        Err(e) => return Err(e),
        Ok(suspects) => suspects,
    };
    Ok(Basis {
        held,
        solved: given.solved.copy(alloc)?,
        retained: given.retained.copy(alloc)?,
        suspects,
        inverse: given.inverse.copy(alloc)?,
    })
}

fn tested<const S: u32>(
    alloc: Global,
    v: &Visited<S>,
    params: u16,
    given: &Given<S>,
) -> Result<Option<Certificate<S>>, VisitFault>
    requires scale { IsScale S }
    requires testable { IsTestable params v.now }
    requires given { IsGiven v.now given.now }
    ensures { let outcome = box_test S (system_of params v.now) (given_basis params v.now given.now) (map (radius_of_log S) given.now.radius_logs) in
        MatchResult result (IsMet v.now.rows outcome) (λ e. e ≡ PastLimit → outcome ≡ over_limit) }
{
    let basis = match basis_of(alloc, v, params, given) {
        Err(e) => return Err(e),
        Ok(basis) => basis,
    };
    let points = match points(alloc, &v.unknowns) {
        Err(e) => return Err(e),
        Ok(points) => points,
    };
    let step = match newton_step(alloc, v, &points, &basis.retained, &basis.inverse) {
        Err(e) => return Err(e),
        Ok(step) => step,
    };
    let logs = given.radius_logs.copy(alloc)?;
    match box_test(alloc, v, params, basis, &step.cells, logs) {
        Err(e) => Err(e),
        Ok(certificate) => Ok(certificate),
    }
}

/// The test over the box of given radii with a given inverse, without elimination: the certificate is present exactly where
/// no number of the test passes the limit and the five conditions hold. Rows that aren't retained are suspects.
pub fn test_box<const S: u32>(
    alloc: Global,
    v: &Visited<S>,
    given: &Given<S>,
) -> Result<Option<Certificate<S>>, NoMemory>
    requires scale { IsScale S }
    requires testable { IsTestable (length v.now.unknowns - length v.now.forced) v.now }
    requires given { IsGiven v.now given.now }
    ensures answer { let params = length v.now.unknowns - length v.now.forced in
        let outcome = box_test S (system_of params v.now) (given_basis params v.now given.now) (map (radius_of_log S) given.now.radius_logs) in
        IfOk result (IsPresent v.now.rows outcome) }
    ensures sound { IfOk result (λ o. IfSome o (IsSound v.now.rows (system_of (length v.now.unknowns - length v.now.forced) v.now))) }
{
    let params = count(&v.unknowns) - count(&v.forced);
    match tested(alloc, v, params, given) {
        Err(VisitFault::PastLimit) => Ok(None),
        Err(VisitFault::NoMemory) => Err(NoMemory),
        Ok(certificate) => Ok(certificate),
    }
}
