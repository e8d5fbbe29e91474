// One point of a search.
ghost use Rattle.std.specs.Prelude.{◌≡◌, length, IfOk};
ghost use Rattle.sk_num.specs.Scale.{IsScale};
ghost use Rattle.sk_krawczyk.specs.Answers.{outcome_at, names_at};
ghost use Rattle.sk_solve.specs.Results.{IsVisit, VisitProved};

use crate::NoMemory;
use crate::result::Verdict;
use sk_expr::AtPoint;
use sk_krawczyk::{CertFault, Certificate, Tried, try_at};
use sk_num::{Grid, Items};
use std::alloc::Global;

/// What a visited point gives. No call takes or gives it: contracts name it.
#[derive(Debug, Drop)]
pub enum Visit<const S: u32> {
    /// The search stops here, uncertified.
    Stops(Verdict),
    /// The test fails: the solved columns, and what Newton's step takes from each.
    Fails(Items<u16>, Items<Grid<S>>),
    /// The test passes.
    Passes(Certificate<S>),
}

/// Tests the system at a point.
pub(crate) fn tried_at<P: AtPoint<S>, const S: u32>(
    alloc: Global,
    system: &P,
    point: &[Grid<S>],
) -> Result<Visit<S>, NoMemory>
    requires scale { IsScale S }
    requires point { length point.now ≡ P.params_of system.now }
    ensures outcome { let seen = P.seen_at system.now point.now in
        IfOk result (IsVisit (names_at seen) (outcome_at S (P.params_of system.now) seen)) }
    ensures proved { IfOk result (VisitProved (P.params_of system.now) (P.seen_at system.now) point.now) }
{
    match try_at(alloc, system, point) {
        Err(CertFault::NoMemory) => Err(NoMemory),
        Err(CertFault::Flat(_)) => Ok(Visit::Stops(Verdict::Degenerate)),
        Err(CertFault::PastLimit) => Ok(Visit::Stops(Verdict::Range)),
        Ok(
            Tried {
                solved,
                step,
                certificate,
            },
        ) => match certificate {
            Some(certificate) => Ok(Visit::Passes(certificate)),
            None => Ok(Visit::Fails(solved, step)),
        },
    }
}
