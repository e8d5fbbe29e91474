ghost use Rattle.std.specs.Prelude.{◌≡◌, length, IfOk, IfSome, MatchResult};
ghost use Rattle.sk_num.specs.Scale.{IsScale};
ghost use Rattle.sk_krawczyk.specs.Answers.{IsTried, IsCertified, StopsAs, IsSoundAt, outcome_at, names_at};

use crate::certificate::Certificate;
use crate::fault::CertFault;
use crate::point::{Tried, try_point};
use sk_expr::{AtPoint, VisitFault};
use sk_num::Grid;
use std::alloc::Global;

/// The certificate of a point that was tried.
fn certificate_of<const S: u32>(tried: Tried<S>) -> Option<Certificate<S>>
    ensures { result ≡ tried.entry.certificate }
{
    tried.certificate
}

/// The interval test of a system at a point: `try_point` of what the system is there. PastLimit comes also where a reading
/// that the system takes there passes the limit. The certificate's centre begins with the point.
pub fn try_at<P: AtPoint<S>, const S: u32>(
    alloc: Global,
    system: &P,
    point: &[Grid<S>],
) -> Result<Tried<S>, CertFault>
    requires scale { IsScale S }
    requires point { length point.now ≡ P.params_of system.now }
    ensures answer { let seen = P.seen_at system.now point.now in
        let outcome = outcome_at S (P.params_of system.now) seen in
        MatchResult result (IsTried (names_at seen) outcome) (StopsAs outcome) }
    ensures sound { IfOk result (λ t. IfSome t.certificate (IsSoundAt (P.params_of system.now) (P.seen_at system.now) point.now)) }
{
    let visited = match system.at(alloc, point) {
        Err(VisitFault::PastLimit) => return Err(CertFault::PastLimit),
        Err(VisitFault::NoMemory) => return Err(CertFault::NoMemory),
        Ok(visited) => visited,
    };
    match try_point(alloc, &visited, system.params()) {
        Err(e) => Err(e),
        Ok(tried) => Ok(tried),
    }
}

/// The certificate of a system at a point, present exactly where the interval test of the system there passes. The faults
/// are those of `try_at`.
pub fn certify<P: AtPoint<S>, const S: u32>(
    alloc: Global,
    system: &P,
    point: &[Grid<S>],
) -> Result<Option<Certificate<S>>, CertFault>
    requires scale { IsScale S }
    requires point { length point.now ≡ P.params_of system.now }
    ensures answer { let seen = P.seen_at system.now point.now in
        let outcome = outcome_at S (P.params_of system.now) seen in
        MatchResult result (IsCertified (names_at seen) outcome) (StopsAs outcome) }
    ensures sound { IfOk result (λ c. IfSome c (IsSoundAt (P.params_of system.now) (P.seen_at system.now) point.now)) }
{
    match try_at(alloc, system, point) {
        Err(e) => Err(e),
        Ok(tried) => Ok(certificate_of(tried)),
    }
}
