ghost use Rattle.std.specs.Prelude.{◌≡◌, IfOk, Some, None};
ghost use Rattle.sk_solve.specs.declared.result.Verdict.TheVariants as verdicts;

use crate::NoMemory;
use sk_krawczyk::Certificate;
use sk_num::{Grid, Items};
use std::alloc::Global;

/// How a group comes out.
#[derive(Clone, Copy, Debug, PartialEq, Eq)]
pub enum Verdict {
    /// The interval test passes at the kept point.
    Certified,
    /// A forced pivot is flat: a length or the like is too near 0.
    Degenerate,
    /// A number passes the limit.
    Range,
    /// The test passes at none of 41 points.
    Unsolved,
}

/// How a group comes out, and the point that it keeps.
#[derive(Debug, Drop)]
pub struct GroupResult<const S: u32> {
    /// The verdict.
    pub verdict: Verdict,
    /// The kept point: a number for each parameter. It is the start for every verdict but certified.
    pub point: Items<Grid<S>>,
    /// The certificate, present exactly for certified.
    pub certificate: Option<Certificate<S>>,
}

impl<const S: u32> GroupResult<S> {
    /// An equal result in memory of its own.
    pub fn copy(&self, alloc: Global) -> Result<GroupResult<S>, NoMemory>
        ensures { IfOk result (λ g. g ≡ self.now) }
    {
        let certificate = match &self.certificate {
            Some(certificate) => Some(certificate.copy(alloc)?),
            None => None,
        };
        Ok(GroupResult {
            verdict: self.verdict,
            point: self.point.copy(alloc)?,
            certificate,
        })
    }

    /// The start is kept, without a certificate.
    pub(crate) fn stayed(
        alloc: Global,
        verdict: Verdict,
        start: &[Grid<S>],
    ) -> Result<GroupResult<S>, NoMemory>
        ensures { IfOk result (λ g. g ≡ record { verdict = verdict; point = start.now; certificate = None }) }
    {
        Ok(GroupResult {
            verdict,
            point: Items::of(Vec::from_slice(alloc, start)?),
            certificate: None,
        })
    }

    /// A point is kept, with its certificate.
    pub(crate) fn certified(point: Vec<Grid<S>>, certificate: Certificate<S>) -> GroupResult<S>
        ensures { result ≡ record { verdict = verdicts.Certified; point = point.entry.items; certificate = Some certificate.entry } }
    {
        GroupResult {
            verdict: Verdict::Certified,
            point: Items::of(point),
            certificate: Some(certificate),
        }
    }
}
