ghost use Rattle.std.specs.Prelude.{◌≡◌, ◌+◌, ℤ, List, length, IfOk, IfSome, Some};
ghost use Rattle.sk_num.specs.Scale.{IsScale};
ghost use Rattle.sk_krawczyk.specs.Answers.{IsSoundAt, outcome_at, names_at};
ghost use Rattle.sk_solve.specs.Search.{searched, verdict_over};
ghost use Rattle.sk_solve.specs.Held.{result_by};
ghost use Rattle.sk_solve.specs.Results.{IsFound, ResultProved, Decides};

use crate::NoMemory;
use crate::moving::step_back;
use crate::result::{GroupResult, Verdict};
use crate::visit::{Visit, tried_at};
use sk_count::Steps;
use sk_expr::AtPoint;
use sk_num::{Grid, PastLimit};
use std::alloc::Global;
use std::sync::ledger::Ledger;

// How many points are visited behind the first.
const FURTHER: u8 = 40;

/// What a point decides: how the group comes out, or the next point, which then stands in its place.
fn decide<P: AtPoint<S>, const S: u32>(
    alloc: Global,
    system: &P,
    start: &[Grid<S>],
    point: &mut Vec<Grid<S>>,
) -> Result<Option<GroupResult<S>>, NoMemory>
    requires scale { IsScale S }
    requires point { length point.old.items ≡ P.params_of system.now }
    ensures decides { IfOk result (Decides (λ (x : List ℤ). outcome_at S (P.params_of system.now) (P.seen_at system.now x)) (λ x. names_at (P.seen_at system.now x)) start.now point.old.items point.new.items) }
    ensures proved { IfOk result (λ o. IfSome o (ResultProved (P.params_of system.now) (P.seen_at system.now))) }
    ensures size { length point.new.items ≡ length point.old.items }
{
    match tried_at(alloc, system, point)? {
        Visit::Stops(verdict) => Ok(Some(GroupResult::stayed(alloc, verdict, start)?)),
        Visit::Fails(solved, step) => match step_back(point, solved.as_slice(), step.as_slice()) {
            Ok(()) => Ok(None),
            Err(PastLimit) => Ok(Some(GroupResult::stayed(alloc, Verdict::Range, start)?)),
        },
        Visit::Passes(certificate) => {
            let kept = Vec::from_slice(alloc, point)?;
            Ok(Some(GroupResult::certified(kept, certificate)))
        }
    }
}

/// What the last point decides.
fn decide_last<P: AtPoint<S>, const S: u32>(
    alloc: Global,
    system: &P,
    start: &[Grid<S>],
    point: Vec<Grid<S>>,
) -> Result<GroupResult<S>, NoMemory>
    requires scale { IsScale S }
    requires point { length point.items ≡ P.params_of system.now }
    ensures found { IfOk result (IsFound (λ x. names_at (P.seen_at system.now x)) (searched 0 (λ x. outcome_at S (P.params_of system.now) (P.seen_at system.now x)) start.now point.entry.items)) }
    ensures proved { IfOk result (ResultProved (P.params_of system.now) (P.seen_at system.now)) }
{
    match tried_at(alloc, system, &point)? {
        Visit::Stops(verdict) => GroupResult::stayed(alloc, verdict, start),
        Visit::Fails(_, _) => GroupResult::stayed(alloc, Verdict::Unsolved, start),
        Visit::Passes(certificate) => Ok(GroupResult::certified(point, certificate)),
    }
}

/// The first of 41 points at which the test passes.
fn search<P: AtPoint<S>, const S: u32>(
    alloc: Global,
    system: &P,
    start: &[Grid<S>],
) -> Result<GroupResult<S>, NoMemory>
    requires scale { IsScale S }
    requires point { length start.now ≡ P.params_of system.now }
    ensures found { IfOk result (IsFound (λ x. names_at (P.seen_at system.now x)) (verdict_over S (P.params_of system.now) (P.seen_at system.now) start.now)) }
    ensures proved { IfOk result (ResultProved (P.params_of system.now) (P.seen_at system.now)) }
{
    let mut point = Vec::from_slice(alloc, start)?;
    for further in 0..FURTHER {
        match decide(alloc, system, start, &mut point)? {
            Some(found) => return Ok(found),
            None => {}
        }
    }
    decide_last(alloc, system, start, point)
}

/// Solves a group from its stored point: of at most 41 points, each the last one less Newton's step in the solved
/// parameters, the first at which the interval test passes is kept. Where none passes, or a number passes the limit, or a
/// forced pivot is flat, the start is kept, and the verdict says which. It counts one step, whatever it answers.
pub fn solve_group<P: AtPoint<S>, L: Ledger, const S: u32>(
    alloc: Global,
    system: &P,
    start: &[Grid<S>],
    steps: &mut Steps<L>,
) -> Result<GroupResult<S>, NoMemory>
    requires scale { IsScale S }
    requires point { length start.now ≡ P.params_of system.now }
    ensures answer { IfOk result (IsFound (λ x. names_at (P.seen_at system.now x)) (verdict_over S (P.params_of system.now) (P.seen_at system.now) start.now)) }
    ensures held { IfOk result (λ g. g ≡ result_by (λ x. names_at (P.seen_at system.now x)) (verdict_over S (P.params_of system.now) (P.seen_at system.now) start.now)) }
    ensures sound { IfOk result (λ g. IfSome g.certificate (IsSoundAt (P.params_of system.now) (P.seen_at system.now) g.point)) }
    ensures steps { steps.new ≡ steps.old + 1 }
{
    steps.tick();
    search(alloc, system, start)
}
