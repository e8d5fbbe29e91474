// The last line of a report.

ghost use Rattle.std.specs.Prelude.{◌≡◌, ◌++◌, OnOk, OnErr, IfOk};
ghost use Rattle.std.specs.List.{count_by};
ghost use Rattle.sk_report.specs.ReportText.{is_certified, last_line as last_bytes};

use crate::NoMemory;
use crate::lines::push_count;
use sk_solve::{Listed, Report, Verdict};
use std::alloc::Global;

fn is_certified(verdict: Verdict) -> bool
    ensures { result ≡ is_certified verdict }
{
    matches!(verdict, Verdict::Certified)
}

/// How many of the groups are certified.
fn certified_among<const S: u32>(groups: &[Listed<S>]) -> usize
    ensures { result ≡ count_by (λ l. is_certified l.result.verdict) groups.now }
{
    let mut certified = 0;
    for listed in groups {
        if is_certified(listed.result.verdict) {
            certified += 1;
        }
    }
    certified
}

#[tactic(auto, unfolding(crate::specs::ReportText::last_line))]
fn line<const S: u32>(alloc: Global, report: &Report<S>) -> Result<Vec<u8>, NoMemory>
    ensures { IfOk result (λ t. t.items ≡ last_bytes report.now) }
{
    let groups = report.groups.as_slice();
    let mut out = Vec::from_slice(alloc, b"certified ")?;
    push_count(&mut out, certified_among(groups) as u128)?;
    out.extend_from_slice(b" of ")?;
    push_count(&mut out, groups.len() as u128)?;
    out.extend_from_slice(b"\n")?;
    Ok(out)
}

/// Appends the last line of a report: how many of the listed groups are certified. At an `Err` nothing is appended.
pub fn last_line<const S: u32>(
    alloc: Global,
    report: &Report<S>,
    out: &mut Vec<u8>,
) -> Result<(), NoMemory>
    ensures ok { OnOk result (out.new.items ≡ out.old.items ++ last_bytes report.now) }
    ensures err { OnErr result (out.new.items ≡ out.old.items) }
{
    let text = line(alloc, report)?;
    out.extend_from_slice(&text)?;
    Ok(())
}
