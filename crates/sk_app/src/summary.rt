// The line that tells how a made model came out.
ghost use Rattle.std.specs.Prelude.{◌≡◌, ◌++◌, ◌<◌, codes, OnOk, IfOk};
ghost use Rattle.std.specs.Fmt.{decimal};
ghost use Rattle.std.specs.List.{count_by};
ghost use Rattle.sk_report.specs.ReportText.{is_certified as is_certified_by};
ghost use Rattle.sk_app.specs.Lent.{size_in};
ghost use Rattle.sk_app.specs.Summary.{in_all as sum_of, of_certificate, made_line as summary};

use crate::NoMemory;
use crate::fault_text::push_count;
use sk_solve::{Listed, Verdict};
use std::alloc::Global;

/// What is summed over the certified groups.
#[derive(Clone, Copy)]
pub(crate) enum Size {
    /// Parameters and auxiliaries.
    Unknowns,
    /// Rows with a pivot.
    Retained,
    /// Held parameters.
    Held,
}

fn size_of<const S: u32>(listed: &Listed<S>, size: Size) -> usize
    ensures { result ≡ of_certificate (size_in size) listed.now.result.certificate }
{
    let Some(certificate) = &listed.result.certificate else {
        return 0;
    };
    match size {
        Size::Unknowns => certificate.centre.as_slice().len(),
        Size::Retained => certificate.retained.as_slice().len(),
        Size::Held => certificate.held.as_slice().len(),
    }
}

fn in_all<const S: u32>(groups: &[Listed<S>], size: Size) -> u128
    ensures { result ≡ sum_of (size_in size) groups.now }
{
    let mut sum: u128 = 0;
    for listed in groups {
        sum += size_of(listed, size) as u128;
    }
    sum
}

pub(crate) fn is_certified(verdict: Verdict) -> bool
    ensures { result ≡ is_certified_by verdict }
{
    matches!(verdict, Verdict::Certified)
}

fn certified_among<const S: u32>(groups: &[Listed<S>]) -> usize
    ensures { result ≡ count_by (λ l. is_certified_by l.result.verdict) groups.now }
{
    let mut certified = 0;
    for listed in groups {
        if is_certified(listed.result.verdict) {
            certified += 1;
        }
    }
    certified
}

// Puts a word with a count behind it.
fn push_counted(out: &mut Vec<u8>, word: &[u8], count: u128) -> Result<(), NoMemory>
    ensures { OnOk result (out.new.items ≡ out.old.items ++ (word.now ++ decimal count)) }
{
    out.extend_from_slice(word)?;
    push_count(out, count)
}

/// The line on a made model of so many lines.
#[tactic(auto, unfolding(crate::specs::Summary::made_line))]
pub(crate) fn made_line<const S: u32>(
    alloc: Global,
    lines: u8,
    groups: &[Listed<S>],
) -> Result<Vec<u8>, NoMemory>
    ensures { IfOk result (λ t. t.items ≡ summary lines groups.now) }
{
    let mut out = Vec::new(alloc);
    push_counted(&mut out, b"made ", lines.into())?;
    push_counted(&mut out, b" groups ", groups.len() as u128)?;
    push_counted(&mut out, b" certified ", certified_among(groups) as u128)?;
    push_counted(&mut out, b" unknowns ", in_all(groups, Size::Unknowns))?;
    push_counted(&mut out, b" retained ", in_all(groups, Size::Retained))?;
    push_counted(&mut out, b" free ", in_all(groups, Size::Held))?;
    out.extend_from_slice(b"\n")?;
    Ok(out)
}
