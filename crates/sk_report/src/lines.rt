// The lines of a block.

ghost use Rattle.std.specs.Prelude.{◌≡◌, ◌++◌, OnOk, map, flat_map};
ghost use Rattle.std.specs.Fmt.{decimal, signed_decimal};
ghost use Rattle.sk_num.specs.Scale.{IsScale};
ghost use Rattle.sk_num.specs.Spelling.{quantity_text as quantity_bytes};
ghost use Rattle.sk_report.specs.Block.{param_handle, name_at};
ghost use Rattle.sk_report.specs.ReportText.{handle as handle_bytes, verdict_text, head_line, count_line, bound_line, spaced_handle, held_line, kind_letter, miss_text, suspect_line, name_text, radius_text};

use crate::NoMemory;
use itoa::Buffer;
use sk_expr::RowKind;
use sk_krawczyk::Suspect;
use sk_num::{Grid, handle_text, quantity_text};
use sk_solve::Verdict;
use sk_types::ParamId;

/// Puts a count behind the text.
pub(crate) fn push_count(out: &mut Vec<u8>, count: u128) -> Result<(), NoMemory>
    ensures { OnOk result (out.new.items ≡ out.old.items ++ decimal count) }
{
    out.extend_from_slice(Buffer::new().format(count).as_bytes())?;
    Ok(())
}

fn push_exponent(out: &mut Vec<u8>, exponent: i8) -> Result<(), NoMemory>
    ensures { OnOk result (out.new.items ≡ out.old.items ++ signed_decimal exponent) }
{
    out.extend_from_slice(Buffer::new().format(exponent).as_bytes())?;
    Ok(())
}

// In eight digits.
fn push_handle(out: &mut Vec<u8>, handle: u32) -> Result<(), NoMemory>
    ensures { OnOk result (out.new.items ≡ out.old.items ++ handle_bytes handle) }
{
    out.extend_from_slice(&handle_text(handle))?;
    Ok(())
}

/// Puts a quantity with 20 decimals behind the text.
pub(crate) fn push_quantity<const S: u32>(out: &mut Vec<u8>, value: Grid<S>) -> Result<(), NoMemory>
    requires { IsScale S }
    ensures { OnOk result (out.new.items ≡ out.old.items ++ quantity_bytes S value.entry) }
{
    let text = quantity_text(value);
    out.extend_from_slice(&text.bytes[..usize::from(text.len)])?;
    Ok(())
}

fn verdict_text(verdict: Verdict) -> &'static [u8]
    ensures { result.now ≡ verdict_text verdict }
{
    match verdict {
        Verdict::Certified => b"certified",
        Verdict::Degenerate => b"degenerate",
        Verdict::Range => b"range",
        Verdict::Unsolved => b"unsolved",
    }
}

#[tactic(auto, unfolding(crate::specs::ReportText::head_line))]
pub(crate) fn push_head(out: &mut Vec<u8>, group: u32, verdict: Verdict) -> Result<(), NoMemory>
    ensures { OnOk result (out.new.items ≡ out.old.items ++ head_line group verdict) }
{
    out.extend_from_slice(b"group ")?;
    push_handle(out, group)?;
    out.extend_from_slice(b" ")?;
    out.extend_from_slice(verdict_text(verdict))?;
    out.extend_from_slice(b"\n")?;
    Ok(())
}

#[tactic(auto, unfolding(crate::specs::ReportText::count_line))]
pub(crate) fn push_counts(
    out: &mut Vec<u8>,
    unknowns: usize,
    retained: usize,
    free: usize,
) -> Result<(), NoMemory>
    ensures { OnOk result (out.new.items ≡ out.old.items ++ count_line unknowns retained free) }
{
    out.extend_from_slice(b"unknowns ")?;
    push_count(out, unknowns as u128)?;
    out.extend_from_slice(b" retained ")?;
    push_count(out, retained as u128)?;
    out.extend_from_slice(b" free ")?;
    push_count(out, free as u128)?;
    out.extend_from_slice(b"\n")?;
    Ok(())
}

#[tactic(auto, unfolding(crate::specs::ReportText::bound_line))]
pub(crate) fn push_bound(out: &mut Vec<u8>, bound: u64, spread: u128) -> Result<(), NoMemory>
    ensures { OnOk result (out.new.items ≡ out.old.items ++ bound_line bound spread) }
{
    out.extend_from_slice(b"bound ")?;
    push_count(out, bound.into())?;
    out.extend_from_slice(b" spread ")?;
    push_count(out, spread)?;
    out.extend_from_slice(b"\n")?;
    Ok(())
}

fn push_handles(out: &mut Vec<u8>, params: &[ParamId]) -> Result<(), NoMemory>
    ensures { OnOk result (out.new.items ≡ out.old.items ++ flat_map spaced_handle (map param_handle params.now)) }
{
    for param in params {
        out.extend_from_slice(b" ")?;
        push_handle(out, param.0)?;
    }
    Ok(())
}

#[tactic(auto, unfolding(crate::specs::ReportText::held_line))]
pub(crate) fn push_held(out: &mut Vec<u8>, held: &[ParamId]) -> Result<(), NoMemory>
    ensures { OnOk result (out.new.items ≡ out.old.items ++ held_line (map param_handle held.now)) }
{
    out.extend_from_slice(b"held")?;
    if held.is_empty() {
        out.extend_from_slice(b" none")?;
    } else {
        push_handles(out, held)?;
    }
    out.extend_from_slice(b"\n")?;
    Ok(())
}

fn kind_letter(kind: RowKind) -> &'static [u8]
    ensures { result.now ≡ kind_letter kind }
{
    match kind {
        RowKind::OfEntity => b"e",
        RowKind::OfGroup => b"g",
        RowKind::OfConstraint => b"c",
    }
}

fn miss_text(misses: bool) -> &'static [u8]
    ensures { result.now ≡ miss_text misses }
{
    if misses { b" misses" } else { b" open" }
}

#[tactic(auto, unfolding(crate::specs::ReportText::suspect_line))]
fn push_suspect(out: &mut Vec<u8>, suspect: &Suspect) -> Result<(), NoMemory>
    ensures { OnOk result (out.new.items ≡ out.old.items ++ suspect_line suspect.now) }
{
    out.extend_from_slice(b"suspect ")?;
    out.extend_from_slice(kind_letter(suspect.row.kind))?;
    out.extend_from_slice(b" ")?;
    push_handle(out, suspect.row.handle)?;
    out.extend_from_slice(b" ")?;
    push_count(out, suspect.row.index.into())?;
    out.extend_from_slice(miss_text(suspect.misses))?;
    out.extend_from_slice(b"\n")?;
    Ok(())
}

/// Puts a line for each row without a pivot.
pub(crate) fn push_suspects(out: &mut Vec<u8>, suspects: &[Suspect]) -> Result<(), NoMemory>
    ensures { OnOk result (out.new.items ≡ out.old.items ++ flat_map suspect_line suspects.now) }
{
    for suspect in suspects {
        push_suspect(out, suspect)?;
    }
    Ok(())
}

/// Puts what the unknown of a column is called: the parameters come first, then the auxiliaries.
pub(crate) fn push_name(
    out: &mut Vec<u8>,
    params: &[ParamId],
    column: usize,
) -> Result<(), NoMemory>
    ensures { OnOk result (out.new.items ≡ out.old.items ++ name_text (name_at params.now column)) }
{
    if column < params.len() {
        out.extend_from_slice(b"param ")?;
        push_handle(out, params[column].0)?;
    } else {
        out.extend_from_slice(b"aux ")?;
        push_count(out, (column - params.len()) as u128)?;
    }
    Ok(())
}

/// Puts how far the box reaches in an unknown; nothing where it is held.
pub(crate) fn push_radius(out: &mut Vec<u8>, radius_log: Option<i8>) -> Result<(), NoMemory>
    ensures { OnOk result (out.new.items ≡ out.old.items ++ radius_text radius_log) }
{
    if let Some(log) = radius_log {
        out.extend_from_slice(b" radius 2^")?;
        push_exponent(out, log)?;
    }
    Ok(())
}
