// The block of a listed group.

ghost use Rattle.std.specs.Prelude.{◌≡◌, ◌++◌, OnOk, OnErr, IfOk, flat_map, slice_get};
ghost use Rattle.sk_num.specs.Scale.{IsScale};
ghost use Rattle.sk_report.specs.Block.{radius_log_at, coordinate, coordinates, params_in, printed_box};
ghost use Rattle.sk_report.specs.ReportText.{coordinate_line, box_text, group_text as block_bytes};

use crate::NoMemory;
use crate::lines::{
    push_bound, push_counts, push_head, push_held, push_name, push_quantity, push_radius,
    push_suspects,
};
use sk_krawczyk::Certificate;
use sk_num::Grid;
use sk_solve::Listed;
use sk_types::ParamId;
use std::alloc::Global;

/// How far the box reaches in a column, as a logarithm; nothing in a held one.
fn radius_log(solved: &[u16], logs: &[i8], column: usize) -> Option<i8>
    ensures { result ≡ radius_log_at solved.now logs.now column }
{
    let mut log = None;
    for place in 0..solved.len() {
        if usize::from(solved[place]) == column {
            log = logs.get(place).copied();
        }
    }
    log
}

/// Puts the line of a column.
#[tactic(auto, unfolding(crate::specs::ReportText::coordinate_line))]
fn push_coordinate<const S: u32>(
    out: &mut Vec<u8>,
    params: &[ParamId],
    certificate: &Certificate<S>,
    column: usize,
    value: Grid<S>,
) -> Result<(), NoMemory>
    requires { IsScale S }
    ensures { OnOk result (out.new.items ≡ out.old.items ++ coordinate_line (coordinate params.now certificate.now (column, value.entry))) }
{
    let solved = certificate.solved.as_slice();
    let logs = certificate.radius_logs.as_slice();
    push_name(out, params, column)?;
    out.extend_from_slice(b" ")?;
    push_quantity(out, value)?;
    push_radius(out, radius_log(solved, logs, column))?;
    out.extend_from_slice(b"\n")?;
    Ok(())
}

/// Puts a line for each unknown.
fn push_coordinates<const S: u32>(
    out: &mut Vec<u8>,
    params: &[ParamId],
    certificate: &Certificate<S>,
) -> Result<(), NoMemory>
    requires { IsScale S }
    ensures { OnOk result (out.new.items ≡ out.old.items ++ flat_map coordinate_line (coordinates params.now certificate.now 0 certificate.now.centre)) }
{
    let centre = certificate.centre.as_slice();
    for column in 0..centre.len() {
        push_coordinate(out, params, certificate, column, centre[column])?;
    }
    Ok(())
}

fn param_at(params: &[ParamId], column: u16) -> Option<ParamId>
    ensures { result ≡ slice_get params.now column }
{
    params.get(usize::from(column)).copied()
}

/// The parameters in these columns.
fn params_in(alloc: Global, params: &[ParamId], columns: &[u16]) -> Result<Vec<ParamId>, NoMemory>
    ensures { IfOk result (λ v. v.items ≡ params_in params.now columns.now) }
{
    let mut list = Vec::new(alloc);
    for column in columns {
        if let Some(param) = param_at(params, *column) {
            list.push(param)?;
        }
    }
    Ok(list)
}

/// Puts the box of a certified group.
#[tactic(auto, unfolding(crate::specs::ReportText::box_text, crate::specs::Block::printed_box))]
fn push_box<const S: u32>(
    alloc: Global,
    out: &mut Vec<u8>,
    params: &[ParamId],
    certificate: &Certificate<S>,
) -> Result<(), NoMemory>
    requires { IsScale S }
    ensures { OnOk result (out.new.items ≡ out.old.items ++ box_text (printed_box params.now certificate.now)) }
{
    let held = params_in(alloc, params, certificate.held.as_slice())?;
    let unknowns = certificate.centre.as_slice().len();
    let retained = certificate.retained.as_slice().len();
    push_counts(out, unknowns, retained, held.len())?;
    push_bound(out, certificate.bound, certificate.spread)?;
    push_held(out, &held)?;
    push_suspects(out, certificate.suspects.as_slice())?;
    push_coordinates(out, params, certificate)?;
    Ok(())
}

/// The block of a listed group.
#[tactic(auto, unfolding(crate::specs::ReportText::group_text))]
fn block<const S: u32>(alloc: Global, listed: &Listed<S>) -> Result<Vec<u8>, NoMemory>
    requires { IsScale S }
    ensures { IfOk result (λ t. t.items ≡ block_bytes listed.now) }
{
    let mut out = Vec::new(alloc);
    push_head(&mut out, listed.group.0, listed.result.verdict)?;
    if let Some(certificate) = &listed.result.certificate {
        push_box(alloc, &mut out, listed.params.as_slice(), certificate)?;
    }
    Ok(out)
}

/// Appends the block of a listed group: its verdict and, where it is certified, how many unknowns, retained rows and held
/// parameters it has, bound and spread, the held parameters, the rows without a pivot, and every unknown at the centre of the box
/// with the radius of each that is solved. Millimetres with 20 decimals; handles in eight digits.
///
/// At an `Err` nothing is appended.
pub fn group_text<const S: u32>(
    alloc: Global,
    listed: &Listed<S>,
    out: &mut Vec<u8>,
) -> Result<(), NoMemory>
    requires scale { IsScale S }
    ensures ok { OnOk result (out.new.items ≡ out.old.items ++ block_bytes listed.now) }
    ensures err { OnErr result (out.new.items ≡ out.old.items) }
{
    let text = block(alloc, listed)?;
    out.extend_from_slice(&text)?;
    Ok(())
}
