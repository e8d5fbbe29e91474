// What a command does with a model that is opened and regenerated.
ghost use Rattle.std.specs.Prelude.{◌≡◌, map, Ok, Some, None, IfOk, codes};
ghost use Rattle.std.specs.Option.{option_map};
ghost use Rattle.sk_num.specs.Scale.{IsScale};
ghost use Rattle.sk_records.specs.Written.{bytes_of};
ghost use Rattle.sk_dxf.specs.Drawing.{drawing};
ghost use Rattle.sk_report.specs.ReportText.{group_text as block_text, last_line as last_text};
ghost use Rattle.sk_app.specs.Answer.{report_pieces as pieces_of, are_certified as are_all_certified, answered, done_status, drawn as drawn_work, reported as reported_work, work_for};
ghost use Rattle.sk_app.specs.Command.{Make as Made};
ghost use Rattle.sk_app.specs.Lent.{command as command_in, drawn_in, file_in, shown, texts};

use crate::NoMemory;
use crate::command::Command;
use crate::fault::Fault;
use crate::prepared::{OutFile, Prepared};
use crate::status::Status;
use crate::summary::{is_certified, made_line};
use sk_dxf::{DxfFault, write_dxf};
use sk_report::{group_text, last_line};
use sk_session::Session;
use sk_solve::{Listed, Report};
use sk_types::GroupId;
use std::alloc::Global;

// The block of a group, as a piece.
fn block<const S: u32>(alloc: Global, listed: &Listed<S>) -> Result<Vec<u8>, NoMemory>
    requires { IsScale S }
    ensures { IfOk result (λ t. t.items ≡ block_text listed.now) }
{
    let mut piece = Vec::new(alloc);
    group_text(alloc, listed, &mut piece)?;
    Ok(piece)
}

// The last line of a report, as a piece.
fn last<const S: u32>(alloc: Global, report: &Report<S>) -> Result<Vec<u8>, NoMemory>
    ensures { IfOk result (λ t. t.items ≡ last_text report.now) }
{
    let mut piece = Vec::new(alloc);
    last_line(alloc, report, &mut piece)?;
    Ok(piece)
}

// A block for each group.
fn blocks<const S: u32>(alloc: Global, groups: &[Listed<S>]) -> Result<Vec<Vec<u8>>, NoMemory>
    requires { IsScale S }
    ensures { IfOk result (λ v. texts v.items ≡ map block_text groups.now) }
{
    let mut pieces = Vec::new(alloc);
    for listed in groups {
        pieces.push(block(alloc, listed)?)?;
    }
    Ok(pieces)
}

// A block for each group, then the last line.
fn report_pieces<const S: u32>(alloc: Global, report: &Report<S>) -> Result<Vec<Vec<u8>>, NoMemory>
    requires { IsScale S }
    ensures { IfOk result (λ v. texts v.items ≡ pieces_of report.now.groups) }
{
    let mut pieces = blocks(alloc, report.groups.as_slice())?;
    pieces.push(last(alloc, report)?)?;
    Ok(pieces)
}

fn are_certified<const S: u32>(groups: &[Listed<S>]) -> bool
    ensures { result ≡ are_all_certified groups.now }
{
    for listed in groups {
        if !is_certified(listed.result.verdict) {
            return false;
        }
    }
    true
}

fn status_of<const S: u32>(groups: &[Listed<S>]) -> Status
    ensures { result ≡ done_status (are_all_certified groups.now) }
{
    if are_certified(groups) {
        Status::Done
    } else {
        Status::NotAll
    }
}

// The present text of a session.
fn text_of<const S: u32>(alloc: Global, session: &Session<S>) -> Result<Vec<u8>, NoMemory>
    ensures { IfOk result (λ t. t.items ≡ bytes_of session.now.model.blocks) }
{
    let mut text = Vec::new(alloc);
    session.text(alloc, &mut text)?;
    Ok(text)
}

// The drawing of a group; None where there is no such group.
fn drawing_of<const S: u32>(
    alloc: Global,
    session: &Session<S>,
    group: GroupId,
) -> Result<Option<Vec<u8>>, NoMemory>
    requires { IsScale S }
    ensures { IfOk result (λ o. drawn_in o ≡ drawing session.now.model.lists.groups session.now.outline.entities session.now.numbers.acts group) }
{
    let mut text = Vec::new(alloc);
    match write_dxf(
        alloc,
        session.model(),
        session.outline(),
        session.numbers(),
        group,
        &mut text,
    ) {
        Ok(()) => Ok(Some(text)),
        Err(DxfFault::NoGroup) => Ok(None),
        Err(DxfFault::NoMemory) => Err(NoMemory),
    }
}

// A report, and a file that is written behind it.
fn reported<'w, const S: u32>(
    alloc: Global,
    session: &Session<S>,
    file: Option<OutFile<'w>>,
) -> Result<Prepared<'w>, NoMemory>
    requires { IsScale S }
    ensures { IfOk result (λ p. shown p ≡ answered (Ok (reported_work session.now (option_map file_in file.entry)))) }
{
    let report = session.report();
    Ok(Prepared {
        pieces: report_pieces(alloc, report)?,
        status: status_of(report.groups.as_slice()),
        file,
    })
}

// A report, and the drawing behind it; or the fault on a group that isn't there.
fn drawn<'w, const S: u32>(
    alloc: Global,
    session: &Session<S>,
    group: GroupId,
    out: &'w str,
) -> Result<Prepared<'w>, NoMemory>
    requires { IsScale S }
    ensures { IfOk result (λ p. shown p ≡ answered (drawn_work session.now out.now group.0 (drawing session.now.model.lists.groups session.now.outline.entities session.now.numbers.acts group))) }
{
    match drawing_of(alloc, session, group)? {
        Some(text) => reported(
            alloc,
            session,
            Some(OutFile {
                name: out,
                bytes: text,
            }),
        ),
        None => Prepared::refused(alloc, &Fault::Group(group.0)),
    }
}

// A report, and the present text behind it.
fn regenerated<'w, const S: u32>(
    alloc: Global,
    session: &Session<S>,
    out: &'w str,
) -> Result<Prepared<'w>, NoMemory>
    requires { IsScale S }
    ensures { IfOk result (λ p. shown p ≡ answered (Ok (reported_work session.now (Some (out.now, bytes_of session.now.model.blocks))))) }
{
    let bytes = text_of(alloc, session)?;
    let prepared = reported(alloc, session, Some(OutFile { name: out, bytes }))?;
    Ok(prepared)
}

// The line on a made model, and its present text behind it.
fn made<'w, const S: u32>(
    alloc: Global,
    session: &Session<S>,
    lines: u8,
    out: &'w str,
) -> Result<Prepared<'w>, NoMemory>
    ensures { IfOk result (λ p. shown p ≡ answered (work_for (Made lines out.now) session.now)) }
{
    let groups = session.report().groups.as_slice();
    let mut pieces = Vec::new(alloc);
    pieces.push(made_line(alloc, lines, groups)?)?;
    let bytes = text_of(alloc, session)?;
    Ok(Prepared {
        pieces,
        status: status_of(groups),
        file: Some(OutFile { name: out, bytes }),
    })
}

/// What a command puts and writes on a session.
pub(crate) fn work_for<'w, const S: u32>(
    alloc: Global,
    command: &Command<'w>,
    session: &Session<S>,
) -> Result<Prepared<'w>, NoMemory>
    requires { IsScale S }
    ensures { IfOk result (λ p. shown p ≡ answered (work_for (command_in command.now) session.now)) }
{
    match *command {
        Command::Report { .. } => reported(alloc, session, None),
        Command::Regen { out, .. } => regenerated(alloc, session, out),
        Command::Draw { group, out, .. } => drawn(alloc, session, group, out),
        Command::Make { lines, out } => made(alloc, session, lines, out),
    }
}
