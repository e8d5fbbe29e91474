// The model of a command: read or made, opened and regenerated.
ghost use Rattle.std.specs.Prelude.{◌≡◌, ◌≢◌, ◌≤◌, ◌+◌, Err, IfOk, OnOk};
ghost use Rattle.std.specs.List.{All};
ghost use Rattle.sk_num.specs.Scale.{IsScale};
ghost use Rattle.sk_files.specs.Outcome.{Rose};
ghost use Rattle.sk_chain.specs.Known.{IsReadPart};
ghost use Rattle.sk_app.specs.Answer.{accepted_with, answered, IsSoundModel};
ghost use Rattle.sk_app.specs.Fault.{part_name as name_of_part};
ghost use Rattle.sk_gen.specs.MadeModel.{made};
ghost use Rattle.sk_link.specs.Chain.{with_err};
ghost use Rattle.sk_app.specs.Fault.{BadModel, BadWords};
ghost use Rattle.sk_model.specs.declared.faults.ModelFault.TheVariants.{NoMemory as Wanting};
ghost use Rattle.sk_app.specs.Lent.{asked as asked_in, command as command_in, items_in, shown, words_of, IsAnswer, IsPartStop, IsStop};
ghost use Rattle.sk_app.specs.Prepares.{worked, steps_over, ReadsFile, ReadsText, PreparesModel, PreparesText, PreparesFor, Prepares};

use crate::NoMemory;
use crate::command::{Asked, Command, read_words};
use crate::fault::{Fault, Stop};
use crate::prepared::Prepared;
use crate::work::work_for;
use sk_chain::group_at;
use sk_count::Steps;
use sk_files::{Folder, OuterFault};
use sk_gen::{MakeFault, make_model};
use sk_link::{PartFault, Parts};
use sk_model::{Model, ModelFault};
use sk_session::{Session, TextFault, linked_parts, read_model};
use sk_types::{Group, GroupId};
use std::alloc::Global;
use std::sync::ledger::Ledger;

// The text of the model with this name.
fn read_text<'w, F: Folder>(
    alloc: Global,
    name: &'w str,
    folder: &mut F,
) -> Result<Vec<u8>, Stop<'w>>
    ensures text { ReadsFile (F.files folder.old) (Rose (F.faults folder.old) (F.faults folder.new)) name.now (items_in result) }
    ensures files { F.files folder.new ≡ F.files folder.old }
    ensures later { F.faults folder.old ≤ F.faults folder.new }
{
    match folder.read(alloc, name) {
        Ok(Some(text)) => Ok(text),
        Ok(None) => Err(Stop::Refused(Fault::Absent(name))),
        Err(OuterFault::Failed) => Err(Stop::Refused(Fault::Unread(name))),
        Err(OuterFault::NoMemory) => Err(Stop::NoMemory),
    }
}

// The text of a made model.
fn made_text<'w>(alloc: Global, lines: u8) -> Result<Vec<u8>, Stop<'w>>
    ensures { IsAnswer (items_in result) (with_err (λ e. BadWords) (made lines)) }
{
    match make_model(alloc, lines.into()) {
        Ok(text) => Ok(text),
        Err(MakeFault::BadCount) => Err(Stop::Refused(Fault::Words)),
        Err(MakeFault::NoMemory) => Err(Stop::NoMemory),
    }
}

// The text that a command reads, or makes.
fn text_for<'w, F: Folder>(
    alloc: Global,
    command: &Command<'w>,
    folder: &mut F,
) -> Result<Vec<u8>, Stop<'w>>
    ensures text { ReadsText (F.files folder.old) (Rose (F.faults folder.old) (F.faults folder.new)) (command_in command.now) (items_in result) }
    ensures files { F.files folder.new ≡ F.files folder.old }
    ensures later { F.faults folder.old ≤ F.faults folder.new }
{
    match *command {
        Command::Report { model } => read_text(alloc, model, folder),
        Command::Regen { model, .. } => read_text(alloc, model, folder),
        Command::Draw { model, .. } => read_text(alloc, model, folder),
        Command::Make { lines, .. } => made_text(alloc, lines),
    }
}

// The name of a group's part.
fn part_name<const S: u32>(groups: &[Group<S>], group: GroupId) -> &str
    ensures { result.now ≡ name_of_part groups.now group }
{
    match group_at(groups, group) {
        Some(group) => group.part.as_str(),
        None => "",
    }
}

// A fault of a group's part, by the part's name.
#[tactic(auto, unfolding(crate::specs::Fault::part_fault))]
fn part_stop<const S: u32>(groups: &[Group<S>], fault: PartFault) -> Stop<'_>
    ensures { IsPartStop groups.now fault result }
{
    match fault {
        PartFault::PartAbsent(group) => Stop::Refused(Fault::Absent(part_name(groups, group))),
        PartFault::PartRead(group) => Stop::Refused(Fault::Unread(part_name(groups, group))),
        PartFault::PartText(group, fault) => {
            Stop::Refused(Fault::Part(part_name(groups, group), fault))
        }
        PartFault::PartNumber(group, line) => {
            Stop::Refused(Fault::PartNumber(part_name(groups, group), line))
        }
        PartFault::NoMemory => Stop::NoMemory,
    }
}

// What is put where something isn't there.
fn stopped<'w>(alloc: Global, stop: Stop<'_>) -> Result<Prepared<'w>, NoMemory>
    ensures { IfOk result (λ p. IsStop stop.entry (shown p)) }
{
    match stop {
        Stop::Refused(fault) => Prepared::refused(alloc, &fault),
        Stop::NoMemory => Err(NoMemory),
    }
}

// What is put for a model that is refused.
fn refused_model<'w>(alloc: Global, fault: ModelFault) -> Result<Prepared<'w>, NoMemory>
    ensures { IfOk result (λ p. (shown p ≡ answered (Err (BadModel fault))) × (fault ≢ Wanting)) }
{
    match fault {
        ModelFault::NoMemory => Err(NoMemory),
        fault => Prepared::refused(alloc, &Fault::Model(fault)),
    }
}

// A command on a model over its parts.
fn over_parts<'w, L: Ledger, const S: u32>(
    alloc: Global,
    command: &Command<'w>,
    model: Model<S>,
    parts: Parts<S>,
    steps: &mut Steps<L>,
) -> Result<Prepared<'w>, NoMemory>
    requires scale { IsScale S }
    requires read { All IsReadPart parts }
    ensures answer { IfOk result (λ p. shown p ≡ answered (worked (command_in command.now) (accepted_with model.entry parts.entry))) }
    ensures steps { OnOk result (steps.new ≡ steps.old + steps_over (accepted_with model.entry parts.entry)) }
    ensures sound { OnOk result (IfOk (accepted_with model.entry parts.entry) IsSoundModel) }
{
    let session = match Session::over(alloc, model, parts, steps) {
        Ok(session) => session,
        Err(fault) => return refused_model(alloc, fault),
    };
    work_for(alloc, command, &session)
}

// A command on a model, whose parts are read.
fn over_model<'w, F: Folder, L: Ledger, const S: u32>(
    alloc: Global,
    command: &Command<'w>,
    model: Model<S>,
    folder: &mut F,
    steps: &mut Steps<L>,
) -> Result<Prepared<'w>, NoMemory>
    requires scale { IsScale S }
    ensures answer { IfOk result (λ p. PreparesModel (F.files folder.old) (Rose (F.faults folder.old) (F.faults folder.new)) (command_in command.now) model.entry (shown p) steps.old steps.new) }
    ensures files { F.files folder.new ≡ F.files folder.old }
    ensures later { F.faults folder.old ≤ F.faults folder.new }
{
    let parts = match linked_parts(alloc, &model, folder) {
        Ok(parts) => parts,
        Err(fault) => return stopped(alloc, part_stop(model.groups(), fault)),
    };
    over_parts(alloc, command, model, parts, steps)
}

// A command on the model of a text.
fn over_text<'w, F: Folder, L: Ledger, const S: u32>(
    alloc: Global,
    command: &Command<'w>,
    text: Vec<u8>,
    folder: &mut F,
    steps: &mut Steps<L>,
) -> Result<Prepared<'w>, NoMemory>
    requires scale { IsScale S }
    ensures answer { IfOk result (λ p. PreparesText S (F.files folder.old) (Rose (F.faults folder.old) (F.faults folder.new)) (command_in command.now) text.items (shown p) steps.old steps.new) }
    ensures files { F.files folder.new ≡ F.files folder.old }
    ensures later { F.faults folder.old ≤ F.faults folder.new }
{
    let model = match read_model::<S>(alloc, text) {
        Ok(model) => model,
        Err(TextFault::Unread(fault)) => return Prepared::refused(alloc, &Fault::Text(fault)),
        Err(TextFault::Untyped(fault)) => return Prepared::refused(alloc, &Fault::Model(fault)),
        Err(TextFault::NoMemory) => return Err(NoMemory),
    };
    over_model(alloc, command, model, folder, steps)
}

// A command at one scale.
fn at_scale<'w, F: Folder, L: Ledger, const S: u32>(
    alloc: Global,
    command: &Command<'w>,
    folder: &mut F,
    steps: &mut Steps<L>,
) -> Result<Prepared<'w>, NoMemory>
    requires scale { IsScale S }
    ensures answer { IfOk result (λ p. PreparesFor (F.files folder.old) (Rose (F.faults folder.old) (F.faults folder.new)) (record { scale = S; command = command_in command.now }) (shown p) steps.old steps.new) }
    ensures files { F.files folder.new ≡ F.files folder.old }
    ensures later { F.faults folder.old ≤ F.faults folder.new }
{
    let text = match text_for(alloc, command, folder) {
        Ok(text) => text,
        Err(stop) => return stopped(alloc, stop),
    };
    over_text::<F, L, S>(alloc, command, text, folder, steps)
}

// A command on the plain grid, or on the finer one.
#[tactic(auto, using(sk_num::specs::Scale::scale_facts))]
fn asked_for<'w, F: Folder, L: Ledger>(
    alloc: Global,
    asked: &Asked<'w>,
    folder: &mut F,
    steps: &mut Steps<L>,
) -> Result<Prepared<'w>, NoMemory>
    ensures answer { IfOk result (λ p. PreparesFor (F.files folder.old) (Rose (F.faults folder.old) (F.faults folder.new)) (asked_in asked.now) (shown p) steps.old steps.new) }
    ensures files { F.files folder.new ≡ F.files folder.old }
    ensures later { F.faults folder.old ≤ F.faults folder.new }
{
    if asked.fine {
        at_scale::<F, L, 44>(alloc, &asked.command, folder, steps)
    } else {
        at_scale::<F, L, 36>(alloc, &asked.command, folder, steps)
    }
}

/// What is put and written for the words, after all reads. A model that is accepted is regenerated, in one step for each group.
pub(crate) fn prepare<'w, F: Folder, L: Ledger>(
    alloc: Global,
    words: &[&'w str],
    folder: &mut F,
    steps: &mut Steps<L>,
) -> Result<Prepared<'w>, NoMemory>
    ensures answer { IfOk result (λ p. Prepares (words_of words.now) (F.files folder.old) (Rose (F.faults folder.old) (F.faults folder.new)) (shown p) steps.old steps.new) }
    ensures files { F.files folder.new ≡ F.files folder.old }
    ensures later { F.faults folder.old ≤ F.faults folder.new }
{
    let Some(asked) = read_words(words) else {
        return Prepared::refused(alloc, &Fault::Words);
    };
    asked_for(alloc, &asked, folder, steps)
}
