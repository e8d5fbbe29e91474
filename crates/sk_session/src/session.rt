// A session.

ghost use Rattle.std.specs.Prelude.{◌≡◌, ◌+◌, ◌++◌, ◌⊎◌, length, IfOk, IfErr, OnOk, OnErr, Ok};
ghost use Rattle.std.specs.List.{All};
ghost use Rattle.sk_num.specs.Scale.{IsScale};
ghost use Rattle.sk_types.specs.Lookups.{Rise, RiseBy, act_handle};
ghost use Rattle.sk_records.specs.Answers.{IsFault};
ghost use Rattle.sk_records.specs.Written.{IsText, bytes_of};
ghost use Rattle.sk_model.specs.declared.faults.ModelFault.TheVariants.{NoMemory as Wanting};
ghost use Rattle.sk_model.specs.Chain.{IsAnswer};
ghost use Rattle.sk_model.specs.Changes.{with_params};
ghost use Rattle.sk_model.specs.Checked.{AreChecked};
ghost use Rattle.sk_model.specs.Models.{IsTyped};
ghost use Rattle.sk_chain.specs.Known.{IsReadPart};
ghost use Rattle.sk_chain.specs.Laws.{IsOutlineOf};
ghost use Rattle.sk_chain.specs.Outlines.{Outlined, outlined};
ghost use Rattle.sk_regen.specs.NewText.{reported, text_with};
ghost use Rattle.sk_session.specs.Opening.{opened_over};
ghost use Rattle.sk_session.specs.Standing.{AllSound, AreSound, IsExtended, IsStanding, all_of};

use crate::NoMemory;
use sk_chain::outline;
use sk_count::Steps;
use sk_link::Parts;
use sk_model::{Model, ModelFault};
use sk_num::Items;
use sk_regen::{Regenerated, all_groups, into_regenerated};
use sk_solve::Report;
use sk_types::{GroupId, Numbers, Outline};
use std::alloc::Global;
use std::sync::ledger::Ledger;

/// A model that was opened and regenerated, with how its groups came out.
///
/// Contracts see what it holds. Its text is its own regeneration, with its report, as long as it lives.
#[derive(Drop)]
pub struct Session<const S: u32> {
    parts: Parts<S>,
    model: Model<S>,
    outline: Outline<S>,
    numbers: Numbers<S>,
    report: Report<S>,
    last: Items<GroupId>,
}

impl<const S: u32> std::marker::Model for Session<S> {
    ghost use Rattle.sk_session.specs.Opening.{Present};
    ghost use Rattle.sk_session.specs.Standing.{IsStanding};

    ghost Value = { Present S };

    ghost view = { λ s. record {
      parts = s.parts;
      model = s.model;
      outline = s.outline;
      numbers = s.numbers;
      report = s.report.groups;
      last = s.last;
    } };

    ghost invariant = { λ s. let present : Present S = record {
      parts = s.parts;
      model = s.model;
      outline = s.outline;
      numbers = s.numbers;
      report = s.report.groups;
      last = s.last;
    } in IsStanding present };
}

// A model's book is a text, and its lists are what this has.
fn law_typed<const S: u32>(model: &Model<S>)
    ensures text { IsText model.now.blocks }
    ensures typed { IsTyped model.now }
    ensures checked { AreChecked model.now.lists }
{
    model.book().law_text();
}

// The outline of a model, which gets its remap lists.
#[tactic(auto, using(crate::proofs::Opened::outline_fault))]
fn extended<const S: u32>(
    alloc: Global,
    model: &mut Model<S>,
    parts: &Parts<S>,
) -> Result<Outline<S>, ModelFault>
    requires scale { IsScale S }
    requires read { All IsReadPart parts.now }
    ensures err { IfErr result (λ e. IsFault Wanting e (outlined parts.now model.old.lists)) }
    ensures ok { OnOk result (IfOk result (IsExtended parts.now model.old model.new)) }
{
    law_typed(model);
    let outline = outline(alloc, model, parts)?;
    law_typed(model);
    Ok(outline)
}

// A model of which every group was regenerated, with what came out.
#[derive(Drop)]
struct Outcome<const S: u32> {
    model: Model<S>,
    report: Report<S>,
    numbers: Numbers<S>,
    groups: Vec<GroupId>,
}

// Regenerates every group of a model.
fn regenerate_all<const S: u32, L: Ledger>(
    alloc: Global,
    model: Model<S>,
    outline: &Outline<S>,
    steps: &mut Steps<L>,
) -> Result<Outcome<S>, NoMemory>
    requires scale { IsScale S }
    requires outline { IsOutlineOf model.lists outline.now }
    ensures report { IfOk result (λ x. x.report.groups ≡ (all_of model.entry.lists outline.now).members) }
    ensures numbers { IfOk result (λ x. x.numbers ≡ (all_of model.entry.lists outline.now).numbers) }
    ensures acts { IfOk result (λ x. RiseBy act_handle x.numbers.acts) }
    ensures groups { IfOk result (λ x. x.groups.items ≡ reported outline.now) }
    ensures sound { OnOk result (AllSound model.entry.lists outline.now) }
    ensures blocks { IfOk result (λ x. x.model.blocks ≡ text_with (all_of model.entry.lists outline.now).numbers model.entry.lists outline.now model.entry.blocks) }
    ensures lists { IfOk result (λ x. x.model.lists ≡ record model.entry.lists { params = with_params (all_of model.entry.lists outline.now).numbers.params model.entry.lists.params }) }
    ensures steps { OnOk result (steps.new ≡ steps.old + length (reported outline.now)) }
{
    let groups = all_groups(alloc, outline)?;
    let before = Report {
        groups: Items::of(Vec::new(alloc)),
    };
    let done = into_regenerated(alloc, model, outline, &groups, &before, steps)?;
    let Regenerated {
        model,
        report,
        numbers,
    } = done;
    Ok(Outcome {
        model,
        report,
        numbers,
        groups,
    })
}

impl<const S: u32> Session<S> {
    /// The session of a model over the parts of its linked groups, or the model's first fault: all groups are regenerated, in one
    /// step each.
    pub fn over<L: Ledger>(
        alloc: Global,
        model: Model<S>,
        parts: Parts<S>,
        steps: &mut Steps<L>,
    ) -> Result<Session<S>, ModelFault>
        requires scale { IsScale S }
        requires read { All IsReadPart parts }
        ensures value { IsAnswer result (opened_over parts.entry model.entry) }
        ensures sound { OnOk result ((o : Outlined S) → outlined parts.entry model.entry.lists ≡ Ok o → AreSound parts.entry model.entry.lists o) }
        ensures steps { IfOk result (λ p. steps.new ≡ steps.old + length p.last) }
        ensures refused { IfErr result (λ e. (e ≡ Wanting) ⊎ (steps.new ≡ steps.old)) }
    {
        law_typed(&model);
        let mut model = model;
        let outline = extended(alloc, &mut model, &parts)?;
        let outcome = regenerate_all(alloc, model, &outline, steps)?;
        law_typed(&outcome.model);
        Ok(Session {
            parts,
            model: outcome.model,
            outline,
            numbers: outcome.numbers,
            report: outcome.report,
            last: Items::of(outcome.groups),
        })
    }

    /// The model of the present text.
    pub fn model(&self) -> &Model<S>
        ensures model { result.now ≡ self.now.model }
        ensures standing { IsStanding self.now }
    {
        &self.model
    }

    /// The linked parts as they were read.
    pub fn parts(&self) -> &Parts<S>
        ensures { result.now ≡ self.now.parts }
    {
        &self.parts
    }

    /// The outline of the present text's entities.
    pub fn outline(&self) -> &Outline<S>
        ensures outline { result.now ≡ self.now.outline }
        ensures rise { Rise result.now.entities }
    {
        &self.outline
    }

    /// The parameters, and the numbers of the entities.
    pub fn numbers(&self) -> &Numbers<S>
        ensures numbers { result.now ≡ self.now.numbers }
        ensures acts { RiseBy act_handle result.now.acts }
    {
        &self.numbers
    }

    /// How the groups come out: all but group 1, in group order.
    pub fn report(&self) -> &Report<S>
        ensures { result.now.groups ≡ self.now.report }
    {
        &self.report
    }

    /// The groups that were regenerated last, in group order.
    pub fn last(&self) -> &[GroupId]
        ensures { result.now ≡ self.now.last }
    {
        self.last.as_slice()
    }

    /// Appends the present text. At an `Err` nothing is appended.
    pub fn text(&self, alloc: Global, out: &mut Vec<u8>) -> Result<(), NoMemory>
        ensures ok { OnOk result (out.new.items ≡ out.old.items ++ bytes_of self.now.model.blocks) }
        ensures err { OnErr result (out.new.items ≡ out.old.items) }
    {
        self.model.write(alloc, out)
    }
}
