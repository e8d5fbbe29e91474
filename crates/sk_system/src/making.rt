// A system is made.
#![tactic(auto)]

ghost use Rattle.std.specs.Prelude.{◌≡◌, ◌≤◌, ◌+◌, length, map, IfOk};
ghost use Rattle.std.specs.List.{All};
ghost use Rattle.sk_num.specs.Scale.{IsScale};
ghost use Rattle.sk_types.specs.Params.{OwnFit, unknown_params};
ghost use Rattle.sk_expr.specs.Rows.{row_of};
ghost use Rattle.sk_expr.specs.FormulaViews.{IsSmall};
ghost use Rattle.sk_geom.specs.Sources.{IsSource};
ghost use Rattle.sk_geom.specs.Views.{source_of};
ghost use Rattle.sk_types.specs.Standings.{IsInTurn};
ghost use Rattle.sk_system.specs.Formulas.{formulas_from};
ghost use Rattle.sk_system.specs.Sizes.{auxiliaries_in, cosines_in};
ghost use Rattle.sk_system.specs.Known.{IsKnown};
ghost use Rattle.sk_system.specs.GroupSystem.{entities_of, group_system, own_constraints, numbers_of, own_rows_of};
ghost use Rattle.sk_system.specs.Shares.{entity_group, of_group};
ghost use Rattle.sk_system.specs.SystemViews.{system_of};
ghost use Rattle.sk_system.specs.Views.{numbers_view, formula_view};
ghost use Rattle.sk_system.specs.declared.formulas.NamedFormula.{NamedFormula as KeptFormula};

use crate::NoMemory;
use crate::formulas::{NamedFormula, formulas_of};
use crate::own::{OwnNumbers, numbers_in, rows_in};
use crate::shares::Share;
use crate::system::System;
use sk_expr::Row;
use sk_geom::Source;
use sk_types::{Group, Numbers, Outline, ParamId, unknown_params};
use std::alloc::Global;

/// What the group's unknowns are: its parameters that no constraint fixes.
fn unknowns_in<const S: u32>(
    alloc: Global,
    group: &Group<S>,
    outline: &Outline<S>,
    share: Share<'_, S>,
) -> Result<Vec<ParamId>, NoMemory>
    requires fit { OwnFit outline.now.entities }
    requires known { group.now.id.0 ≤ 32767 }
    requires entities { share.entities.now ≡ of_group entity_group group.now.id.0 outline.now.entities }
    ensures { IfOk result (λ v. v.items ≡ unknown_params share.entry.constraints.now outline.now.entities group.now) }
{
    let unknowns = unknown_params(alloc, share.constraints, share.entities, group)?;
    Ok(unknowns)
}

/// The trees of a system.
#[derive(Drop)]
struct Trees<const S: u32> {
    numbers: Vec<OwnNumbers<S>>,
    rows: Vec<Row<S>>,
    formulas: Vec<NamedFormula<S>>,
}

fn trees_of<const S: u32>(
    alloc: Global,
    source: &Source<'_, S>,
    group: &Group<S>,
    share: Share<'_, S>,
) -> Result<Trees<S>, NoMemory>
    requires scale { IsScale S }
    requires source { IsSource (source_of source.now) }
    requires entities { share.entities.now ≡ entities_of (source_of source.now) }
    requires in_turn { All (IsInTurn {s = S}) share.constraints.now }
    requires room { length source.now.unknowns.now + auxiliaries_in (formulas_from (source_of source.now) (length source.now.unknowns.now) 0 share.constraints.now) ≤ 60000 }
    requires few_cosines { cosines_in (formulas_from (source_of source.now) (length source.now.unknowns.now) 0 share.constraints.now) ≤ 60000 }
    ensures numbers { IfOk result (λ t. map numbers_view t.numbers.items ≡ numbers_of (source_of source.now)) }
    ensures rows { IfOk result (λ t. map row_of t.rows.items ≡ own_rows_of (source_of source.now) group.now) }
    ensures formulas { IfOk result (λ t. map formula_view t.formulas.items ≡ formulas_from (source_of source.now) (length source.now.unknowns.now) 0 share.entry.constraints.now) }
    ensures small { IfOk result (λ t. All (λ (f : KeptFormula S). IsSmall f.formula) t.formulas.items) }
{
    let numbers = numbers_in(alloc, source, share.entities)?;
    let rows = rows_in(alloc, source, group, share.entities)?;
    let formulas = formulas_of(alloc, source, share.constraints)?;
    Ok(Trees {
        numbers,
        rows,
        formulas,
    })
}

impl<const S: u32> System<S> {
    /// The system of a group over an outline: its unknowns, the trees of its entities, its rows, and the formulas of its
    /// constraints, each made once. `numbers` has the parameters of this group and of earlier ones, and the numbers at which
    /// the entities of earlier groups stand; for a drawing by line segments those of its own normal too. The share is what belongs
    /// to the group.
    #[tactic(auto, unfolding(crate::specs::GroupSystem::group_system))]
    pub fn new(
        alloc: Global,
        group: &Group<S>,
        outline: &Outline<S>,
        share: Share<'_, S>,
        numbers: &Numbers<S>,
    ) -> Result<System<S>, NoMemory>
        requires scale { IsScale S }
        requires entities { share.entities.now ≡ of_group entity_group group.now.id.0 outline.now.entities }
        requires constraints { share.constraints.now ≡ own_constraints group.now share.constraints.now }
        requires known { IsKnown group.now outline.now.entities share.constraints.now numbers.now }
        ensures { IfOk result (λ y. system_of y ≡ group_system group.now outline.now.entities share.entry.constraints.now numbers.now) }
    {
        let unknowns = unknowns_in(alloc, group, outline, share)?;
        let source = Source {
            outline,
            numbers,
            unknowns: &unknowns,
            group: group.id,
        };
        let made = trees_of(alloc, &source, group, share);
        let Source {
            outline: _outline,
            numbers: _numbers,
            unknowns: _unknowns,
            group: _group,
        } = source;
        let Trees {
            numbers,
            rows,
            formulas,
        } = made?;
        Ok(System {
            unknowns,
            numbers,
            rows,
            formulas,
        })
    }
}
