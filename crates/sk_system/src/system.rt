// The system of a group, and what it is at a point.
#![tactic(auto)]

ghost use Rattle.std.specs.Prelude.{◌≡◌, length, map, IfOk};
ghost use Rattle.std.specs.List.{All};
ghost use Rattle.std.proofs.Props.{props};
ghost use Rattle.sk_num.specs.Scale.{IsScale};
ghost use Rattle.sk_expr.specs.Rows.{row_of};
ghost use Rattle.sk_expr.specs.FormulaViews.{IsSmall};
ghost use Rattle.sk_system.specs.Fits.{IsFit};
ghost use Rattle.sk_system.specs.FitProps.{fit-prop};
ghost use Rattle.sk_system.specs.GroupSystem.{plain_system};
ghost use Rattle.sk_system.specs.Views.{numbers_view, formula_view};
ghost use Rattle.sk_system.specs.declared.formulas.NamedFormula.{NamedFormula as KeptFormula};
ghost use Rattle.sk_expr.specs.Visits.{grown_of};
ghost use Rattle.sk_expr.specs.Follows.{Gives};

use crate::NoMemory;
use crate::formulas::NamedFormula;
use crate::own::OwnNumbers;
use crate::visit::{acts_of, add_formulas, are_within, start, visited};
use sk_expr::{AtPoint, Auxiliaries, Row, VisitFault, Visited};
use sk_num::Grid;
use sk_types::{Act, ParamId};
use std::alloc::Global;

/// The system of a group: all that doesn't depend on the point. It fits: at each point it can be tested.
#[derive(Debug, Drop)]
pub struct System<const S: u32> {
    /// The unknown parameters, by handle.
    pub(crate) unknowns: Vec<ParamId>,
    /// The numbers of the group's own entities, by handle.
    pub(crate) numbers: Vec<OwnNumbers<S>>,
    /// The rows of entities, by handle, then those of the group.
    pub(crate) rows: Vec<Row<S>>,
    /// The formulas of constraints, in the order of the file.
    pub(crate) formulas: Vec<NamedFormula<S>>,
    ghost fits: { IsFit (plain_system unknowns.items (map (numbers_view {s = S}) numbers.items) (map (row_of {s = S}) rows.items) (map (formula_view {s = S}) formulas.items)) } by { fit-prop (plain_system unknowns.items (map (numbers_view {s = S}) numbers.items) (map (row_of {s = S}) rows.items) (map (formula_view {s = S}) formulas.items)) },
    ghost small: { All (λ (f : KeptFormula S). IsSmall f.formula) formulas.items } by { Prim.hlevel props },
}

impl<const S: u32> System<S> {
    ghost use Rattle.sk_system.specs.GroupSystem.{seen_at, acts_at};
    ghost use Rattle.sk_system.specs.SystemViews.{system_of};

    /// The group's own parameters that no constraint fixes, in rising handle order.
    pub fn unknowns(&self) -> &[ParamId]
        ensures { result.now ≡ self.now.unknowns.items }
    {
        &self.unknowns
    }

    /// What is seen at the point, with its rows as trees.
    #[tactic(auto, unfolding(crate::specs::GroupSystem::seen_at))]
    fn seen_at(&self, alloc: Global, point: &[Grid<S>]) -> Result<Auxiliaries<S>, VisitFault>
        requires scale { IsScale S }
        requires point { length point.now ≡ length self.now.unknowns.items }
        ensures { Gives (seen_at S (system_of self.now) point.now) result (λ a. grown_of a) }
    {
        let mut seen = start(alloc, &self.rows, point)?;
        if !are_within(&seen, &self.numbers) {
            return Err(VisitFault::PastLimit);
        }
        add_formulas(alloc, &mut seen, &self.formulas)?;
        Ok(seen)
    }

    /// The numbers at which the group's points, normals, distances and faces stand at the point, by handle; 0 for one that
    /// passes the limit.
    #[tactic(auto, unfolding(crate::specs::GroupSystem::acts_at))]
    pub fn acts(&self, alloc: Global, point: &[Grid<S>]) -> Result<Vec<Act<S>>, NoMemory>
        requires scale { IsScale S }
        requires point { length point.now ≡ length self.now.unknowns.items }
        ensures { IfOk result (λ v. v.items ≡ acts_at (system_of self.now) point.now) }
    {
        let seen = start(alloc, &[], point)?;
        let acts = acts_of(alloc, &seen, &self.numbers)?;
        Ok(acts)
    }
}

impl<const S: u32> AtPoint<S> for System<S> {
    ghost use Rattle.std.specs.Prelude.{length};
    ghost use Rattle.sk_system.specs.GroupSystem.{seen_at};
    ghost use Rattle.sk_system.specs.SystemViews.{system_of};

    ghost params_of = { λ y. length y.unknowns.items };

    ghost seen_at = { λ y x. seen_at S (system_of y) x };

    fn params(&self) -> u16 {
        self.unknowns.len() as u16
    }

    fn at(&self, alloc: Global, point: &[Grid<S>]) -> Result<Visited<S>, VisitFault> {
        let seen = self.seen_at(alloc, point)?;
        let visited = visited(alloc, point, seen)?;
        Ok(visited)
    }
}
