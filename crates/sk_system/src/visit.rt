// A system at a point.
#![tactic(auto)]

ghost use Rattle.std.specs.Prelude.{◌≡◌, ◌≤◌, ◌+◌, [], length, map, is_some, IfOk, OnOk};
ghost use Rattle.std.specs.List.{All, list_all};
ghost use Rattle.sk_num.specs.Scale.{IsScale};
ghost use Rattle.sk_expr.specs.declared.row.Row.{Row as KeptRow};
ghost use Rattle.sk_expr.specs.Rows.{row_of};
ghost use Rattle.sk_expr.specs.Trees.{poly_of};
ghost use Rattle.sk_expr.specs.Visits.{grown_of, seen_of, IsTestable, BeginsWith};
ghost use Rattle.sk_expr.specs.FormulaViews.{IsSmall, HasRoom};
ghost use Rattle.sk_expr.specs.Readings.{readings, with_relations};
ghost use Rattle.sk_expr.specs.Follows.{Follows};
ghost use Rattle.sk_system.specs.GroupSystem.{add_formula, add_formulas, is_within, reading_or_zero, act_of};
ghost use Rattle.sk_system.specs.Fits.{FormulasFit};
ghost use Rattle.sk_system.specs.Sizes.{auxiliaries_in, cosines_in, rows_in};
ghost use Rattle.sk_system.specs.Visited.{IsVisit};
ghost use Rattle.sk_system.specs.Views.{numbers_view, formula_view};
ghost use Rattle.sk_system.specs.declared.formulas.NamedFormula.{NamedFormula as KeptFormula};

use crate::NoMemory;
use crate::formulas::NamedFormula;
use crate::own::OwnNumbers;
use sk_expr::{Auxiliaries, Row, RowKind, RowName, Rows, Tape, Tree, VisitFault, Visited, copy};
use sk_num::{Grid, Items};
use sk_types::Act;
use std::alloc::Global;

/// The same rows in memory of their own.
fn copied_rows<const S: u32>(alloc: Global, rows: &[Row<S>]) -> Result<Vec<Row<S>>, NoMemory>
    ensures { IfOk result (λ v. map row_of v.items ≡ map row_of rows.now) }
{
    let mut copies = Vec::new(alloc);
    for row in rows {
        copies.push(Row {
            name: row.name,
            tree: copy(alloc, &row.tree)?,
        })?;
    }
    Ok(copies)
}

/// What is seen with these rows alone, at a point.
pub(crate) fn start<const S: u32>(
    alloc: Global,
    rows: &[Row<S>],
    point: &[Grid<S>],
) -> Result<Auxiliaries<S>, NoMemory>
    ensures { IfOk result (λ a. grown_of a ≡ record { unknowns = point.now; rows = map row_of rows.now; cosines = []; forced = [] }) }
{
    let rows = copied_rows(alloc, rows)?;
    let unknowns = Vec::from_slice(alloc, point)?;
    Ok(Auxiliaries {
        unknowns: Items::of(unknowns),
        rows: Items::of(rows),
        cosines: Items::of(Vec::new(alloc)),
        forced: Items::of(Vec::new(alloc)),
    })
}

/// Whether four trees read within the limit.
fn all_read<const S: u32>(seen: &Auxiliaries<S>, trees: &[Tree<S>; 4]) -> bool
    requires { IsScale S }
    ensures { result ≡ is_some (readings S (grown_of seen.now) (map poly_of trees.now)) }
{
    let [a, b, c, d] = trees;
    let Some(_) = seen.reading(a) else {
        return false;
    };
    let Some(_) = seen.reading(b) else {
        return false;
    };
    let Some(_) = seen.reading(c) else {
        return false;
    };
    let Some(_) = seen.reading(d) else {
        return false;
    };
    true
}

/// Whether the numbers of an entity read within the limit, where they count.
fn is_within<const S: u32>(seen: &Auxiliaries<S>, numbers: &OwnNumbers<S>) -> bool
    requires { IsScale S }
    ensures { result ≡ is_within S (grown_of seen.now) (numbers_view numbers.now) }
{
    if numbers.is_read {
        all_read(seen, &numbers.trees)
    } else {
        true
    }
}

/// Whether the numbers of all entities do.
pub(crate) fn are_within<const S: u32>(seen: &Auxiliaries<S>, numbers: &[OwnNumbers<S>]) -> bool
    requires { IsScale S }
    ensures { result ≡ list_all (is_within S (grown_of seen.now)) (map numbers_view numbers.now) }
{
    for n in numbers {
        if !is_within(seen, n) {
            return false;
        }
    }
    true
}

/// Puts the relation rows of a constraint behind all others.
fn push_relations<const S: u32>(seen: &mut Auxiliaries<S>, rows: Rows<S>) -> Result<(), NoMemory>
    ensures { OnOk result (grown_of seen.new ≡ with_relations (record { seen = grown_of seen.old; rows = map row_of rows.entry.items })) }
{
    let mut rest = rows;
    while !rest.as_slice().is_empty() {
        let row = rest.remove(0);
        seen.rows.push(row)?;
    }
    Ok(())
}

/// Adds a constraint: its auxiliaries with their rows, its cosines, and its relation rows.
fn add_formula<const S: u32>(
    alloc: Global,
    seen: &mut Auxiliaries<S>,
    f: &NamedFormula<S>,
) -> Result<(), VisitFault>
    requires scale { IsScale S }
    requires small { IsSmall f.now.formula }
    requires room { HasRoom seen.old }
    ensures follows { Follows (add_formula S (formula_view f.now) (grown_of seen.old)) (grown_of seen.new) result }
{
    let rows = seen.grow(alloc, RowKind::OfConstraint, f.constraint.0, &f.formula)?;
    push_relations(seen, rows)?;
    Ok(())
}

/// Adds constraints, one after another.
pub(crate) fn add_formulas<const S: u32>(
    alloc: Global,
    seen: &mut Auxiliaries<S>,
    formulas: &[NamedFormula<S>],
) -> Result<(), VisitFault>
    requires scale { IsScale S }
    requires small { All (λ (f : KeptFormula S). IsSmall f.formula) formulas.now }
    requires fit { FormulasFit (length seen.old.unknowns) (length seen.old.cosines) (map formula_view formulas.now) }
    requires unknowns { length seen.old.unknowns + auxiliaries_in (map formula_view formulas.now) ≤ 400 }
    requires rows { length seen.old.rows + rows_in (map formula_view formulas.now) ≤ 400 }
    requires cosines { length seen.old.cosines + cosines_in (map formula_view formulas.now) ≤ 400 }
    ensures follows { Follows (add_formulas S (map formula_view formulas.now) (grown_of seen.old)) (grown_of seen.new) result }
{
    for f in formulas {
        add_formula(alloc, seen, f)?;
    }
    Ok(())
}

/// The names of rows.
fn names_of<const S: u32>(alloc: Global, rows: &[Row<S>]) -> Result<Vec<RowName>, NoMemory>
    ensures { IfOk result (λ v. v.items ≡ map (λ (r : KeptRow S). r.name) rows.now) }
{
    let mut names = Vec::new(alloc);
    for row in rows {
        names.push(row.name)?;
    }
    Ok(names)
}

/// What is seen, with its rows on a tape.
pub(crate) fn visited<const S: u32>(
    alloc: Global,
    point: &[Grid<S>],
    seen: Auxiliaries<S>,
) -> Result<Visited<S>, NoMemory>
    requires visit { IsVisit point.now (grown_of seen) }
    ensures seen { IfOk result (λ v. seen_of v ≡ grown_of seen.entry) }
    ensures testable { IfOk result (λ v. IsTestable (length point.now) v) }
    ensures begins { IfOk result (λ v. BeginsWith point.now v) }
{
    let _point = point;
    let Auxiliaries {
        unknowns,
        rows,
        cosines,
        forced,
    } = seen;
    let tape = Tape::from_rows(alloc, rows.as_slice())?;
    let names = names_of(alloc, rows.as_slice())?;
    Ok(Visited {
        unknowns,
        rows: Items::of(names),
        tape,
        cosines,
        forced,
    })
}

// ---- the numbers that a group leaves

fn reading_or_zero<const S: u32>(seen: &Auxiliaries<S>, tree: &Tree<S>) -> Grid<S>
    requires { IsScale S }
    ensures { result ≡ reading_or_zero S (grown_of seen.now) (poly_of tree.now) }
{
    match seen.reading(tree) {
        Some(reading) => reading,
        None => Grid::zero(),
    }
}

/// The numbers at which an entity stands; 0 where one passes the limit.
fn act_of<const S: u32>(seen: &Auxiliaries<S>, numbers: &OwnNumbers<S>) -> Act<S>
    requires { IsScale S }
    ensures { result ≡ act_of (grown_of seen.now) (numbers_view numbers.now) }
{
    let [a, b, c, d] = &numbers.trees;
    Act {
        entity: numbers.entity,
        values: [
            reading_or_zero(seen, a),
            reading_or_zero(seen, b),
            reading_or_zero(seen, c),
            reading_or_zero(seen, d),
        ],
    }
}

/// Those at which all entities stand.
pub(crate) fn acts_of<const S: u32>(
    alloc: Global,
    seen: &Auxiliaries<S>,
    numbers: &[OwnNumbers<S>],
) -> Result<Vec<Act<S>>, NoMemory>
    requires { IsScale S }
    ensures { IfOk result (λ v. v.items ≡ map (act_of (grown_of seen.now)) (map numbers_view numbers.now)) }
{
    let mut acts = Vec::new(alloc);
    for n in numbers {
        acts.push(act_of(seen, n))?;
    }
    Ok(acts)
}
