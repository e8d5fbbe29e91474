ghost use Rattle.std.specs.List.{All, filter, range_with_len};
ghost use Rattle.std.specs.Prelude.{◌≡◌, ◌≢◌, pos, ◌*◌, ◌<◌, ◌≤◌, ◌+◌, ◌++◌, ◌∷◌, [], length, option_map, Some, Ok, MatchResult, if◌then◌else◌, not};
ghost use Rattle.sk_num.specs.Scale.{IsScale};
ghost use Rattle.sk_elim.specs.Elimination.{Elimination, cell_at, has_column, has_row, or_past_limit, pivot_row, inverse_row, finished, eliminate};
ghost use Rattle.sk_num.specs.Each.{each_some};
ghost use Rattle.sk_elim.specs.PivotLaws.{AreApart};
ghost use Rattle.sk_elim.specs.Slopes.{slope_rows};
ghost use Rattle.sk_elim.specs.Faults.{HaltsAs, progress_of};
ghost use Rattle.sk_elim.specs.Result.{joined, IsElimination};
ghost use Rattle.sk_elim.specs.declared.fault.ElimFault.TheVariants.{NoMemory};

use crate::build::augmented;
use crate::fault::ElimFault;
use crate::progress::{Pivot, Working};
use crate::steps::{forced_steps, free_steps, has_column, has_row};
use sk_num::{Divisor, Grid, Items, Mat, SpanMat};
use std::alloc::Global;

/// What elimination leaves: the pivots in the order taken, the parameter columns without one, the suspect rows, and the
/// approximate inverse, with a row for each column with a pivot and a cell for each row with one.
#[derive(Debug, Drop)]
pub struct Elim<const S: u32> {
    pub pivots: Items<Pivot>,
    pub held: Items<u16>,
    pub suspects: Items<u16>,
    pub inverse: Mat<S>,
}

fn keep_if(list: &mut Vec<u16>, n: u16, wanted: bool) -> Result<(), ElimFault>
    ensures { MatchResult result (λ u. list.new.items ≡ list.old.items ++ (if wanted then n ∷ [] else [])) (λ e. e ≡ NoMemory) }
{
    if wanted {
        if list.push(n).is_err() {
            return Err(ElimFault::NoMemory);
        }
    }
    Ok(())
}

/// The columns below a number that have a pivot.
pub fn solved_columns(alloc: Global, columns: u16, pivots: &[Pivot]) -> Result<Vec<u16>, ElimFault>
    ensures { MatchResult result (λ cs. cs.items ≡ filter (λ c. has_column c pivots.now) (range_with_len 0 columns)) (λ e. e ≡ NoMemory) }
{
    let mut list = Vec::new(alloc);
    for c in 0..columns {
        match keep_if(&mut list, c, has_column(c, pivots)) {
            Err(e) => return Err(e),
            Ok(()) => (),
        }
    }
    Ok(list)
}

/// The columns below a number that have none.
fn held_columns(alloc: Global, params: u16, pivots: &[Pivot]) -> Result<Vec<u16>, ElimFault>
    ensures { MatchResult result (λ cs. cs.items ≡ filter (λ c. not (has_column c pivots.now)) (range_with_len 0 params)) (λ e. e ≡ NoMemory) }
{
    let mut list = Vec::new(alloc);
    for c in 0..params {
        match keep_if(&mut list, c, !has_column(c, pivots)) {
            Err(e) => return Err(e),
            Ok(()) => (),
        }
    }
    Ok(list)
}

/// The rows below a number that have a pivot.
pub fn retained_rows(alloc: Global, count: u16, pivots: &[Pivot]) -> Result<Vec<u16>, ElimFault>
    ensures { MatchResult result (λ rs. rs.items ≡ filter (λ r. has_row r pivots.now) (range_with_len 0 count)) (λ e. e ≡ NoMemory) }
{
    let mut list = Vec::new(alloc);
    for r in 0..count {
        match keep_if(&mut list, r, has_row(r, pivots)) {
            Err(e) => return Err(e),
            Ok(()) => (),
        }
    }
    Ok(list)
}

/// The row of the pivot in the column, 0 where there is none.
fn pivot_row(column: u16, pivots: &[Pivot]) -> u16
    ensures { result ≡ pivot_row column pivots.now }
{
    for p in pivots {
        if p.column == column {
            return p.row;
        }
    }
    0
}

/// The number at a place of the rows, 0 where there is none.
fn number_or_zero<const S: u32>(rows: &[Items<Grid<S>>], r: usize, k: usize) -> Grid<S>
    ensures { result ≡ cell_at rows.now r k }
{
    match rows.get(r) {
        None => Grid::zero(),
        Some(row) => match row.as_slice().get(k) {
            None => Grid::zero(),
            Some(number) => *number,
        },
    }
}

fn put_cell<const S: u32>(
    cells: &mut Vec<Grid<S>>,
    number: Option<Grid<S>>,
) -> Result<(), ElimFault>
    ensures { MatchResult result
        (λ u. option_map (λ y. cells.old.items ++ (y ∷ [])) number.entry ≡ Some cells.new.items)
        (λ e. HaltsAs (or_past_limit number.entry) e) }
{
    let Some(y) = number else {
        return Err(ElimFault::PastLimit);
    };
    if cells.push(y).is_err() {
        return Err(ElimFault::NoMemory);
    }
    Ok(())
}

/// Puts the row of a column of the inverse at the end.
fn put_inverse_row<const S: u32>(
    cells: &mut Vec<Grid<S>>,
    w: &Working<S>,
    columns: u16,
    retained: &[u16],
    c: u16,
) -> Result<(), ElimFault>
    requires scale { IsScale S }
    requires not_zero { cell_at w.now.rows.items (pivot_row c w.now.pivots.items) c ≢ pos 0 }
    ensures { MatchResult result
        (λ u. option_map (λ ys. cells.old.items ++ ys) (inverse_row S columns (progress_of S w.now) retained.now c) ≡ Some cells.new.items)
        (λ e. HaltsAs (or_past_limit (inverse_row S columns (progress_of S w.now) retained.now c)) e) }
{
    let r = pivot_row(c, w.pivots.as_slice()) as usize;
    let under = Divisor::new(number_or_zero(w.rows.as_slice(), r, c as usize));
    for i in 0..retained.len() {
        let over = number_or_zero(
            w.rows.as_slice(),
            r,
            columns as usize + retained[i] as usize,
        );
        match put_cell(cells, under.quotient(over)) {
            Err(e) => return Err(e),
            Ok(()) => (),
        }
    }
    Ok(())
}

/// Puts all rows of the inverse at the end.
fn put_inverse<const S: u32>(
    cells: &mut Vec<Grid<S>>,
    w: &Working<S>,
    columns: u16,
    solved: &[u16],
    retained: &[u16],
) -> Result<(), ElimFault>
    requires scale { IsScale S }
    requires not_zero { All (λ c. cell_at w.now.rows.items (pivot_row c w.now.pivots.items) c ≢ pos 0) solved.now }
    ensures { MatchResult result
        (λ u. option_map (λ yss. cells.old.items ++ joined yss) (each_some (inverse_row S columns (progress_of S w.now) retained.now) solved.now) ≡ Some cells.new.items)
        (λ e. HaltsAs (or_past_limit (each_some (inverse_row S columns (progress_of S w.now) retained.now) solved.now)) e) }
{
    for j in 0..solved.len() {
        match put_inverse_row(cells, w, columns, retained, solved[j]) {
            Err(e) => return Err(e),
            Ok(()) => (),
        }
    }
    Ok(())
}

/// What is left when all rows are done.
fn finished<const S: u32>(
    alloc: Global,
    w: Working<S>,
    count: u16,
    columns: u16,
    params: u16,
) -> Result<Elim<S>, ElimFault>
    requires scale { IsScale S }
    requires not_zero { All (λ p. cell_at w.rows.items p.0 p.1 ≢ pos 0) w.pivots.items }
    ensures { MatchResult result
        (λ e. (o : Elimination) × (finished S count columns params (progress_of S w.entry) ≡ Ok o) × IsElimination S e o)
        (λ e. HaltsAs (finished S count columns params (progress_of S w.entry)) e) }
{
    let solved = match solved_columns(alloc, columns, w.pivots.as_slice()) {
        Err(e) => return Err(e),
        Ok(list) => list,
    };
    let retained = match retained_rows(alloc, count, w.pivots.as_slice()) {
        Err(e) => return Err(e),
        Ok(list) => list,
    };
    let held = match held_columns(alloc, params, w.pivots.as_slice()) {
        Err(e) => return Err(e),
        Ok(list) => list,
    };
    let (rows, cols) = (solved.len() as u16, retained.len() as u16);
    let mut cells = Vec::new(alloc);
    match put_inverse(
        &mut cells,
        &w,
        columns,
        solved.as_slice(),
        retained.as_slice(),
    ) {
        Err(e) => return Err(e),
        Ok(()) => (),
    }
    Ok(Elim {
        pivots: Items::of(w.pivots),
        held: Items::of(held),
        suspects: Items::of(w.suspects),
        inverse: Mat {
            rows,
            cols,
            cells: Items::of(cells),
        },
    })
}

/// Elimination of a matrix of slopes: first the forced pairs in order, then each other row with the best parameter column.
pub fn eliminate<const S: u32>(
    alloc: Global,
    a: &SpanMat<S>,
    forced: &[(u16, u16)],
    params: u16,
) -> Result<Elim<S>, ElimFault>
    requires scale { IsScale S }
    requires size { length a.now.cells ≡ a.now.rows * a.now.cols }
    requires params_in { params ≤ a.now.cols }
    requires rows_apart { AreApart (λ p. p.0) a.now.rows forced.now }
    requires columns_apart { AreApart (λ p. p.1) a.now.cols forced.now }
    ensures { MatchResult result
        (λ e. (o : Elimination) × (eliminate S a.now.cols params forced.now (slope_rows a.now.rows a.now.cols a.now.cells) ≡ Ok o) × IsElimination S e o)
        (λ e. HaltsAs (eliminate S a.now.cols params forced.now (slope_rows a.now.rows a.now.cols a.now.cells)) e) }
{
    let (mut w, tops) = match augmented(alloc, a) {
        Err(e) => return Err(e),
        Ok(start) => start,
    };
    let width = a.cols as usize + a.rows as usize;
    match forced_steps(alloc, &mut w, width, tops.as_slice(), forced) {
        Err(e) => return Err(e),
        Ok(()) => (),
    }
    match free_steps(
        alloc,
        &mut w,
        width,
        tops.as_slice(),
        params,
        forced,
        a.rows,
    ) {
        Err(e) => return Err(e),
        Ok(()) => (),
    }
    match finished(alloc, w, a.rows, a.cols, params) {
        Err(e) => Err(e),
        Ok(elim) => Ok(elim),
    }
}
