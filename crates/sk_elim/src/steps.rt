ghost use Rattle.std.specs.List.{All, range_with_len};
ghost use Rattle.std.specs.Prelude.{◌≡◌, ◌≢◌, pos, ◌*◌, ◌<◌, ◌≤◌, length, get_or, nat_lt, if◌then◌else◌, [], Some, None, Ok, MatchResult, IfSome, unsigned_abs};
ghost use Rattle.sk_num.specs.Scale.{IsScale};
ghost use Rattle.sk_elim.specs.Elimination.{cell, cell_at, is_flat, or_past_limit, pivoted, pivot_taken, forced_step, steps, has_column, has_row, better_column, best_column, column_taken, free_step};
ghost use Rattle.sk_elim.specs.Rows.{IsRow};
ghost use Rattle.sk_elim.specs.Faults.{HaltsAs, progress_of};

use crate::fault::ElimFault;
use crate::progress::{Pivot, Working, keep_pivot, keep_suspect};
use crate::rows::{at, clear_others, filled_places};
use sk_num::{Grid, Items};
use std::alloc::Global;

/// Whether a pivot is too small beside the row's greatest number at first.
fn is_flat<const S: u32>(value: Grid<S>, top: u64) -> bool
    ensures { result ≡ is_flat value.entry top }
{
    value.units().unsigned_abs() as u128 * 1048576 <= top as u128
}

/// Clears every other row.
fn pivot_on<const S: u32>(
    alloc: Global,
    rows: &mut Vec<Items<Grid<S>>>,
    width: usize,
    place: usize,
    column: usize,
) -> Result<(), ElimFault>
    requires scale { IsScale S }
    requires rows { All (IsRow width) rows.old.items }
    requires place_in { place < length rows.old.items }
    requires column_in { column < width }
    requires not_zero { cell_at rows.old.items place column ≢ pos 0 }
    ensures rows { All (IsRow width) rows.new.items }
    ensures count { length rows.new.items ≡ length rows.old.items }
    ensures value { MatchResult result
        (λ u. pivoted S place column (get_or rows.old.items place []) 0 rows.old.items ≡ Some rows.new.items)
        (λ e. HaltsAs (or_past_limit (pivoted S place column (get_or rows.old.items place []) 0 rows.old.items)) e) }
{
    let Ok(pivot) = rows[place].copy(alloc) else {
        return Err(ElimFault::NoMemory);
    };
    let filled = match filled_places(alloc, pivot.as_slice()) {
        Err(e) => return Err(e),
        Ok(filled) => filled,
    };
    match clear_others(alloc, rows, pivot.as_slice(), &filled, place, column) {
        None => Err(ElimFault::PastLimit),
        Some(()) => Ok(()),
    }
}

/// Pivots on a place.
fn take_pivot<const S: u32>(
    alloc: Global,
    w: &mut Working<S>,
    width: usize,
    row: u16,
    column: u16,
) -> Result<(), ElimFault>
    requires scale { IsScale S }
    requires rows { All (IsRow width) w.old.rows.items }
    requires row_in { row < length w.old.rows.items }
    requires column_in { column < width }
    requires not_zero { cell_at w.old.rows.items row column ≢ pos 0 }
    ensures rows { All (IsRow width) w.new.rows.items }
    ensures count { length w.new.rows.items ≡ length w.old.rows.items }
    ensures value { MatchResult result
        (λ u. pivot_taken S (progress_of S w.old) row column ≡ Ok (progress_of S w.new))
        (λ e. HaltsAs (pivot_taken S (progress_of S w.old) row column) e) }
{
    match pivot_on(alloc, &mut w.rows, width, row as usize, column as usize) {
        Err(e) => Err(e),
        Ok(()) => keep_pivot(&mut w.pivots, row, column),
    }
}

/// The number at a place of the rows.
fn number_at<const S: u32>(rows: &[Items<Grid<S>>], width: usize, row: u16, column: u16) -> Grid<S>
    requires rows { All (IsRow width) rows.now }
    requires row_in { row < length rows.now }
    requires column_in { column < width }
    ensures { result ≡ cell_at rows.now row column }
{
    at(rows[row as usize].as_slice(), column as usize)
}

/// A forced pivot.
fn forced_step<const S: u32>(
    alloc: Global,
    w: &mut Working<S>,
    width: usize,
    tops: &[u64],
    pair: (u16, u16),
) -> Result<(), ElimFault>
    requires scale { IsScale S }
    requires rows { All (IsRow width) w.old.rows.items }
    requires row_in { pair.0 < length w.old.rows.items }
    requires column_in { pair.1 < width }
    requires tops { length tops.now ≡ length w.old.rows.items }
    ensures rows { All (IsRow width) w.new.rows.items }
    ensures count { length w.new.rows.items ≡ length w.old.rows.items }
    ensures value { MatchResult result
        (λ u. forced_step S tops.now (progress_of S w.old) pair ≡ Ok (progress_of S w.new))
        (λ e. HaltsAs (forced_step S tops.now (progress_of S w.old) pair) e) }
{
    let (row, column) = pair;
    if is_flat(
        number_at(w.rows.as_slice(), width, row, column),
        tops[row as usize],
    ) {
        return Err(ElimFault::Flat(row));
    }
    take_pivot(alloc, w, width, row, column)
}

/// The forced pivots in order.
pub(crate) fn forced_steps<const S: u32>(
    alloc: Global,
    w: &mut Working<S>,
    width: usize,
    tops: &[u64],
    forced: &[(u16, u16)],
) -> Result<(), ElimFault>
    requires scale { IsScale S }
    requires rows { All (IsRow width) w.old.rows.items }
    requires forced_in { All (λ p. (p.0 < length w.old.rows.items) × (p.1 < width)) forced.now }
    requires tops { length tops.now ≡ length w.old.rows.items }
    ensures rows { All (IsRow width) w.new.rows.items }
    ensures count { length w.new.rows.items ≡ length w.old.rows.items }
    ensures value { MatchResult result
        (λ u. steps (forced_step S tops.now) (progress_of S w.old) forced.now ≡ Ok (progress_of S w.new))
        (λ e. HaltsAs (steps (forced_step S tops.now) (progress_of S w.old) forced.now) e) }
{
    for i in 0..forced.len() {
        if let Err(e) = forced_step(alloc, w, width, tops, forced[i]) {
            return Err(e);
        }
    }
    Ok(())
}

/// Whether a pivot stands in the column.
pub(crate) fn has_column(column: u16, pivots: &[Pivot]) -> bool
    ensures { result ≡ has_column column pivots.now }
{
    for p in pivots {
        if p.column == column {
            return true;
        }
    }
    false
}

/// Whether a pivot stands in the row.
pub(crate) fn has_row(row: u16, pivots: &[Pivot]) -> bool
    ensures { result ≡ has_row row pivots.now }
{
    for p in pivots {
        if p.row == row {
            return true;
        }
    }
    false
}

/// Whether the row is one of a forced pair.
fn is_forced(row: u16, forced: &[(u16, u16)]) -> bool
    ensures { result ≡ has_row row forced.now }
{
    for p in forced {
        if p.0 == row {
            return true;
        }
    }
    false
}

/// Whether the number at one column of a row is smaller than that at another.
fn is_smaller<const S: u32>(row: &[Grid<S>], one: u16, other: u16) -> bool
    requires one_in { one < length row.now }
    requires other_in { other < length row.now }
    ensures { result ≡ nat_lt (unsigned_abs (cell row.now one)) (unsigned_abs (cell row.now other)) }
{
    at(row, one as usize).units().unsigned_abs() < at(row, other as usize).units().unsigned_abs()
}

/// The best column so far, and one more. Whether that has a pivot is looked up only where it would
/// be better: a row has few numbers that aren't 0.
fn best_of<const S: u32>(
    row: &[Grid<S>],
    best: Option<u16>,
    column: u16,
    pivots: &[Pivot],
) -> Option<u16>
    requires column_in { column < length row.now }
    requires best_in { IfSome best (λ d. d < column) }
    ensures value { result ≡ (if has_column column pivots.now then best else better_column row.now best column) }
    ensures within { IfSome result (λ d. d ≤ column) }
{
    match best {
        None => if has_column(column, pivots) {
            None
        } else {
            Some(column)
        },
        Some(d) => if is_smaller(row, d, column) && !has_column(column, pivots) {
            Some(column)
        } else {
            Some(d)
        },
    }
}

/// The column below params without a pivot that has the greatest absolute number, the first where they tie.
fn best_column<const S: u32>(row: &[Grid<S>], params: u16, pivots: &[Pivot]) -> Option<u16>
    requires { params ≤ length row.now }
    ensures value { result ≡ best_column params pivots.now row.now }
    ensures within { IfSome result (λ d. d < params) }
{
    let mut best = None;
    for column in 0..params {
        best = best_of(row, best, column, pivots);
    }
    best
}

/// A row with the column chosen for it.
fn column_step<const S: u32>(
    alloc: Global,
    w: &mut Working<S>,
    width: usize,
    tops: &[u64],
    row: u16,
    best: Option<u16>,
) -> Result<(), ElimFault>
    requires scale { IsScale S }
    requires rows { All (IsRow width) w.old.rows.items }
    requires row_in { row < length w.old.rows.items }
    requires best_in { IfSome best (λ c. c < width) }
    requires tops { length tops.now ≡ length w.old.rows.items }
    ensures rows { All (IsRow width) w.new.rows.items }
    ensures count { length w.new.rows.items ≡ length w.old.rows.items }
    ensures value { MatchResult result
        (λ u. column_taken S tops.now (progress_of S w.old) row best ≡ Ok (progress_of S w.new))
        (λ e. HaltsAs (column_taken S tops.now (progress_of S w.old) row best) e) }
{
    match best {
        None => keep_suspect(&mut w.suspects, row),
        Some(column) => {
            if is_flat(
                number_at(w.rows.as_slice(), width, row, column),
                tops[row as usize],
            ) {
                return keep_suspect(&mut w.suspects, row);
            }
            take_pivot(alloc, w, width, row, column)
        }
    }
}

/// A row, unless it has a forced pivot.
fn free_step<const S: u32>(
    alloc: Global,
    w: &mut Working<S>,
    width: usize,
    tops: &[u64],
    params: u16,
    forced: &[(u16, u16)],
    row: u16,
) -> Result<(), ElimFault>
    requires scale { IsScale S }
    requires rows { All (IsRow width) w.old.rows.items }
    requires params_in { params ≤ width }
    requires row_in { row < length w.old.rows.items }
    requires tops { length tops.now ≡ length w.old.rows.items }
    ensures rows { All (IsRow width) w.new.rows.items }
    ensures count { length w.new.rows.items ≡ length w.old.rows.items }
    ensures value { MatchResult result
        (λ u. free_step S tops.now params forced.now (progress_of S w.old) row ≡ Ok (progress_of S w.new))
        (λ e. HaltsAs (free_step S tops.now params forced.now (progress_of S w.old) row) e) }
{
    if is_forced(row, forced) {
        return Ok(());
    }
    let best = best_column(w.rows[row as usize].as_slice(), params, w.pivots.as_slice());
    column_step(alloc, w, width, tops, row, best)
}

/// Each row in order, but for those with a forced pivot.
pub(crate) fn free_steps<const S: u32>(
    alloc: Global,
    w: &mut Working<S>,
    width: usize,
    tops: &[u64],
    params: u16,
    forced: &[(u16, u16)],
    count: u16,
) -> Result<(), ElimFault>
    requires scale { IsScale S }
    requires rows { All (IsRow width) w.old.rows.items }
    requires params_in { params ≤ width }
    requires count_is { count ≡ length w.old.rows.items }
    requires tops { length tops.now ≡ length w.old.rows.items }
    ensures rows { All (IsRow width) w.new.rows.items }
    ensures count { length w.new.rows.items ≡ length w.old.rows.items }
    ensures value { MatchResult result
        (λ u. steps (free_step S tops.now params forced.now) (progress_of S w.old) (range_with_len 0 count) ≡ Ok (progress_of S w.new))
        (λ e. HaltsAs (steps (free_step S tops.now params forced.now) (progress_of S w.old) (range_with_len 0 count)) e) }
{
    for row in 0..count {
        if let Err(e) = free_step(alloc, w, width, tops, params, forced, row) {
            return Err(e);
        }
    }
    Ok(())
}
