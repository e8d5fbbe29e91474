ghost use Rattle.std.specs.List.{All};
ghost use Rattle.std.specs.Prelude.{◌≡◌, ◌≢◌, ℕ, ℤ, pos, ◌*ℤ◌, ◌^◌, ◌++◌, ◌∷◌, [], ◌*◌, ◌<◌, ◌≤◌, nat_le, length, slice_set, Some, None, IsTrue, MatchOption, MatchResult, if◌then◌else◌, unsigned_abs};
ghost use Rattle.sk_num.specs.Limit.{IsInLimit};
ghost use Rattle.sk_num.specs.Rounding.{rounded_product};
ghost use Rattle.sk_num.specs.Scale.{IsScale};
ghost use Rattle.sk_elim.specs.Elimination.{cell, cell_less, row_less, cleared, pivoted, greatest_cell};
ghost use Rattle.sk_elim.specs.Filled.{is_filled, filled_places, less_at};
ghost use Rattle.sk_elim.specs.Rows.{IsRow};
ghost use Rattle.sk_elim.specs.declared.fault.ElimFault.TheVariants.{NoMemory};

use crate::fault::ElimFault;
use sk_num::{Divisor, Grid, Items, rmul, rmul_small};
use std::alloc::Global;
use std::mem;

/// The number at a place of a row.
pub(crate) fn at<const S: u32>(row: &[Grid<S>], k: usize) -> Grid<S>
    requires { k < length row.now }
    ensures value { result ≡ cell row.now k }
    ensures fits { IsInLimit result }
{
    let number = row[k];
    let _ = number.units();
    number
}

/// The greatest absolute number of a row.
pub(crate) fn greatest<const S: u32>(row: &[Grid<S>]) -> u64
    ensures { result ≡ greatest_cell row.now }
{
    let mut top = 0u64;
    for number in row {
        top = top.max(number.units().unsigned_abs());
    }
    top
}

/// The product, none where it passes the limit. One that is known to be small is the quicker.
fn product<const S: u32>(factor: Grid<S>, p: Grid<S>, is_small: bool) -> Option<Grid<S>>
    requires scale { IsScale S }
    requires small { IsTrue is_small → unsigned_abs (factor *ℤ p) ≤ 2 ^ 96 }
    ensures { result ≡ rounded_product S factor.entry p.entry }
{
    if is_small {
        Some(rmul_small(factor, p))
    } else {
        rmul(factor, p)
    }
}

fn keep_if(places: &mut Vec<usize>, place: usize, wanted: bool) -> Result<(), ElimFault>
    ensures { MatchResult result (λ u. places.new.items ≡ places.old.items ++ (if wanted then place ∷ [] else [])) (λ e. e ≡ NoMemory) }
{
    if wanted {
        if places.push(place).is_err() {
            return Err(ElimFault::NoMemory);
        }
    }
    Ok(())
}

/// Whether a number isn't 0.
fn is_filled<const S: u32>(number: Grid<S>) -> bool
    ensures { result ≡ is_filled number.entry }
{
    number.units() != 0
}

/// The places of a row where it isn't 0, in order.
pub(crate) fn filled_places<const S: u32>(
    alloc: Global,
    row: &[Grid<S>],
) -> Result<Vec<usize>, ElimFault>
    ensures { MatchResult result (λ v. v.items ≡ filled_places row.now) (λ e. e ≡ NoMemory) }
{
    let mut places = Vec::new(alloc);
    for place in 0..row.len() {
        match keep_if(&mut places, place, is_filled(at(row, place))) {
            Err(e) => return Err(e),
            Ok(()) => (),
        }
    }
    Ok(places)
}

/// Takes factor times p from the number at a place.
fn lessen<const S: u32>(
    row: &mut Items<Grid<S>>,
    place: usize,
    factor: Grid<S>,
    p: Grid<S>,
    is_small: bool,
) -> Option<()>
    requires scale { IsScale S }
    requires small { IsTrue is_small → unsigned_abs (factor *ℤ p) ≤ 2 ^ 96 }
    requires inside { place < length row.old }
    requires within { (j : ℕ) → IsInLimit (cell row.old j) }
    ensures same_size { length row.new ≡ length row.old }
    ensures within { (j : ℕ) → IsInLimit (cell row.new j) }
    ensures value { MatchOption result
        (cell_less S factor.entry (cell row.old place) p.entry ≡ None)
        (λ u. (y : ℤ) × (cell_less S factor.entry (cell row.old place) p.entry ≡ Some y) × (row.new ≡ slice_set row.old place y)) }
{
    let taken = product(factor, p, is_small)?;
    let number = at(row.as_slice(), place).checked_sub(taken)?;
    let _ = number.units();
    row.put(place, number);
    Some(())
}

/// Takes factor times the pivot's row from a row, at some places of it.
fn lessen_at<const S: u32>(
    row: &mut Items<Grid<S>>,
    pivot: &[Grid<S>],
    places: &[usize],
    factor: Grid<S>,
    is_small: bool,
) -> Option<()>
    requires scale { IsScale S }
    requires small { IsTrue is_small → (k : ℕ) → unsigned_abs (factor *ℤ cell pivot.now k) ≤ 2 ^ 96 }
    requires row { IsRow (length pivot.now) row.old }
    requires inside { All (λ k. k < length pivot.now) places.now }
    ensures row { IsRow (length pivot.now) row.new }
    ensures value { MatchOption result (less_at S factor.entry pivot.now places.now row.old ≡ None) (λ u. less_at S factor.entry pivot.now places.now row.old ≡ Some row.new) }
{
    for i in 0..places.len() {
        match lessen(row, places[i], factor, at(pivot, places[i]), is_small) {
            None => return None,
            Some(()) => (),
        }
    }
    Some(())
}

/// Whether a number times each number of a row is small: the greatest product bounds all.
fn is_small<const S: u32>(factor: Grid<S>, row: &[Grid<S>], top: u64) -> bool
    requires { top ≡ greatest_cell row.now }
    ensures value { result ≡ nat_le (unsigned_abs factor.entry * greatest_cell row.now) (2 ^ 96) }
    ensures small { IsTrue result → (k : ℕ) → unsigned_abs (factor.entry *ℤ cell row.now k) ≤ 2 ^ 96 }
{
    factor.units().unsigned_abs() as u128 * top as u128 <= 1 << 96
}

/// Takes factor times the pivot's row from a row. Where that is 0 nothing is computed.
fn subtract<const S: u32>(
    row: &mut Items<Grid<S>>,
    pivot: &[Grid<S>],
    filled: &[usize],
    top: u64,
    factor: Grid<S>,
) -> Option<()>
    requires scale { IsScale S }
    requires row { IsRow (length pivot.now) row.old }
    requires filled { filled.now ≡ filled_places pivot.now }
    requires top { top ≡ greatest_cell pivot.now }
    ensures row { IsRow (length pivot.now) row.new }
    ensures value { MatchOption result (row_less S factor.entry row.old pivot.now ≡ None) (λ u. row_less S factor.entry row.old pivot.now ≡ Some row.new) }
{
    match lessen_at(row, pivot, filled, factor, is_small(factor, pivot, top)) {
        None => None,
        Some(()) => Some(()),
    }
}

/// Clears a row in the column by the pivot's row, which isn't 0 there. A row that is 0 there stays as it is.
fn clear<const S: u32>(
    row: &mut Items<Grid<S>>,
    pivot: &[Grid<S>],
    filled: &[usize],
    top: u64,
    column: usize,
    divisor: &Divisor<S>,
) -> Option<()>
    requires scale { IsScale S }
    requires row { IsRow (length pivot.now) row.old }
    requires filled { filled.now ≡ filled_places pivot.now }
    requires top { top ≡ greatest_cell pivot.now }
    requires column_in { column < length pivot.now }
    requires divisor { divisor.now ≡ cell pivot.now column }
    requires not_zero { cell pivot.now column ≢ pos 0 }
    ensures row { IsRow (length pivot.now) row.new }
    ensures value { MatchOption result (cleared S column pivot.now row.old ≡ None) (λ u. cleared S column pivot.now row.old ≡ Some row.new) }
{
    let number = at(row.as_slice(), column);
    if number == Grid::zero() {
        return Some(());
    }
    let factor = divisor.quotient(number)?;
    subtract(row, pivot, filled, top, factor)?;
    row.put(column, Grid::zero());
    Some(())
}

/// Clears every other row in the column by the row of the pivot.
pub(crate) fn clear_others<const S: u32>(
    alloc: Global,
    rows: &mut Vec<Items<Grid<S>>>,
    pivot: &[Grid<S>],
    filled: &[usize],
    place: usize,
    column: usize,
) -> Option<()>
    requires scale { IsScale S }
    requires rows { All (IsRow (length pivot.now)) rows.old.items }
    requires filled { filled.now ≡ filled_places pivot.now }
    requires column_in { column < length pivot.now }
    requires not_zero { cell pivot.now column ≢ pos 0 }
    ensures rows { All (IsRow (length pivot.now)) rows.new.items }
    ensures count { length rows.new.items ≡ length rows.old.items }
    ensures value { MatchOption result (pivoted S place column pivot.now 0 rows.old.items ≡ None) (λ u. pivoted S place column pivot.now 0 rows.old.items ≡ Some rows.new.items) }
{
    let top = greatest(pivot);
    let divisor = Divisor::new(at(pivot, column));
    for i in 0..rows.len() {
        if i != place {
            let mut row = mem::replace(&mut rows[i], Items::of(Vec::new(alloc)));
            let done = clear(&mut row, pivot, filled, top, column, &divisor);
            rows[i] = row;
            done?;
        }
    }
    Some(())
}
