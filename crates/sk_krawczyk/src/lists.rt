ghost use Rattle.std.specs.Prelude.{◌≡◌, ◌≤◌, length, ◌++◌, ◌∷◌, [], map, MatchResult, if◌then◌else◌};
ghost use Rattle.std.specs.List.{filter, range_with_len};
ghost use Rattle.sk_num.specs.Ends.{point};
ghost use Rattle.sk_expr.specs.Columns.{is_among};
ghost use Rattle.sk_expr.specs.Visits.{pivot_of};
ghost use Rattle.sk_expr.specs.declared.fault.VisitFault.TheVariants.{NoMemory};
ghost use Rattle.sk_krawczyk.specs.Answers.{others};

use sk_expr::{Forced, VisitFault};
use sk_num::{Grid, Items, OfGrid, Span};
use std::alloc::Global;

/// How many elements a list has.
pub(crate) fn count<T>(list: &Items<T>) -> u16
    requires { length list.now ≤ 65535 }
    ensures { result ≡ length list.now }
{
    list.as_slice().len() as u16
}

/// The box of one point.
pub(crate) fn points<const S: u32>(
    alloc: Global,
    numbers: &Items<Grid<S>>,
) -> Result<Items<Span<S>>, VisitFault>
    ensures { MatchResult result (λ es. es ≡ map point numbers.now) (λ e. e ≡ NoMemory) }
{
    let mut list = Vec::new(alloc);
    for number in numbers.as_slice() {
        list.push(Span::of_grid(*number))?;
    }
    Ok(Items::of(list))
}

/// The numbers below `n`.
pub(crate) fn below(alloc: Global, n: u16) -> Result<Items<u16>, VisitFault>
    ensures { MatchResult result (λ ks. ks ≡ range_with_len 0 n) (λ e. e ≡ NoMemory) }
{
    let mut list = Vec::new(alloc);
    for k in 0..n {
        list.push(k)?;
    }
    Ok(Items::of(list))
}

fn is_among(listed: &Items<u16>, c: u16) -> bool
    ensures { result ≡ is_among listed.now c }
{
    for k in listed.as_slice() {
        if *k == c {
            return true;
        }
    }
    false
}

fn keep_if(list: &mut Vec<u16>, n: u16, wanted: bool) -> Result<(), VisitFault>
    ensures { MatchResult result (λ u. list.new.items ≡ list.old.items ++ (if wanted then n ∷ [] else [])) (λ e. e ≡ NoMemory) }
{
    if wanted {
        list.push(n)?;
    }
    Ok(())
}

/// The numbers below `n` that aren't listed.
pub(crate) fn others(alloc: Global, n: u16, listed: &Items<u16>) -> Result<Items<u16>, VisitFault>
    ensures { MatchResult result (λ ks. ks ≡ others n listed.now) (λ e. e ≡ NoMemory) }
{
    let mut list = Vec::new(alloc);
    for k in 0..n {
        match keep_if(&mut list, k, !is_among(listed, k)) {
            Err(e) => return Err(e),
            Ok(()) => (),
        }
    }
    Ok(Items::of(list))
}

/// The forced pivots as pairs of row and column.
pub(crate) fn pairs(alloc: Global, forced: &Items<Forced>) -> Result<Items<(u16, u16)>, VisitFault>
    ensures { MatchResult result (λ ps. ps ≡ map (λ f. (f.row, f.column)) (map pivot_of forced.now)) (λ e. e ≡ NoMemory) }
{
    let mut list = Vec::new(alloc);
    for pivot in forced.as_slice() {
        list.push((pivot.row, pivot.column))?;
    }
    Ok(Items::of(list))
}

/// The columns of the lengths.
pub(crate) fn lengths(alloc: Global, forced: &Items<Forced>) -> Result<Items<u16>, VisitFault>
    ensures { MatchResult result (λ cs. cs ≡ map (λ f. f.column) (filter (λ f. f.is_length) (map pivot_of forced.now))) (λ e. e ≡ NoMemory) }
{
    let mut list = Vec::new(alloc);
    for pivot in forced.as_slice() {
        match keep_if(&mut list, pivot.column, pivot.length) {
            Err(e) => return Err(e),
            Ok(()) => (),
        }
    }
    Ok(Items::of(list))
}
