ghost use Rattle.std.specs.List.{All, list_all};
ghost use Rattle.std.specs.Prelude.{◌≡◌, ◌≤◌, ◌<◌, ◌^◌, pos, ◌+ℤ◌, ◌-ℤ◌, length, get_or, MatchResult, true, false};
ghost use Rattle.sk_num.specs.Ends.{span_between};
ghost use Rattle.sk_expr.specs.declared.fault.VisitFault.TheVariants.{PastLimit};
ghost use Rattle.std.specs.Int.{is_positive};
ghost use Rattle.sk_krawczyk.specs.StoredBox.{is_length_positive, reach_of, are_ends_in, box_from};

use crate::radii::size_at;
use sk_expr::VisitFault;
use sk_num::{Grid, Items, Span};
use std::alloc::Global;

/// How far the box reaches in an unknown: the radius of a solved column, 0 in a held one.
fn reach<const S: u32>(solved: &Items<u16>, radii: &Items<Grid<S>>, c: u16) -> u64
    requires { length radii.now ≡ length solved.now }
    ensures value { result ≡ reach_of solved.now radii.now c }
    ensures small { result ≤ 2 ^ 62 }
{
    let mut reach = 0;
    let columns = solved.as_slice();
    for j in 0..columns.len() {
        if columns[j] == c {
            reach = size_at(radii, j);
        }
    }
    reach
}

/// The numbers as far as `reach` from a number.
fn around<const S: u32>(x: Grid<S>, reach: u64) -> Option<Span<S>>
    requires { reach ≤ 2 ^ 62 }
    ensures { result ≡ span_between (x.entry -ℤ pos reach) (x.entry +ℤ pos reach) }
{
    let reach = Grid::from_units(reach as i64)?;
    let middle = Span::new(x, x);
    let width = Span::new(reach, reach);
    let below = middle.sub(&width)?;
    let above = middle.add(&width)?;
    Some(Span::new(below.lo(), above.hi()))
}

/// The box of the radii round a centre.
pub(crate) fn over<const S: u32>(
    alloc: Global,
    centre: &Items<Grid<S>>,
    solved: &Items<u16>,
    radii: &Items<Grid<S>>,
) -> Result<Items<Span<S>>, VisitFault>
    requires radii_size { length radii.now ≡ length solved.now }
    requires few { length centre.now ≤ 65535 }
    ensures { MatchResult result
        (λ v. (v ≡ box_from solved.now radii.now 0 centre.now) × (list_all are_ends_in v ≡ true))
        (λ e. e ≡ PastLimit → list_all are_ends_in (box_from solved.now radii.now 0 centre.now) ≡ false) }
{
    let mut list = Vec::new(alloc);
    let numbers = centre.as_slice();
    for c in 0..numbers.len() {
        let Some(span) = around(numbers[c], reach(solved, radii, c as u16)) else {
            return Err(VisitFault::PastLimit);
        };
        if list.push(span).is_err() {
            return Err(VisitFault::NoMemory);
        }
    }
    Ok(Items::of(list))
}

fn number_at<const S: u32>(centre: &Items<Grid<S>>, c: u16) -> Grid<S>
    requires { c < length centre.now }
    ensures { result ≡ get_or centre.now c (pos 0) }
{
    centre.as_slice()[c as usize]
}

fn is_above<const S: u32>(x: Grid<S>, reach: u64) -> bool
    requires { reach ≤ 2 ^ 62 }
    ensures { result ≡ is_positive (x.entry -ℤ pos reach) }
{
    x.units() > reach as i64
}

/// Whether each length is above how far the box reaches in it.
pub(crate) fn are_lengths_positive<const S: u32>(
    centre: &Items<Grid<S>>,
    solved: &Items<u16>,
    radii: &Items<Grid<S>>,
    lengths: &Items<u16>,
) -> bool
    requires radii_size { length radii.now ≡ length solved.now }
    requires inside { All (λ c. c < length centre.now) lengths.now }
    ensures { result ≡ list_all (is_length_positive solved.now radii.now centre.now) lengths.now }
{
    let columns = lengths.as_slice();
    for i in 0..columns.len() {
        let c = columns[i];
        if !is_above(number_at(centre, c), reach(solved, radii, c)) {
            return false;
        }
    }
    true
}
