ghost use Rattle.std.specs.List.{All};
ghost use Rattle.std.specs.Prelude.{◌≡◌, ◌<◌, length, get_or, pos, List, Some, None, MatchResult, map};
ghost use Rattle.sk_num.specs.Ends.{Ends, point};
ghost use Rattle.sk_num.specs.Scale.{IsScale};
ghost use Rattle.sk_num.specs.Each.{each_some};
ghost use Rattle.sk_expr.specs.Tapes.{IsTape, plain_tape, root_trees};
ghost use Rattle.sk_expr.specs.declared.fault.VisitFault.TheVariants.{PastLimit, NoMemory};
ghost use Rattle.sk_krawczyk.specs.RowReadings.{row_value};
ghost use Rattle.sk_krawczyk.specs.IntervalTest.{is_off_zero, suspects_of};
ghost use Rattle.sk_krawczyk.specs.Answers.{with_name, named_suspect};

use crate::certificate::Suspect;
use crate::rows::values_over;
use sk_expr::{RowName, VisitFault, Visited};
use sk_num::{Items, Span};
use std::alloc::Global;

fn is_off_zero<const S: u32>(e: &Span<S>) -> bool
    ensures { result ≡ is_off_zero e.now }
{
    e.lo().units() > 0 || e.hi().units() < 0
}

fn suspect<const S: u32>(names: &Items<RowName>, row: u16, e: &Span<S>) -> Suspect
    requires { row < length names.now }
    ensures { named_suspect result ≡ with_name names.now (record { row = row; misses = is_off_zero e.now }) }
{
    Suspect {
        row: names.as_slice()[row as usize],
        misses: is_off_zero(e),
    }
}

fn suspect_at<const S: u32>(
    names: &Items<RowName>,
    listed: &Items<u16>,
    spans: &Items<Span<S>>,
    i: usize,
) -> Suspect
    requires named { All (λ r. r < length names.now) listed.now }
    requires listed_in { i < length listed.now }
    requires spans_in { i < length spans.now }
    ensures { named_suspect result ≡ with_name names.now (record { row = get_or listed.now i 0; misses = is_off_zero (get_or spans.now i (point (pos 0))) }) }
{
    suspect(names, listed.as_slice()[i], &spans.as_slice()[i])
}

/// The suspects with what their spans say.
fn judged<const S: u32>(
    alloc: Global,
    names: &Items<RowName>,
    listed: &Items<u16>,
    spans: &Items<Span<S>>,
) -> Result<Items<Suspect>, VisitFault>
    requires named { All (λ r. r < length names.now) listed.now }
    requires one_each { length spans.now ≡ length listed.now }
    ensures { MatchResult result
        (λ list. map named_suspect list ≡ map (with_name names.now) (suspects_of listed.now spans.now))
        (λ e. e ≡ NoMemory) }
{
    let mut list = Vec::new(alloc);
    for i in 0..listed.as_slice().len() {
        list.push(suspect_at(names, listed, spans, i))?;
    }
    Ok(Items::of(list))
}

/// The suspects with what they are over a box.
pub(crate) fn suspects_over<const S: u32>(
    alloc: Global,
    v: &Visited<S>,
    over: &Items<Span<S>>,
    listed: &Items<u16>,
) -> Result<Items<Suspect>, VisitFault>
    requires scale { IsScale S }
    requires form { IsTape (plain_tape v.now.tape) }
    requires rows_in { All (λ r. r < length v.now.tape.roots) listed.now }
    requires one_each { length v.now.rows ≡ length v.now.tape.roots }
    ensures { MatchResult result
        (λ list. (spans : List Ends)
        × (each_some (row_value S over.now v.now.cosines (root_trees (plain_tape v.now.tape))) listed.now ≡ Some spans)
        × (map named_suspect list ≡ map (with_name v.now.rows) (suspects_of listed.now spans)))
        (λ e. e ≡ PastLimit → each_some (row_value S over.now v.now.cosines (root_trees (plain_tape v.now.tape))) listed.now ≡ None) }
{
    let spans = match values_over(alloc, v, over, listed) {
        Err(e) => return Err(e),
        Ok(spans) => spans,
    };
    match judged(alloc, &v.rows, listed, &spans) {
        Err(e) => Err(e),
        Ok(list) => Ok(list),
    }
}
