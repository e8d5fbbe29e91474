ghost use Rattle.std.specs.Prelude.{◌≡◌, ◌<◌, ℕ, false, length, get_or, map, All, IfOk, IfErr, Some, None};
ghost use Rattle.sk_num.specs.Scale.{IsScale};
ghost use Rattle.sk_num.specs.Each.{each_some};
ghost use Rattle.sk_expr.specs.Columns.{is_among, rises_from};
ghost use Rattle.sk_expr.specs.Tapes.{IsTape, plain_tape, row_tree};
ghost use Rattle.sk_expr.specs.ForwardSlopes.{found, picked};
ghost use Rattle.sk_expr.specs.SparseRows.{plain_sparse, sparse_slopes, collected, row_slopes};
ghost use Rattle.sk_expr.specs.EnclosingLaws.{EnclosesRows};
ghost use Rattle.sk_expr.specs.declared.fault.VisitFault.TheVariants.{PastLimit};

use crate::NoMemory;
use crate::dual::Dual;
use crate::fault::VisitFault;
use crate::forward::{Beside, all_duals};
use crate::tape::Tape;
use crate::values::node_values;
use sk_num::{Items, Span};
use std::alloc::Global;

/// The columns in which a row has a slope, and the spans of the slopes there.
#[derive(Debug, Drop)]
pub struct SparseRow<const S: u32> {
    /// The columns.
    pub columns: Items<u16>,
    /// The span of the slope in each of them.
    pub spans: Items<Span<S>>,
}

/// Columns and spans of the duals, in their order.
fn collected<const S: u32>(alloc: Global, duals: &[Beside<S>]) -> Result<SparseRow<S>, VisitFault>
    ensures row { IfOk result (λ r. collected duals.now ≡ Some (plain_sparse r)) }
    ensures past { IfErr result (λ e. e ≡ PastLimit → collected duals.now ≡ None) }
{
    let mut columns = Vec::with_capacity(alloc, duals.len())?;
    let mut spans = Vec::with_capacity(alloc, duals.len())?;
    for (column, dual) in duals {
        match dual {
            Some(dual) => {
                columns.push(*column)?;
                spans.push(dual.slope())?;
            }
            None => return Err(VisitFault::PastLimit),
        }
    }
    Ok(SparseRow {
        columns: Items::of(columns),
        spans: Items::of(spans),
    })
}

/// What is found beside a column.
fn found<const S: u32>(duals: &[Beside<S>], column: u16) -> Option<Option<Dual<S>>>
    ensures { result ≡ found duals.now column }
{
    for pair in duals {
        if pair.0 == column {
            return Some(pair.1);
        }
    }
    None
}

/// The columns that are found, in their order, with what is beside them.
fn picked<const S: u32>(
    alloc: Global,
    duals: &[Beside<S>],
    columns: &[u16],
) -> Result<Vec<Beside<S>>, NoMemory>
    ensures { IfOk result (λ v. v.items ≡ picked duals.now columns.now) }
{
    let mut picked = Vec::new(alloc);
    for column in columns {
        if let Some(dual) = found(duals, *column) {
            picked.push((*column, dual))?;
        }
    }
    Ok(picked)
}

/// Which columns are listed.
fn listed(alloc: Global, count: usize, columns: &[u16]) -> Result<Vec<bool>, NoMemory>
    requires { All (λ c. c < count) columns.now }
    ensures { IfOk result (λ v. (c : ℕ) → get_or v.items c false ≡ is_among columns.now c) }
{
    let mut listed = vec![in alloc; false; count]?;
    for column in columns {
        listed[*column as usize] = true;
    }
    Ok(listed)
}

fn rises(columns: &[u16]) -> bool
    ensures { result ≡ rises_from 0 columns.now }
{
    let mut least = 0u32;
    for column in columns {
        if (*column as u32) < least {
            return false;
        }
        least = *column as u32 + 1;
    }
    true
}

/// The slopes of a row whose root has that value and those duals.
fn row_slopes<const S: u32>(
    alloc: Global,
    value: &Option<Span<S>>,
    duals: &[Beside<S>],
    columns: &[u16],
    rises: bool,
) -> Result<SparseRow<S>, VisitFault>
    ensures row { IfOk result (λ r. row_slopes value.now duals.now columns.now rises ≡ Some (plain_sparse r)) }
    ensures past { IfErr result (λ e. e ≡ PastLimit → row_slopes value.now duals.now columns.now rises ≡ None) }
{
    if value.is_none() && !columns.is_empty() {
        return Err(VisitFault::PastLimit);
    }
    if rises {
        collected(alloc, duals)
    } else {
        let picked = picked(alloc, duals, columns)?;
        collected(alloc, &picked)
    }
}

impl<const S: u32> Tape<S> {
    fn sparse_rows(
        &self,
        alloc: Global,
        unknowns: &[Span<S>],
        cosines: &[Span<S>],
        rows: &[u16],
        columns: &[u16],
    ) -> Result<Vec<SparseRow<S>>, VisitFault>
        requires scale { IsScale S }
        requires form { IsTape (plain_tape self.now) }
        requires rows_in { All (λ r. r < length self.now.roots) rows.now }
        requires columns_in { All (λ c. c < length unknowns.now) columns.now }
        ensures value { IfOk result (λ v.
            each_some (λ r. sparse_slopes S unknowns.now cosines.now columns.now (row_tree (plain_tape self.now) r)) rows.now ≡ Some (map plain_sparse v.items)) }
        ensures past { IfErr result (λ e. e ≡ PastLimit →
            each_some (λ r. sparse_slopes S unknowns.now cosines.now columns.now (row_tree (plain_tape self.now) r)) rows.now ≡ None) }
    {
        let marks = self.marks(alloc, rows)?;
        let listed = listed(alloc, unknowns.len(), columns)?;
        let nodes = self.nodes.as_slice();
        let values = node_values::<S, Span<S>>(alloc, nodes, &marks, unknowns, cosines)?;
        let duals = all_duals(alloc, nodes, &marks, &values, unknowns, cosines, &listed)?;
        let rises = rises(columns);
        let mut sparse = Vec::with_capacity(alloc, rows.len())?;
        for row in rows {
            let place = self.place(*row);
            match row_slopes(
                alloc,
                &values[place],
                duals[place].as_slice(),
                columns,
                rises,
            ) {
                Ok(found) => sparse.push(found)?,
                Err(fault) => return Err(fault),
            }
        }
        Ok(sparse)
    }
    /// For each listed row the listed columns that occur in it, in their order, with the spans of the slopes there over
    /// spans of the unknowns and cosines; the slope in any other column is 0. PastLimit comes exactly where the slope of a
    /// listed row in a listed column passes the limit; an unknown or cosine that isn't listed counts as past it. Each span
    /// encloses the exact slope between any two points of the box. The nodes under the listed rows are gone through once,
    /// each with the listed columns that occur in it.
    pub fn slopes(
        &self,
        alloc: Global,
        unknowns: &[Span<S>],
        cosines: &[Span<S>],
        rows: &[u16],
        columns: &[u16],
    ) -> Result<Vec<SparseRow<S>>, VisitFault>
        requires scale { IsScale S }
        requires form { IsTape (plain_tape self.now) }
        requires rows_in { All (λ r. r < length self.now.roots) rows.now }
        requires columns_in { All (λ c. c < length unknowns.now) columns.now }
        ensures value { IfOk result (λ v.
            each_some (λ r. sparse_slopes S unknowns.now cosines.now columns.now (row_tree (plain_tape self.now) r)) rows.now ≡ Some (map plain_sparse v.items)) }
        ensures past { IfErr result (λ e. e ≡ PastLimit →
            each_some (λ r. sparse_slopes S unknowns.now cosines.now columns.now (row_tree (plain_tape self.now) r)) rows.now ≡ None) }
        ensures encloses { IfOk result (λ v.
            EnclosesRows S unknowns.now cosines.now (row_tree (plain_tape self.now)) rows.now (map plain_sparse v.items)) }
    {
        self.sparse_rows(alloc, unknowns, cosines, rows, columns)
    }
}
