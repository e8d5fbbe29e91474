ghost use Rattle.std.specs.Prelude.{◌≡◌, ◌∷◌, ◌<◌, ◌≤◌, ◌+◌, ◌*◌, ◌++◌, [], IfOk, IfErr, OnOk, Some, None, map, length, option_map};
ghost use Rattle.sk_num.specs.Scale.{IsScale};
ghost use Rattle.sk_expr.specs.Poly.{unknown};
ghost use Rattle.sk_expr.specs.Trees.{poly_of};
ghost use Rattle.sk_expr.specs.Rows.{row_of};
ghost use Rattle.sk_expr.specs.VectorViews.{third_of, vector_of};
ghost use Rattle.sk_expr.specs.FormulaViews.{auxiliary_of, relation_of, formula_of, numbers_of, polys_of, IsSmall, HasRoom, HasFewMore};
ghost use Rattle.sk_expr.specs.Formula.{own_row};
ghost use Rattle.sk_expr.specs.Visits.{grown_of};
ghost use Rattle.sk_expr.specs.Readings.{add_auxiliary, add_auxiliaries, greatest_place, without, lesser_of, relation_rows, all_relation_rows, rows_from, Grown, grown_by};
ghost use Rattle.sk_expr.specs.Follows.{Follows, Gives};
ghost use Rattle.sk_expr.specs.declared.fault.VisitFault.TheVariants.{PastLimit};

use crate::NoMemory;
use crate::building::{copy, mul, sub};
use crate::expr::{Expr, Tree};
use crate::fault::VisitFault;
use crate::formula::{Auxiliary, Formula, Relation};
use crate::readings::Readings;
use crate::row::{Auxiliaries, Row, RowKind, RowName, Rows};
use crate::vectors::Vector;
use crate::visited::Forced;
use sk_num::{Grid, Items, Span};
use smallvec::SmallVec;
use std::alloc::Global;

/// The own row of an auxiliary in this column.
fn own_row<const S: u32>(alloc: Global, column: u16, x: &Auxiliary<S>) -> Result<Tree<S>, NoMemory>
    ensures { IfOk result (λ e. poly_of e ≡ own_row (unknown column) (auxiliary_of {s = S} x.now)) }
{
    match x {
        Auxiliary::Length(a) => {
            let square = mul(alloc, Expr::Var(column), Expr::Var(column))?;
            let squared = a.squared(alloc)?;
            sub(alloc, square, squared)
        }
        Auxiliary::Quotient(n, d) => {
            let (n, d) = (copy(alloc, n)?, copy(alloc, d)?);
            let back = mul(alloc, Expr::Var(column), d)?;
            sub(alloc, n, back)
        }
    }
}

impl<const S: u32> Auxiliaries<S> {
    /// Appends an auxiliary with its own row.
    fn push(
        &mut self,
        alloc: Global,
        kind: RowKind,
        handle: u32,
        x: &Auxiliary<S>,
    ) -> Result<(), VisitFault>
        requires scale { IsScale S }
        requires unknowns { length self.old.unknowns < 65535 }
        requires rows { length self.old.rows < 65535 }
        ensures follows { Follows (add_auxiliary S kind handle (auxiliary_of {s = S} x.now) (grown_of self.old)) (grown_of self.new) result }
        ensures unknowns { OnOk result (length self.new.unknowns ≡ length self.old.unknowns + 1) }
        ensures rows { OnOk result (length self.new.rows ≡ length self.old.rows + 1) }
        ensures cosines { self.new.cosines ≡ self.old.cosines }
    {
        let Some(value) = self.value(x) else {
            return Err(VisitFault::PastLimit);
        };
        let row = self.rows.as_slice().len() as u16;
        let column = self.unknowns.as_slice().len() as u16;
        let tree = own_row(alloc, column, x)?;
        let name = RowName {
            kind,
            handle,
            index: 255,
        };
        self.rows.push(Row { name, tree })?;
        self.unknowns.push(value)?;
        let length = matches!(x, Auxiliary::Length(_));
        self.forced.push(Forced {
            row,
            column,
            length,
        })?;
        Ok(())
    }

    /// Appends auxiliaries with their own rows, each by the readings that the earlier ones leave.
    fn push_all(
        &mut self,
        alloc: Global,
        kind: RowKind,
        handle: u32,
        xs: &[Auxiliary<S>],
    ) -> Result<(), VisitFault>
        requires scale { IsScale S }
        requires unknowns { length self.old.unknowns + length xs.now ≤ 65535 }
        requires rows { length self.old.rows + length xs.now ≤ 65535 }
        ensures follows { Follows (add_auxiliaries S kind handle (map (auxiliary_of {s = S}) xs.now) (grown_of self.old)) (grown_of self.new) result }
        ensures unknowns { OnOk result (length self.new.unknowns ≡ length self.old.unknowns + length xs.now) }
        ensures rows { OnOk result (length self.new.rows ≡ length self.old.rows + length xs.now) }
        ensures cosines { self.new.cosines ≡ self.old.cosines }
    {
        for x in xs {
            self.push(alloc, kind, handle, x)?;
        }
        Ok(())
    }
}

impl<const S: u32> Readings<S> {
    /// The place of the greatest reading by absolute value, the first of equal ones.
    fn greatest(&self) -> usize
        ensures place { result ≡ greatest_place (numbers_of self.now) }
        ensures small { result < 3 }
    {
        let x = self.x.units().unsigned_abs();
        let y = self.y.units().unsigned_abs();
        let z = match self.z {
            Some(z) => z.units().unsigned_abs(),
            None => 0,
        };
        if y <= x && z <= x {
            0
        } else if z <= y {
            1
        } else {
            2
        }
    }
}

fn push_third<const S: u32>(
    alloc: Global,
    trees: &mut Vec<Tree<S>>,
    z: &Option<Tree<S>>,
) -> Result<(), NoMemory>
    ensures trees { OnOk result (polys_of trees.new.items ≡ polys_of trees.old.items ++ third_of z.now) }
    ensures few { OnOk result (length trees.new.items ≤ length trees.old.items + 1) }
{
    if let Some(z) = z {
        trees.push(copy(alloc, z)?)?;
    }
    Ok(())
}

/// Appends the components of a vector but the one in this place.
#[tactic(auto, unfolding(crate::specs::VectorViews::vector_of))]
fn push_without<const S: u32>(
    alloc: Global,
    trees: &mut Vec<Tree<S>>,
    a: &Vector<S>,
    place: usize,
) -> Result<(), NoMemory>
    requires { place < 3 }
    ensures trees { OnOk result (polys_of trees.new.items ≡ polys_of trees.old.items ++ without place (vector_of a.now)) }
    ensures few { OnOk result (length trees.new.items ≤ length trees.old.items + 2) }
{
    match place {
        0 => {
            trees.push(copy(alloc, &a.y)?)?;
            push_third(alloc, trees, &a.z)?;
            Ok(())
        }
        1 => {
            trees.push(copy(alloc, &a.x)?)?;
            push_third(alloc, trees, &a.z)?;
            Ok(())
        }
        _ => {
            trees.push(copy(alloc, &a.x)?)?;
            trees.push(copy(alloc, &a.y)?)?;
            Ok(())
        }
    }
}

/// Appends the one of two trees that reads less by absolute value, the first where both read the same.
fn push_lesser<const S: u32>(
    alloc: Global,
    trees: &mut Vec<Tree<S>>,
    t: &Tree<S>,
    u: &Tree<S>,
    x: Grid<S>,
    y: Grid<S>,
) -> Result<(), NoMemory>
    ensures trees { OnOk result (polys_of trees.new.items ≡ polys_of trees.old.items ++ lesser_of (poly_of t.now) (poly_of u.now) x.entry y.entry ∷ []) }
    ensures few { OnOk result (length trees.new.items ≤ length trees.old.items + 1) }
{
    if x.units().unsigned_abs() <= y.units().unsigned_abs() {
        trees.push(copy(alloc, t)?)?;
        Ok(())
    } else {
        trees.push(copy(alloc, u)?)?;
        Ok(())
    }
}

impl<const S: u32> Auxiliaries<S> {
    /// Appends the rows of a relation.
    fn push_rows(
        &self,
        alloc: Global,
        trees: &mut Vec<Tree<S>>,
        relation: &Relation<S>,
    ) -> Result<(), VisitFault>
        requires { IsScale S }
        ensures follows { Follows (option_map (λ ts. polys_of trees.old.items ++ ts) (relation_rows S (grown_of self.now) (relation_of {s = S} relation.now)))
            (polys_of trees.new.items) result }
        ensures few { OnOk result (length trees.new.items ≤ length trees.old.items + 3) }
    {
        match relation {
            Relation::Row(t) => {
                trees.push(copy(alloc, t)?)?;
                Ok(())
            }
            Relation::WithoutGreatest(a, b) => {
                let Some(readings) = self.readings(a) else {
                    return Err(VisitFault::PastLimit);
                };
                let place = readings.greatest();
                push_without(alloc, trees, b, place)?;
                Ok(())
            }
            Relation::Lesser(t, u) => {
                let Some(x) = self.reading(t) else {
                    return Err(VisitFault::PastLimit);
                };
                let Some(y) = self.reading(u) else {
                    return Err(VisitFault::PastLimit);
                };
                push_lesser(alloc, trees, t, u, x, y)?;
                Ok(())
            }
        }
    }

    /// The rows of relations.
    fn relation_trees(
        &self,
        alloc: Global,
        relations: &[Relation<S>],
    ) -> Result<Vec<Tree<S>>, VisitFault>
        requires { IsScale S }
        ensures gives { Gives (all_relation_rows S (grown_of self.now) (map (relation_of {s = S}) relations.now)) result (λ v. polys_of v.items) }
        ensures few { IfOk result (λ v. length v.items ≤ 3 * length relations.now) }
    {
        let mut trees = Vec::new(alloc);
        for relation in relations {
            self.push_rows(alloc, &mut trees, relation)?;
        }
        Ok(trees)
    }
}

fn push_spans<const S: u32>(cosines: &mut Items<Span<S>>, more: &[Span<S>]) -> Result<(), NoMemory>
    ensures spans { OnOk result (cosines.new ≡ cosines.old ++ more.now) }
{
    for cosine in more {
        cosines.push(*cosine)?;
    }
    Ok(())
}

/// Relation rows, named by their numbers from 0.
fn named<const S: u32>(
    alloc: Global,
    kind: RowKind,
    handle: u32,
    trees: &[Tree<S>],
) -> Result<Rows<S>, NoMemory>
    requires { length trees.now ≤ 255 }
    ensures rows { IfOk result (λ v. map (row_of {s = S}) v.items ≡ rows_from kind handle 0 (polys_of trees.now)) }
    ensures few { IfOk result (λ v. length v.items ≡ length trees.now) }
{
    let mut rows = SmallVec::new(alloc);
    let mut index = 0;
    for tree in trees {
        let name = RowName {
            kind,
            handle,
            index,
        };
        let tree = copy(alloc, tree)?;
        rows.push(Row { name, tree })?;
        index += 1;
    }
    Ok(rows)
}

impl<const S: u32> Auxiliaries<S> {
    /// Appends the auxiliaries of a formula with their own rows, and its cosines, and gives its relation rows. PastLimit
    /// comes exactly where a reading that the formula takes passes the limit. After a fault it is unknown what is appended.
    #[tactic(auto, unfolding(crate::specs::Readings::grown_by))]
    pub fn grow(
        &mut self,
        alloc: Global,
        kind: RowKind,
        handle: u32,
        formula: &Formula<S>,
    ) -> Result<Rows<S>, VisitFault>
        requires scale { IsScale S }
        requires small { IsSmall formula.now }
        requires room { HasRoom self.old }
        ensures rows { IfOk result (λ v.
            grown_by S kind handle (formula_of formula.now) (grown_of self.old) ≡ Some (record { seen = grown_of self.new; rows = map (row_of {s = S}) v.items })) }
        ensures past { IfErr result (λ e. e ≡ PastLimit → grown_by S kind handle (formula_of formula.now) (grown_of self.old) ≡ None) }
        ensures few { IfOk result (λ v. length v.items ≤ 9) }
        ensures few_more { OnOk result (HasFewMore self.old self.new) }
    {
        self.push_all(alloc, kind, handle, formula.auxiliaries.as_slice())?;
        let trees = self.relation_trees(alloc, formula.relations.as_slice())?;
        push_spans(&mut self.cosines, formula.cosines.as_slice())?;
        let rows = named(alloc, kind, handle, &trees)?;
        Ok(rows)
    }
}
