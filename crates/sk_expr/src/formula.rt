ghost use Rattle.std.specs.Prelude.{◌≡◌, ◌∷◌, ◌+◌, ◌≤◌, [], length, IfOk};
ghost use Rattle.sk_expr.specs.FormulaViews.{formula_of, auxiliary_of, relation_of};
ghost use Rattle.sk_expr.specs.Trees.{poly_of};
ghost use Rattle.sk_expr.specs.VectorViews.{vector_of};
ghost use Rattle.sk_expr.specs.Formula.{formula, then_auxiliaries, then_cosine, then_relation, then_rows, parallel, perpendicular};

use crate::NoMemory;
use crate::expr::Tree;
use crate::vectors::Vector;
use sk_num::{Items, Span};
use std::alloc::Global;

/// An unknown `x` with a row of its own.
#[derive(Debug, Drop)]
pub enum Auxiliary<const S: u32> {
    /// The length of a vector `a`: its row is `x x - |a|^2`.
    Length(Vector<S>),
    /// The quotient of `n` and `d`: its row is `n - x d`.
    Quotient(Tree<S>, Tree<S>),
}

/// One or more relation rows, some of them chosen by readings.
#[derive(Debug, Drop)]
pub enum Relation<const S: u32> {
    /// This row.
    Row(Tree<S>),
    /// The components of the second vector, without the one in whose place the first reads greatest.
    WithoutGreatest(Vector<S>, Vector<S>),
    /// Of two the one that reads less, by absolute value.
    Lesser(Tree<S>, Tree<S>),
}

/// What a constraint adds to a system: its auxiliaries, its cosines and its relation rows. The first auxiliary is the
/// unknown behind all that are there before, and the first cosine likewise.
#[derive(Debug, Drop)]
pub struct Formula<const S: u32> {
    /// The auxiliaries, in order.
    pub auxiliaries: Items<Auxiliary<S>>,
    /// The cosines.
    pub cosines: Items<Span<S>>,
    /// The relation rows.
    pub relations: Items<Relation<S>>,
}

impl<const S: u32> Formula<S> {
    /// A formula with nothing.
    pub fn empty(alloc: Global) -> Formula<S>
        ensures formula { formula_of result ≡ formula [] [] }
        ensures sizes { (length result.auxiliaries ≡ 0) × (length result.cosines ≡ 0) × (length result.relations ≡ 0) }
    {
        Formula {
            auxiliaries: Items::of(Vec::new(alloc)),
            cosines: Items::of(Vec::new(alloc)),
            relations: Items::of(Vec::new(alloc)),
        }
    }

    /// The formula with one more auxiliary.
    pub fn auxiliary(self, auxiliary: Auxiliary<S>) -> Result<Formula<S>, NoMemory>
        ensures formula { IfOk result (λ f. formula_of f ≡ then_auxiliaries (formula_of self.entry) (auxiliary_of {s = S} auxiliary.entry ∷ [])) }
        ensures sizes { IfOk result (λ f. (length f.auxiliaries ≡ length self.entry.auxiliaries + 1)
            × (length f.cosines ≡ length self.entry.cosines) × (length f.relations ≡ length self.entry.relations)) }
    {
        let mut formula = self;
        formula.auxiliaries.push(auxiliary)?;
        Ok(formula)
    }

    /// The formula with one more cosine.
    pub fn cosine(self, cosine: Span<S>) -> Result<Formula<S>, NoMemory>
        ensures formula { IfOk result (λ f. formula_of f ≡ then_cosine (formula_of self.entry) cosine.entry) }
        ensures sizes { IfOk result (λ f. (length f.auxiliaries ≡ length self.entry.auxiliaries)
            × (length f.cosines ≡ length self.entry.cosines + 1) × (length f.relations ≡ length self.entry.relations)) }
    {
        let mut formula = self;
        formula.cosines.push(cosine)?;
        Ok(formula)
    }

    /// The formula with one more relation.
    pub fn relation(self, relation: Relation<S>) -> Result<Formula<S>, NoMemory>
        ensures formula { IfOk result (λ f. formula_of f ≡ then_relation (formula_of self.entry) (relation_of {s = S} relation.entry)) }
        ensures sizes { IfOk result (λ f. (length f.auxiliaries ≡ length self.entry.auxiliaries)
            × (length f.cosines ≡ length self.entry.cosines) × (length f.relations ≡ length self.entry.relations + 1)) }
    {
        let mut formula = self;
        formula.relations.push(relation)?;
        Ok(formula)
    }

    /// The formula with one more relation row.
    pub fn row(self, tree: Tree<S>) -> Result<Formula<S>, NoMemory>
        ensures formula { IfOk result (λ f. formula_of f ≡ then_rows (formula_of self.entry) (poly_of tree.entry ∷ [])) }
        ensures sizes { IfOk result (λ f. (length f.auxiliaries ≡ length self.entry.auxiliaries)
            × (length f.cosines ≡ length self.entry.cosines) × (length f.relations ≡ length self.entry.relations + 1)) }
    {
        let formula = self.relation(Relation::Row(tree))?;
        Ok(formula)
    }

    /// The formula with each component of a vector as one more relation row.
    #[tactic(auto, unfolding(crate::specs::VectorViews::vector_of))]
    pub fn components(self, a: Vector<S>) -> Result<Formula<S>, NoMemory>
        ensures formula { IfOk result (λ f. formula_of f ≡ then_rows (formula_of self.entry) (vector_of a.entry)) }
        ensures sizes { IfOk result (λ f. (length f.auxiliaries ≡ length self.entry.auxiliaries)
            × (length f.cosines ≡ length self.entry.cosines) × (length f.relations ≤ length self.entry.relations + 3)) }
    {
        let Vector { x, y, z } = a;
        let flat = self.row(x)?.row(y)?;
        match z {
            Some(z) => {
                let formula = flat.row(z)?;
                Ok(formula)
            }
            None => Ok(flat),
        }
    }

    /// That two vectors are parallel: `a.u b.v - a.v b.u` in a workplane; in space the components of their cross product
    /// but the one in whose place `a` reads greatest.
    #[tactic(auto, unfolding(crate::specs::Formula::parallel))]
    pub fn parallel(
        alloc: Global,
        flat: bool,
        a: Vector<S>,
        b: &Vector<S>,
    ) -> Result<Formula<S>, NoMemory>
        ensures formula { IfOk result (λ f. formula_of f ≡ parallel flat (vector_of a.entry) (vector_of b.now)) }
        ensures sizes { IfOk result (λ f. (length f.auxiliaries ≡ 0) × (length f.cosines ≡ 0) × (length f.relations ≡ 1)) }
    {
        let formula = Formula::empty(alloc);
        if flat {
            let row = a.flat_cross(alloc, b)?;
            let formula = formula.row(row)?;
            return Ok(formula);
        }
        let cross = a.cross(alloc, b)?;
        let formula = formula.relation(Relation::WithoutGreatest(a, cross))?;
        Ok(formula)
    }

    /// That two vectors are at a right angle: `a . b`.
    #[tactic(auto, unfolding(crate::specs::Formula::perpendicular))]
    pub fn perpendicular(
        alloc: Global,
        a: &Vector<S>,
        b: &Vector<S>,
    ) -> Result<Formula<S>, NoMemory>
        ensures formula { IfOk result (λ f. formula_of f ≡ perpendicular (vector_of a.now) (vector_of b.now)) }
        ensures sizes { IfOk result (λ f. (length f.auxiliaries ≡ 0) × (length f.cosines ≡ 0) × (length f.relations ≡ 1)) }
    {
        let row = a.dot(alloc, b)?;
        let formula = Formula::empty(alloc).row(row)?;
        Ok(formula)
    }
}
