ghost use Rattle.std.specs.Prelude.{◌≡◌, ◌≤◌, ◌^◌, pos, map, option_map};
ghost use Rattle.sk_num.specs.Scale.{IsScale};
ghost use Rattle.sk_num.specs.Ends.{point, span_add, span_sub, span_mul};
ghost use Rattle.sk_num.specs.Limit.{grid_of};
ghost use Rattle.sk_expr.specs.Trees.{poly_of};
ghost use Rattle.sk_expr.specs.SpanValue.{value_by};
ghost use Rattle.sk_expr.specs.VectorViews.{vector_of};
ghost use Rattle.sk_expr.specs.FormulaViews.{auxiliary_of, numbers_of};
ghost use Rattle.sk_expr.specs.Visits.{grown_of};
ghost use Rattle.sk_expr.specs.Readings.{reading, readings, auxiliary_reading, square_units, length_reading, quotient_reading, floor_root};

use crate::expr::{Expr, Tree};
use crate::formula::Auxiliary;
use crate::row::Auxiliaries;
use crate::vectors::Vector;
use sk_num::{Grid, Kernel, Span, isqrt_floor, rdiv};

/// The readings of a vector's components.
#[derive(Clone, Copy, Debug)]
pub struct Readings<const S: u32> {
    /// That of the first component.
    pub x: Grid<S>,
    /// That of the second component.
    pub y: Grid<S>,
    /// That of the third component, in space.
    pub z: Option<Grid<S>>,
}

/// The span of a tree at a point, None past the limit.
fn span_at<const S: u32>(
    tree: &Tree<S>,
    unknowns: &[Grid<S>],
    cosines: &[Span<S>],
) -> Option<Span<S>>
    requires { IsScale S }
    ensures { result ≡ value_by point span_add span_sub (span_mul S) (map point unknowns.now) cosines.now (poly_of tree.now) }
{
    match tree {
        Expr::Num(g) => Some(Span::new(*g, *g)),
        Expr::Cos(place) => match cosines.get(*place as usize) {
            Some(cosine) => Some(*cosine),
            None => None,
        },
        Expr::Var(place) => match unknowns.get(*place as usize) {
            Some(unknown) => Some(Span::new(*unknown, *unknown)),
            None => None,
        },
        Expr::Add(a, b) => {
            let a = span_at(a, unknowns, cosines)?;
            let b = span_at(b, unknowns, cosines)?;
            a.add(&b)
        }
        Expr::Sub(a, b) => {
            let a = span_at(a, unknowns, cosines)?;
            let b = span_at(b, unknowns, cosines)?;
            a.sub(&b)
        }
        Expr::Mul(a, b) => {
            let a = span_at(a, unknowns, cosines)?;
            let b = span_at(b, unknowns, cosines)?;
            a.mul(&b)
        }
    }
}

fn square<const S: u32>(g: Grid<S>) -> u128
    ensures value { result ≡ square_units g.entry }
    ensures small { result ≤ 2 ^ 124 }
{
    let units = g.units().unsigned_abs() as u128;
    units * units
}

fn floor_root(n: u128) -> u64
    requires { n ≤ 2 ^ 126 }
    ensures { result ≡ floor_root n }
{
    isqrt_floor(n)
}

/// The square root in units, rounded down; None past the limit.
fn root_units<const S: u32>(n: u128) -> Option<Grid<S>>
    requires { n ≤ 2 ^ 126 }
    ensures { result ≡ grid_of (pos (floor_root n)) }
{
    let root = floor_root(n);
    if root > 1 << 62 {
        return None;
    }
    Grid::from_units(root as i64)
}

impl<const S: u32> Readings<S> {
    /// The length of a vector with these readings, rounded down; None past the limit.
    pub fn length(&self) -> Option<Grid<S>>
        ensures { result ≡ length_reading (numbers_of self.now) }
    {
        let flat = square(self.x) + square(self.y);
        let sum = match self.z {
            Some(z) => flat + square(z),
            None => flat,
        };
        root_units(sum)
    }
}

/// The quotient of two readings, to the nearest unit: 0 where the second is 0, None past the limit.
fn quotient<const S: u32>(n: Grid<S>, d: Grid<S>) -> Option<Grid<S>>
    requires { IsScale S }
    ensures { result ≡ quotient_reading S n.entry d.entry }
{
    if d.units() == 0 {
        return Some(Grid::zero());
    }
    rdiv(n, d)
}

impl<const S: u32> Auxiliaries<S> {
    /// The reading of a tree, the midpoint of its span at the numbers seen so far; None exactly where it passes the limit,
    /// and an unknown or a cosine that isn't there counts as past it.
    #[tactic(auto, unfolding(crate::specs::SpanValue::span_value))]
    pub fn reading(&self, tree: &Tree<S>) -> Option<Grid<S>>
        requires { IsScale S }
        ensures { result ≡ reading S (grown_of self.now) (poly_of tree.now) }
    {
        let span = span_at(tree, self.unknowns.as_slice(), self.cosines.as_slice())?;
        Some(span.mid())
    }

    /// The readings of a vector's components; None exactly where one passes the limit.
    #[tactic(auto, unfolding(crate::specs::VectorViews::vector_of))]
    pub fn readings(&self, a: &Vector<S>) -> Option<Readings<S>>
        requires { IsScale S }
        ensures { option_map (numbers_of {s = S}) result ≡ readings S (grown_of self.now) (vector_of a.now) }
    {
        let x = self.reading(&a.x)?;
        let y = self.reading(&a.y)?;
        let z = match &a.z {
            Some(z) => Some(self.reading(z)?),
            None => None,
        };
        Some(Readings { x, y, z })
    }

    /// The value of an auxiliary; None exactly where it, or a reading that it is taken of, passes the limit.
    pub(crate) fn value(&self, x: &Auxiliary<S>) -> Option<Grid<S>>
        requires { IsScale S }
        ensures { result ≡ auxiliary_reading S (grown_of self.now) (auxiliary_of {s = S} x.now) }
    {
        match x {
            Auxiliary::Length(a) => {
                let readings = self.readings(a)?;
                readings.length()
            }
            Auxiliary::Quotient(n, d) => {
                let n = self.reading(n)?;
                let d = self.reading(d)?;
                quotient(n, d)
            }
        }
    }
}
