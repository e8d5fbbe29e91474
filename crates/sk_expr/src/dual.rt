ghost use Rattle.std.specs.Prelude.{◌≡◌};
ghost use Rattle.sk_num.specs.Scale.{IsScale};
ghost use Rattle.sk_expr.specs.SpanValue.{dual_of, dual_point, dual_add, dual_sub, dual_mul};
ghost use Rattle.sk_expr.specs.SpanLaws.{DualEncloses, dual_laws};
ghost use Rattle.sk_expr.specs.AbsentSlope.{constant_dual};

use sk_num::{Grid, Kernel, OfGrid, Span};
use std::marker::Model;

/// A span with the span of its slope in one column.
#[derive(Clone, Copy, Debug)]
pub struct Dual<const S: u32> {
    value: Span<S>,
    slope: Span<S>,
}

impl<const S: u32> Model for Dual<S> {
    ghost use Rattle.sk_expr.specs.SpanValue.{DualEnds};

    ghost Value = { DualEnds };

    ghost view = { λ d. record { value = d.value; slope = d.slope } };

    ghost inverse = { λ d. record { value = d.value; slope = d.slope } };
}

impl<const S: u32> Dual<S> {
    /// The two spans.
    pub fn new(value: Span<S>, slope: Span<S>) -> Dual<S>
        ensures { result ≡ dual_of value.entry slope.entry }
    {
        Dual { value, slope }
    }

    /// A value with the slope 0.
    pub fn constant(value: Span<S>) -> Dual<S>
        ensures { result ≡ constant_dual value.entry }
    {
        Dual::new(value, Span::new(Grid::zero(), Grid::zero()))
    }

    /// The span of the value.
    pub fn value(&self) -> Span<S>
        ensures { result ≡ self.now.value }
    {
        self.value
    }

    /// The span of the slope.
    pub fn slope(&self) -> Span<S>
        ensures { result ≡ self.now.slope }
    {
        self.slope
    }
}

impl<const S: u32> OfGrid<Grid<S>> for Dual<S> {
    ghost of = { dual_point };

    fn of_grid(g: Grid<S>) -> Dual<S> {
        Dual {
            value: Span::new(g, g),
            slope: Span::new(Grid::zero(), Grid::zero()),
        }
    }
}

impl<const S: u32> Kernel<S> for Dual<S> {
    ghost sum_of = { dual_add };

    ghost difference_of = { dual_sub };

    ghost product_of = { dual_mul S };

    ghost encloses = { DualEncloses S };

    fn same(&self) -> Dual<S> {
        *self
    }

    fn add(&self, o: &Dual<S>) -> Option<Dual<S>> {
        let value = self.value.add(&o.value)?;
        let slope = self.slope.add(&o.slope)?;
        Some(Dual { value, slope })
    }

    fn sub(&self, o: &Dual<S>) -> Option<Dual<S>> {
        let value = self.value.sub(&o.value)?;
        let slope = self.slope.sub(&o.slope)?;
        Some(Dual { value, slope })
    }

    fn mul(&self, o: &Dual<S>) -> Option<Dual<S>> {
        let value = self.value.mul(&o.value)?;
        let left = self.value.mul(&o.slope)?;
        let right = o.value.mul(&self.slope)?;
        let slope = left.add(&right)?;
        Some(Dual { value, slope })
    }

    ghost laws = { dual_laws S };
}
