ghost use Rattle.std.specs.Prelude.{◌≡◌, ℕ, Option};
ghost use Rattle.sk_num.specs.Scale.{IsScale};
ghost use Rattle.sk_num.specs.Ends.{point, span_add, span_sub, span_mul};
ghost use Rattle.sk_num.specs.Enclosed.{Triple};
ghost use Rattle.sk_num.specs.KernelLaws.{KernelLaws};
ghost use Rattle.sk_num.specs.SpanLaws.{SpanEncloses, span_laws};

use crate::grid::Grid;
use crate::span::Span;

/// Numbers that are made of a grid number.
pub trait OfGrid<G>: Sized {
    ghost of: { G → Self };

    /// The number that encloses `g`.
    fn of_grid(g: G) -> Self
        ensures { result ≡ of g };
}

/// Numbers that enclose exact ones. Each answer, None too, is a function of the operands, and by
/// `laws` the result encloses the exact result of whatever the operands enclose. A kernel encloses
/// triples: a value at two points, over 2^m, and its slope between them in one column, over 2^k.
pub trait Kernel<const S: u32>: OfGrid<Grid<S>> + Drop {
    ghost sum_of: { Self → Self → Option Self };

    ghost difference_of: { Self → Self → Option Self };

    ghost product_of: { Self → Self → Option Self };

    ghost encloses: { ℕ → ℕ → Self → Triple → Type 0 };

    /// An equal number.
    fn same(&self) -> Self
        ensures { result ≡ self.now };

    /// The sum, None where a number of it passes the limit.
    fn add(&self, o: &Self) -> Option<Self>
        ensures { result ≡ sum_of self.now o.now };

    /// The difference, None where a number of it passes the limit.
    fn sub(&self, o: &Self) -> Option<Self>
        ensures { result ≡ difference_of self.now o.now };

    /// The product, None where a number of it passes the limit.
    fn mul(&self, o: &Self) -> Option<Self>
        requires { IsScale S }
        ensures { result ≡ product_of self.now o.now };

    ghost laws: { KernelLaws S Self Self.of sum_of difference_of product_of encloses };
}

impl<const S: u32> OfGrid<Grid<S>> for Span<S> {
    ghost of = { point };

    fn of_grid(g: Grid<S>) -> Span<S> {
        Span::new(g, g)
    }
}

impl<const S: u32> Kernel<S> for Span<S> {
    ghost sum_of = { span_add };

    ghost difference_of = { span_sub };

    ghost product_of = { span_mul S };

    ghost encloses = { SpanEncloses S };

    fn same(&self) -> Span<S> {
        *self
    }

    fn add(&self, o: &Span<S>) -> Option<Span<S>> {
        Span::add(self, o)
    }

    fn sub(&self, o: &Span<S>) -> Option<Span<S>> {
        Span::sub(self, o)
    }

    fn mul(&self, o: &Span<S>) -> Option<Span<S>> {
        Span::mul(self, o)
    }

    ghost laws = { span_laws S };
}
