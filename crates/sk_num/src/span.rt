ghost use Rattle.std.specs.Prelude.{neg_ℤ, pos, ◌^◌, ◌≤◌, ◌≡◌, ◌↔◌, ℕ, ◌<◌, ◌+◌, ℤ, IsTrue, IfSome, ◌+ℤ◌, ◌-ℤ◌, ◌*ℤ◌, ◌≤ℤ◌};
ghost use Rattle.std.specs.Int.{int_min, int_max};
ghost use Rattle.sk_num.specs.Scale.{IsScale};
ghost use Rattle.sk_num.specs.Rounding.{floor_at, ceil_at};
ghost use Rattle.sk_num.specs.Ends.{least_product, greatest_product, span_between, span_add, span_sub, span_mul, mag, mid};
ghost use Rattle.sk_num.specs.Enclosed.{Encloses};

use crate::grid::Grid;
use std::marker::Model;

/// The numbers from one grid number to another. Contracts see the two ends in units, `lo` and `hi`.
#[derive(Clone, Copy, Debug, PartialEq, Eq)]
pub struct Span<const S: u32> {
    lo: Grid<S>,
    hi: Grid<S>,
}

impl<const S: u32> Model for Span<S> {
    ghost use Rattle.sk_num.specs.Ends.{Ends, IsOrdered};

    ghost Value = { Ends };

    ghost view = { λ a. record { lo = a.lo; hi = a.hi } };

    ghost invariant = { λ a. IsOrdered a.lo a.hi };

    ghost inverse = { λ e. record { lo = e.lo; hi = e.hi } };
}

pub(crate) fn floor(z: i128, s: u32) -> i128
    requires { s < 128 }
    ensures { result ≡ floor_at s z }
{
    z >> s
}

fn ceil(z: i128, s: u32) -> i128
    requires small { s < 127 }
    requires fits { neg_ℤ (pos (2 ^ 124)) ≤ℤ z }
    ensures { result ≡ ceil_at s z }
{
    -(-z >> s)
}

fn span_between<const S: u32>(lo: i128, hi: i128) -> Option<Span<S>>
    requires { lo ≤ℤ hi }
    ensures { result ≡ span_between lo hi }
{
    let limit = 1i128 << 62;
    if lo < -limit || hi > limit {
        return None;
    }
    Some(Span {
        lo: Grid::small(lo),
        hi: Grid::small(hi),
    })
}

impl<const S: u32> Span<S> {
    /// The span from `lo` to `hi`.
    pub fn new(lo: Grid<S>, hi: Grid<S>) -> Span<S>
        requires { lo ≤ℤ hi }
        ensures lo { result.lo ≡ lo.entry }
        ensures hi { result.hi ≡ hi.entry }
    {
        let (_, _) = (lo.units(), hi.units());
        Span { lo, hi }
    }

    /// The lower end.
    pub fn lo(&self) -> Grid<S>
        ensures value { result ≡ self.now.lo }
        ensures ordered { result ≤ℤ self.now.hi }
    {
        self.lo
    }

    /// The upper end.
    pub fn hi(&self) -> Grid<S>
        ensures value { result ≡ self.now.hi }
        ensures ordered { self.now.lo ≤ℤ result }
    {
        self.hi
    }

    /// The exact sums of the lower and of the upper ends; None exactly where one passes the limit.
    /// It encloses the sum of any two numbers that the two spans enclose.
    pub fn add(&self, o: &Span<S>) -> Option<Span<S>>
        ensures ends { result ≡ span_add self.now o.now }
        ensures encloses { IfSome result (λ c. (m : ℕ) (x y : ℤ) →
            Encloses S m self.now x → Encloses S m o.now y → Encloses S m c (x +ℤ y)) }
    {
        let lo = self.lo.checked_add(o.lo)?;
        let hi = self.hi.checked_add(o.hi)?;
        Some(Span { lo, hi })
    }

    /// The exact differences, lower end less upper end and the other way round; None exactly where
    /// one passes the limit. It encloses the difference of any two enclosed numbers.
    pub fn sub(&self, o: &Span<S>) -> Option<Span<S>>
        ensures ends { result ≡ span_sub self.now o.now }
        ensures encloses { IfSome result (λ c. (m : ℕ) (x y : ℤ) →
            Encloses S m self.now x → Encloses S m o.now y → Encloses S m c (x -ℤ y)) }
    {
        let lo = self.lo.checked_sub(o.hi)?;
        let hi = self.hi.checked_sub(o.lo)?;
        Some(Span { lo, hi })
    }

    /// The least product of ends rounded down and the greatest rounded up; None exactly where an
    /// end passes the limit. It encloses the product of any two enclosed numbers.
    pub fn mul(&self, o: &Span<S>) -> Option<Span<S>>
        requires { IsScale S }
        ensures ends { result ≡ span_mul S self.now o.now }
        ensures encloses { IfSome result (λ c. (m n : ℕ) (x y : ℤ) →
            Encloses S m self.now x → Encloses S n o.now y → Encloses S (m + n) c (x *ℤ y)) }
    {
        let (least, greatest) = self.product_ends(o);
        let lo = floor(least, S);
        let hi = ceil(greatest, S);
        span_between(lo, hi)
    }

    /// Half the sum of the ends, rounded down: the span's reading.
    pub fn mid(&self) -> Grid<S>
        ensures value { result ≡ mid self.now }
        ensures inside { (self.now.lo ≤ℤ result) × (result ≤ℤ self.now.hi) }
    {
        Grid::small(floor(self.lo.plus(self.hi), 1))
    }

    /// The greatest absolute end.
    pub fn mag(&self) -> Grid<S>
        ensures { result ≡ pos (mag self.now) }
    {
        let (lo, hi) = (self.lo.wide(), self.hi.wide());
        Grid::small(lo.abs().max(hi.abs()))
    }

    /// Whether 0 lies in the span, its ends included.
    pub fn has_zero(&self) -> bool
        ensures { IsTrue result ↔ ((self.now.lo ≤ℤ pos 0) × (pos 0 ≤ℤ self.now.hi)) }
    {
        self.lo.units() <= 0 && self.hi.units() >= 0
    }

    /// The least and the greatest product of ends.
    fn product_ends(&self, o: &Span<S>) -> (i128, i128)
        ensures least { result.0 ≡ least_product self.now o.now }
        ensures greatest { result.1 ≡ greatest_product self.now o.now }
        ensures fits { neg_ℤ (pos (2 ^ 124)) ≤ℤ result.1 }
    {
        if self.lo.units() == self.hi.units() {
            o.multiple_ends(self.lo)
        } else if o.lo.units() == o.hi.units() {
            self.multiple_ends(o.lo)
        } else {
            (self.least_product(o), self.greatest_product(o))
        }
    }

    /// The least and the greatest product of an end and a number.
    fn multiple_ends(&self, k: Grid<S>) -> (i128, i128)
        ensures least { result.0 ≡ int_min (self.now.lo *ℤ k.entry) (self.now.hi *ℤ k.entry) }
        ensures greatest { result.1 ≡ int_max (self.now.lo *ℤ k.entry) (self.now.hi *ℤ k.entry) }
        ensures fits { neg_ℤ (pos (2 ^ 124)) ≤ℤ result.1 }
    {
        let is_falling = k.units() < 0;
        let (low, high) = if is_falling {
            (self.hi, self.lo)
        } else {
            (self.lo, self.hi)
        };
        (low.times(k), high.times(k))
    }

    fn least_product(&self, o: &Span<S>) -> i128
        ensures { result ≡ least_product self.now o.now }
    {
        let (ac, ad) = (self.lo.times(o.lo), self.lo.times(o.hi));
        let (bc, bd) = (self.hi.times(o.lo), self.hi.times(o.hi));
        let with_low = ac.min(ad);
        let with_high = bc.min(bd);
        with_low.min(with_high)
    }

    fn greatest_product(&self, o: &Span<S>) -> i128
        ensures value { result ≡ greatest_product self.now o.now }
        ensures fits { neg_ℤ (pos (2 ^ 124)) ≤ℤ result }
    {
        let (ac, ad) = (self.lo.times(o.lo), self.lo.times(o.hi));
        let (bc, bd) = (self.hi.times(o.lo), self.hi.times(o.hi));
        let with_low = ac.max(ad);
        let with_high = bc.max(bd);
        with_low.max(with_high)
    }
}
