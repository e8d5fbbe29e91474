ghost use Rattle.std.specs.Prelude.{◌≡◌, ◌↔◌, ◌^◌, ◌<◌, ◌≤◌, ℤ, IsSome, IfSome, ◌+ℤ◌, ◌-ℤ◌, ◌*ℤ◌, unsigned_abs, pos};
ghost use Rattle.sk_num.specs.Limit.{IsInLimit, grid_of};
ghost use Rattle.sk_num.specs.Scale.{IsScale};

use std::marker::Model;

/// A whole number of units, of which 2^S are a millimetre, at most 2^62 either way. Contracts see
/// the number of units.
#[derive(Clone, Copy, Debug, PartialEq, Eq, PartialOrd, Ord, Hash)]
pub struct Grid<const S: u32> {
    units: i64,
}

impl<const S: u32> Model for Grid<S> {
    ghost Value = { ℤ };

    ghost view = { λ g. g.units };

    ghost invariant = { λ g. IsInLimit g.units };

    ghost inverse = { λ z. record { units = z } };
}

impl<const S: u32> Grid<S> {
    /// The number of that many units; None exactly past the limit.
    pub fn from_units(units: i64) -> Option<Grid<S>>
        ensures fits { IsSome result ↔ IsInLimit units }
        ensures value { IfSome result (λ g. g ≡ units) }
    {
        if units < -(1 << 62) || units > 1 << 62 {
            return None;
        }
        Some(Grid { units })
    }

    /// How many units it has.
    pub fn units(self) -> i64
        ensures value { result ≡ self.entry }
        ensures fits { IsInLimit result }
    {
        self.units
    }

    /// The number 0.
    pub fn zero() -> Grid<S>
        ensures { result ≡ pos 0 }
    {
        Grid { units: 0 }
    }

    /// The number 1.
    pub fn one() -> Grid<S>
        requires { IsScale S }
        ensures { result ≡ pos (2 ^ S) }
    {
        Grid::small(one::<S>())
    }

    /// The whole number `n`.
    pub fn whole(n: i16) -> Grid<S>
        requires { IsScale S }
        ensures { result ≡ n *ℤ pos (2 ^ S) }
    {
        Grid::small(n as i128 * one::<S>())
    }

    /// The number of that many units; None exactly past the limit.
    pub fn of_wide(units: i128) -> Option<Grid<S>>
        ensures { result ≡ grid_of units }
    {
        let limit = 1i128 << 62;
        if units < -limit || units > limit {
            return None;
        }
        Some(Grid::small(units))
    }

    /// The sum; None exactly past the limit.
    pub fn checked_add(self, other: Grid<S>) -> Option<Grid<S>>
        ensures { result ≡ grid_of (self.entry +ℤ other.entry) }
    {
        // one sum wraps, 2^63, and is past the limit as -2^63 too
        Grid::from_units(self.units().wrapping_add(other.units()))
    }

    /// The difference; None exactly past the limit.
    pub fn checked_sub(self, other: Grid<S>) -> Option<Grid<S>>
        ensures { result ≡ grid_of (self.entry -ℤ other.entry) }
    {
        // as in a sum, what wraps is past the limit
        Grid::from_units(self.units().wrapping_sub(other.units()))
    }
}

/// How many units are one.
pub(crate) fn one<const S: u32>() -> i128
    requires { IsScale S }
    ensures value { result ≡ pos (2 ^ S) }
    ensures small { 2 ^ S ≤ 2 ^ 44 }
    ensures positive { 0 < 2 ^ S }
{
    (1u64 << S) as i128
}

/// How many units are one, without a sign.
pub(crate) fn unsigned_one<const S: u32>() -> u128
    requires { IsScale S }
    ensures value { result ≡ 2 ^ S }
    ensures small { 2 ^ S ≤ 2 ^ 44 }
    ensures large { 2 ^ 36 ≤ 2 ^ S }
{
    1u128 << S
}

// Exact results in 128 bits, one operation each.
impl<const S: u32> Grid<S> {
    pub(crate) fn small(units: i128) -> Grid<S>
        requires { IsInLimit units }
        ensures { result ≡ units }
    {
        Grid {
            units: units as i64,
        }
    }

    pub(crate) fn wide(self) -> i128
        ensures value { result ≡ self.entry }
        ensures fits { IsInLimit result }
    {
        self.units() as i128
    }

    pub(crate) fn plus(self, other: Grid<S>) -> i128
        ensures value { result ≡ self.entry +ℤ other.entry }
        ensures fits { unsigned_abs result ≤ 2 ^ 63 }
    {
        self.units() as i128 + other.units() as i128
    }

    /// In squares of units.
    pub(crate) fn times(self, other: Grid<S>) -> i128
        ensures value { result ≡ self.entry *ℤ other.entry }
        ensures fits { unsigned_abs result ≤ 2 ^ 124 }
    {
        self.units() as i128 * other.units() as i128
    }

    /// In squares of units: the number over 2^2S.
    pub(crate) fn scaled(self) -> i128
        requires { IsScale S }
        ensures value { result ≡ self.entry *ℤ pos (2 ^ S) }
        ensures fits { unsigned_abs result ≤ 2 ^ 106 }
    {
        let one = one::<S>();
        self.units() as i128 * one
    }
}
