ghost use Rattle.std.specs.Prelude.{◌≡◌, ◌≢◌, ◌<◌, ◌≤◌, ◌+◌, ◌*◌, ◌/◌, ◌^◌, ℤ, pos, ◌*ℤ◌, IfSome};
ghost use Rattle.sk_num.specs.Division.{nearest, IsNearest};
ghost use Rattle.sk_num.specs.Rounding.{rounded_quotient};
ghost use Rattle.sk_num.specs.Scale.{IsScale};

use crate::grid::Grid;
use crate::rounding::signed_grid;
use std::marker::Model;

/// A number to divide by, which isn't 0, with what makes the second quotient by it quick. Contracts
/// see the number of units.
#[derive(Debug, Drop)]
pub struct Divisor<const S: u32> {
    number: Grid<S>,
    // about 2^(shift + S) over the number's magnitude
    reciprocal: u64,
    shift: u32,
}

impl<const S: u32> Model for Divisor<S> {
    ghost use Rattle.std.specs.Prelude.{ℤ};
    ghost use Rattle.sk_num.specs.Rounding.{IsDivisor};

    ghost Value = { ℤ };

    ghost view = { λ d. d.number };

    ghost invariant = { λ d. IsDivisor d.number d.shift };
}

/// The quotient of magnitudes, rounded to the nearest, halves up: what is guessed where that is it,
/// which needs no division.
fn nearest_quotient(p: u128, q: u128, guess: u128) -> u128
    requires p_in { p ≤ 2 ^ 124 }
    requires q_in { q ≤ 2 ^ 62 }
    requires not_zero { 0 < q }
    ensures { result ≡ (2 * p + q) / (2 * q) }
{
    let doubled = 2 * p + q;
    let step = 2 * q;
    if guess <= 1 << 62 {
        let below = guess * step;
        if below <= doubled && doubled - below < step {
            return guess;
        }
    }
    doubled / step
}

impl<const S: u32> Divisor<S> {
    /// The number as a divisor.
    pub fn new(number: Grid<S>) -> Divisor<S>
        requires scale { IsScale S }
        requires not_zero { number ≢ pos 0 }
        ensures { result ≡ number.entry }
    {
        let size = number.units().unsigned_abs();
        let bits = 127 - size.leading_zeros();
        let reciprocal = (1u128 << bits) / size as u128;
        Divisor {
            number,
            reciprocal: reciprocal.min(u64::MAX as u128) as u64,
            shift: bits - S,
        }
    }

    /// The number over the divisor, rounded to the nearest unit, halves away from zero; None exactly
    /// past the limit.
    pub fn quotient(&self, number: Grid<S>) -> Option<Grid<S>>
        requires { IsScale S }
        ensures value { result ≡ rounded_quotient S number.entry self.now }
        // number 2^S / divisor is nearest to what is answered
        ensures nearest { IfSome result (λ g. IsNearest (number.entry *ℤ pos (2 ^ S)) self.now g) }
    {
        let scaled = number.scaled();
        let divisor = self.number.wide();
        let product = number.units().unsigned_abs() as u128 * self.reciprocal as u128;
        let guess = (product + (1u128 << (self.shift - 1))) >> self.shift;
        let magnitude = nearest_quotient(scaled.unsigned_abs(), divisor.unsigned_abs(), guess);
        signed_grid((scaled < 0) != (divisor < 0), magnitude)
    }
}
