ghost use Rattle.std.specs.Prelude.{ℕ, ◌≤◌, ◌<◌, ◌+◌, ◌*◌, ◌^◌, ℤ, pos, ◌≤ℤ◌};
ghost use Rattle.sk_num.specs.Rounding.{IsRoot};
ghost use Rattle.sk_num.specs.Scale.{IsScale};

use crate::grid::Grid;

/// The square root, rounded down.
pub fn isqrt_floor(n: u128) -> u64
    requires { n ≤ 2 ^ 126 }
    ensures below { result * result ≤ n }
    ensures above { n < (result + 1) * (result + 1) }
{
    n.isqrt() as u64
}

/// The square root, rounded up: the least number whose square is at least `n`.
pub fn isqrt_ceil(n: u128) -> u64
    requires { n ≤ 2 ^ 126 }
    ensures above { n ≤ result * result }
    ensures least { (r : ℕ) → n ≤ r * r → result ≤ r }
{
    let root = isqrt_floor(n);
    if root as u128 * root as u128 == n {
        root
    } else {
        root + 1
    }
}

/// The square root, rounded down: the greatest grid number whose square is at most `a`.
pub fn root<const S: u32>(a: Grid<S>) -> Grid<S>
    requires scale { IsScale S }
    requires from_zero { pos 0 ≤ℤ a }
    ensures { IsRoot S a.entry result }
{
    let square = a.scaled();
    let units = isqrt_floor(square as u128);
    Grid::small(units as i128)
}
