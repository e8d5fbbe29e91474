// Small numbers of units, and exact sums and differences.
#![tactic(auto)]

ghost use Rattle.std.specs.Prelude.{◌≡◌, ◌-◌, ◌^◌, ◌≤◌, ◌+ℤ◌, ◌-ℤ◌};
ghost use Rattle.sk_num.specs.Limit.{grid_of};
ghost use Rattle.sk_num.specs.Scale.{IsScale};

use sk_num::Grid;

/// How many units `2^-below` has.
pub(crate) fn power<const S: u32>(below: u32) -> u64
    requires scale { IsScale S }
    requires few { below ≤ 36 }
    ensures value { result ≡ 2 ^ (S - below) }
    ensures small { result ≤ 2 ^ 44 }
{
    1u64 << (S - below)
}

pub(crate) fn plus<const S: u32>(a: Grid<S>, b: Grid<S>) -> Option<Grid<S>>
    ensures { result ≡ grid_of (a.entry +ℤ b.entry) }
{
    Grid::of_wide(i128::from(a.units()) + i128::from(b.units()))
}

pub(crate) fn less<const S: u32>(a: Grid<S>, b: Grid<S>) -> Option<Grid<S>>
    ensures { result ≡ grid_of (a.entry -ℤ b.entry) }
{
    Grid::of_wide(i128::from(a.units()) - i128::from(b.units()))
}
