ghost use Rattle.std.specs.List.{All};
ghost use Rattle.std.specs.Prelude.{◌≡◌, ◌≤◌, ◌<◌, ◌+◌, ◌^◌, ◌-◌, ◌+ℤ◌, pos, unsigned_abs, length, get_or, map, nat_le, true, MatchResult};
ghost use Rattle.sk_num.specs.Ends.{point};
ghost use Rattle.sk_num.specs.Scale.{IsScale};
ghost use Rattle.sk_expr.specs.declared.fault.VisitFault.TheVariants.{NoMemory};
ghost use Rattle.sk_krawczyk.specs.Box.{radius_exponent, radius_of};
ghost use Rattle.sk_krawczyk.specs.IntervalTest.{are_near};
ghost use Rattle.sk_krawczyk.specs.Answers.{radius_of_log, IsRadiusLog};

use sk_expr::VisitFault;
use sk_num::{Grid, Items, Span};
use std::alloc::Global;

/// The exponent of a column's radius, in units: the least from 4 on that reaches twice every absolute end of its step.
fn radius_exponent<const S: u32>(step: &Span<S>) -> u32
    ensures value { result ≡ radius_exponent step.now }
    ensures least { 4 ≤ result }
    ensures most { result ≤ 64 }
{
    let need = 2 * step.mag().units().unsigned_abs() as u128;
    let mut exponent = 4;
    for k in 0..60u32 {
        if need > 1 << (4 + k) {
            exponent = 5 + k;
        }
    }
    exponent
}

/// Whether a column's radius is at most 2^-10.
fn is_near<const S: u32>(step: &Span<S>) -> bool
    requires { IsScale S }
    ensures { result ≡ nat_le (radius_of step.now) (2 ^ (S - 10)) }
{
    radius_exponent(step) <= S - 10
}

/// Whether every radius is at most 2^-10.
pub(crate) fn are_near<const S: u32>(step: &Items<Span<S>>) -> bool
    requires { IsScale S }
    ensures { result ≡ are_near S (map radius_of step.now) }
{
    for span in step.as_slice() {
        if !is_near(span) {
            return false;
        }
    }
    true
}

/// The logarithm of a radius of 2^exponent units.
fn log_of<const S: u32>(exponent: u32) -> i8
    requires scale { IsScale S }
    requires least { 4 ≤ exponent }
    requires most { exponent + 10 ≤ S }
    ensures { (result +ℤ pos S) ≡ pos exponent }
{
    (exponent as i32 - S as i32) as i8
}

/// The logarithm of a column's radius.
fn radius_log<const S: u32>(step: &Span<S>) -> i8
    requires scale { IsScale S }
    requires near { nat_le (radius_of step.now) (2 ^ (S - 10)) ≡ true }
    ensures value { radius_of_log S result ≡ radius_of step.now }
    ensures form { IsRadiusLog S result }
{
    log_of::<S>(radius_exponent(step))
}

fn log_at<const S: u32>(step: &Items<Span<S>>, i: usize) -> i8
    requires scale { IsScale S }
    requires inside { i < length step.now }
    requires near { are_near S (map radius_of step.now) ≡ true }
    ensures value { radius_of_log S result ≡ radius_of (get_or step.now i (point (pos 0))) }
    ensures form { IsRadiusLog S result }
{
    radius_log(&step.as_slice()[i])
}

/// The logarithms of the least radii.
pub(crate) fn radius_logs<const S: u32>(
    alloc: Global,
    step: &Items<Span<S>>,
) -> Result<Items<i8>, VisitFault>
    requires scale { IsScale S }
    requires near { are_near S (map radius_of step.now) ≡ true }
    ensures { MatchResult result
        (λ logs. (map (radius_of_log S) logs ≡ map radius_of step.now) × All (IsRadiusLog S) logs)
        (λ e. e ≡ NoMemory) }
{
    let mut logs = Vec::new(alloc);
    for i in 0..step.as_slice().len() {
        logs.push(log_at(step, i))?;
    }
    Ok(Items::of(logs))
}

/// The exponent of a radius, in units.
fn exponent<const S: u32>(log: i8) -> u32
    requires scale { IsScale S }
    requires form { IsRadiusLog S log }
    ensures value { result ≡ unsigned_abs (log +ℤ pos S) }
    ensures small { result ≤ 34 }
{
    (log as i32 + S as i32) as u32
}

/// 2 to the exponent.
fn power(exponent: u32) -> u64
    requires { exponent ≤ 34 }
    ensures value { result ≡ 2 ^ exponent }
    ensures small { result ≤ 2 ^ 34 }
{
    1u64 << exponent
}

/// The radius of a logarithm.
fn radius<const S: u32>(log: i8) -> Grid<S>
    requires scale { IsScale S }
    requires form { IsRadiusLog S log }
    ensures { result ≡ pos (radius_of_log S log) }
{
    match Grid::from_units(power(exponent::<S>(log)) as i64) {
        Some(radius) => radius,
        None => Grid::zero(),
    }
}

fn radius_at<const S: u32>(logs: &Items<i8>, i: usize) -> Grid<S>
    requires scale { IsScale S }
    requires inside { i < length logs.now }
    requires form { All (IsRadiusLog S) logs.now }
    ensures { result ≡ pos (radius_of_log S (get_or logs.now i (pos 0))) }
{
    radius(logs.as_slice()[i])
}

/// The radii of logarithms.
pub(crate) fn radii<const S: u32>(
    alloc: Global,
    logs: &Items<i8>,
) -> Result<Items<Grid<S>>, VisitFault>
    requires scale { IsScale S }
    requires form { All (IsRadiusLog S) logs.now }
    ensures { MatchResult result (λ rs. rs ≡ map (λ l. pos (radius_of_log S l)) logs.now) (λ e. e ≡ NoMemory) }
{
    let mut list = Vec::new(alloc);
    for i in 0..logs.as_slice().len() {
        list.push(radius_at(logs, i))?;
    }
    Ok(Items::of(list))
}

/// How great the radius at a place is.
pub(crate) fn size_at<const S: u32>(radii: &Items<Grid<S>>, j: usize) -> u64
    requires { j < length radii.now }
    ensures value { result ≡ unsigned_abs (get_or radii.now j (pos 0)) }
    ensures small { result ≤ 2 ^ 62 }
{
    radii.as_slice()[j].units().unsigned_abs()
}
