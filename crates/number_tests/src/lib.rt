//! Tests of numbers, trees on a tape, matrices, elimination and cosines.
//!
//! A crate with tests of its own is proved once more for them, so they stand apart; this crate has no code of its own.
#![tactic(auto)]

#[cfg(test)]
mod cosines;
#[cfg(test)]
mod elimination;
#[cfg(test)]
mod matrices;
#[cfg(test)]
mod numbers;
#[cfg(test)]
mod tapes;
