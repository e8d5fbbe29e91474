//! Tests of what requests make, of groups that are copied, and of outlines, also of made models and at their limits.
//!
//! A crate with tests of its own is proved once more for them, so they stand apart; this crate has no code of its own.
#![tactic(auto)]

#[cfg(test)]
mod made;
#[cfg(test)]
mod outlines;
#[cfg(test)]
mod sizes;
