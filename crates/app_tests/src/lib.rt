//! Tests of the whole program, over folders and sinks in memory.
//!
//! A crate with tests of its own is proved once more for them, so they stand apart; this crate has no code of its own.
#![tactic(auto)]

#[cfg(test)]
mod drawings;
#[cfg(test)]
mod outside;
#[cfg(test)]
mod parts;
#[cfg(test)]
mod regenerated;
#[cfg(test)]
mod reports;
#[cfg(test)]
mod running;
#[cfg(test)]
mod texts;
