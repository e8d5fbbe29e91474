//! Tests of lines, books of records, and the outside of the program.
//!
//! A crate with tests of its own is proved once more for them, so they stand apart; this crate has no code of its own.
#![tactic(auto)]

#[cfg(test)]
mod books;
#[cfg(test)]
mod files;
#[cfg(test)]
mod lines;
