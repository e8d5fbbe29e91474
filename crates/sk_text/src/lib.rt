//! Lines lent from a text, and the parts of a value line.
//!
//! Nothing here takes memory: a line's body and end are parts of the text itself.
#![tactic(auto)]

mod iter;
mod keys;

pub use iter::{Line, LineIter, lines};
pub use keys::split_key;
