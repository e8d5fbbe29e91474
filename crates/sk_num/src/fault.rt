/// Why a text gives no number.
#[derive(Clone, Copy, Debug, PartialEq, Eq)]
pub enum NumFault {
    /// The bytes are not spelled as such a number.
    BadNumber,
    /// The spelling is right, and the number passes its range.
    OutOfGrid,
}

/// A number passes 2^62 units.
#[derive(Clone, Copy, Debug, PartialEq, Eq)]
pub struct PastLimit;
