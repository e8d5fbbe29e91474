/// Why two line segments give no frame.
#[derive(Clone, Copy, Debug, PartialEq, Eq)]
pub enum FrameFault {
    /// A length is 0: the first line has none, or the second is along it.
    Degenerate,
    /// A rounded number passes 2^62 units.
    PastLimit,
}
