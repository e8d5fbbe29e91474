/// Why a point has no test.
#[derive(Clone, Copy, Debug, PartialEq, Eq)]
pub enum CertFault {
    /// The forced pivot of this row is too small beside the row.
    Flat(u16),
    /// A number passes the limit.
    PastLimit,
    /// Want of memory.
    NoMemory,
}
