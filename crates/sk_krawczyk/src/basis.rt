use sk_num::{Items, Mat};

/// Held and solved columns, retained rows and suspects, and the approximate inverse of the slopes of retained rows in
/// solved columns.
#[derive(Debug, Drop)]
pub(crate) struct Basis<const S: u32> {
    pub(crate) held: Items<u16>,
    pub(crate) solved: Items<u16>,
    pub(crate) retained: Items<u16>,
    pub(crate) suspects: Items<u16>,
    pub(crate) inverse: Mat<S>,
}
