// Why copies are refused.

ghost use Rattle.std.specs.Prelude.{◌≡◌};
ghost use Rattle.sk_copy.specs.declared.fault.CopyFault.TheVariants.{NoMemory};

use crate::NoMemory;
use std::alloc::AllocFailed;

/// Why copies are refused.
#[derive(Clone, Copy, Debug, PartialEq, Eq)]
pub enum CopyFault {
    /// The next number of the list would be 65536.
    Full,
    /// A scaled number passes the limit.
    PastLimit,
    /// Memory is wanting.
    NoMemory,
}

impl From<NoMemory> for CopyFault {
    ghost from_gives = { λ _ e. e ≡ NoMemory };

    fn from(_error: NoMemory) -> CopyFault {
        CopyFault::NoMemory
    }
}

impl<T: Drop> From<AllocFailed<T>> for CopyFault {
    ghost from_gives = { λ _ e. e ≡ NoMemory };

    fn from(_failed: AllocFailed<T>) -> CopyFault {
        CopyFault::NoMemory
    }
}
