// Faults of reading.
ghost use Rattle.std.specs.Prelude.{◌≡◌};
ghost use Rattle.sk_records.specs.declared.faults.ReadFault.TheVariants.{NoMemory};

use crate::NoMemory;
use std::alloc::AllocFailed;

/// Why a text isn't read: the first fault. Lines count from 1.
#[derive(Clone, Copy, Debug, PartialEq, Eq)]
pub enum ReadFault {
    /// The text has more than 2^26 bytes.
    TooLarge,
    /// The first line isn't the header.
    BadHeader,
    /// This line may not stand in its place.
    BadLine(u32),
    /// The remap list that this line opens isn't shut.
    OpenMap(u32),
    /// The record that this line begins isn't closed.
    OpenRecord(u32),
    /// Memory wanted.
    NoMemory,
}

impl From<NoMemory> for ReadFault {
    ghost from_gives = { λ _ e. e ≡ NoMemory };

    fn from(_fault: NoMemory) -> ReadFault {
        ReadFault::NoMemory
    }
}

impl<T: Drop> From<AllocFailed<T>> for ReadFault {
    ghost from_gives = { λ _ e. e ≡ NoMemory };

    fn from(_fault: AllocFailed<T>) -> ReadFault {
        ReadFault::NoMemory
    }
}
