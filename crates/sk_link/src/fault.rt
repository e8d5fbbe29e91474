// Why linked parts aren't read.

ghost use Rattle.std.specs.Prelude.{◌≡◌};
ghost use Rattle.sk_link.specs.declared.fault.PartFault.TheVariants as part;
ghost use Rattle.sk_link.specs.declared.fault.Refusal.TheVariants.{NoMemory as Wanting};
ghost use Rattle.sk_link.specs.Faults.{fault_at, refusal_of};

use crate::NoMemory;
use sk_records::ReadFault;
use sk_types::GroupId;
use std::alloc::AllocFailed;

/// The first fault of linked parts, in the order of their groups.
#[derive(Clone, Copy, Debug, PartialEq, Eq)]
pub enum PartFault {
    /// There is no file with the name of this group's part.
    PartAbsent(GroupId),
    /// The folder failed at the read of this group's part.
    PartRead(GroupId),
    /// The text of this group's part isn't read, for this first fault of it, which isn't want of memory.
    PartText(GroupId, ReadFault),
    /// In the text of this group's part the value on this line, from 1, doesn't read.
    PartNumber(GroupId, usize),
    /// Memory is wanting.
    NoMemory,
}

impl From<NoMemory> for PartFault {
    ghost from_gives = { λ _ e. e ≡ part.NoMemory };

    fn from(_error: NoMemory) -> PartFault {
        PartFault::NoMemory
    }
}

impl<T: Drop> From<AllocFailed<T>> for PartFault {
    ghost from_gives = { λ _ e. e ≡ part.NoMemory };

    fn from(_failed: AllocFailed<T>) -> PartFault {
        PartFault::NoMemory
    }
}

/// Why the text of a part isn't taken.
#[derive(Clone, Copy, Debug, PartialEq, Eq)]
pub(crate) enum Refusal {
    /// Its lines are no text of the format.
    Text(ReadFault),
    /// The value on this line, from 1, doesn't read.
    Number(usize),
    /// Memory is wanting.
    NoMemory,
}

impl Refusal {
    /// The fault of a group whose part is refused.
    pub(crate) fn of(self, group: GroupId) -> PartFault
        ensures { result ≡ fault_at group self }
    {
        match self {
            Refusal::Text(fault) => PartFault::PartText(group, fault),
            Refusal::Number(line) => PartFault::PartNumber(group, line),
            Refusal::NoMemory => PartFault::NoMemory,
        }
    }
}

impl From<ReadFault> for Refusal {
    ghost from_gives = { λ f e. e ≡ refusal_of f };

    fn from(fault: ReadFault) -> Refusal {
        match fault {
            ReadFault::NoMemory => Refusal::NoMemory,
            fault => Refusal::Text(fault),
        }
    }
}

impl From<NoMemory> for Refusal {
    ghost from_gives = { λ _ e. e ≡ Wanting };

    fn from(_error: NoMemory) -> Refusal {
        Refusal::NoMemory
    }
}

impl<T: Drop> From<AllocFailed<T>> for Refusal {
    ghost from_gives = { λ _ e. e ≡ Wanting };

    fn from(_failed: AllocFailed<T>) -> Refusal {
        Refusal::NoMemory
    }
}
