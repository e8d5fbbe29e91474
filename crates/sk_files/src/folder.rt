// What the program reads and writes, as traits with a meaning.
ghost use Rattle.std.specs.Prelude.{◌≡◌, ℕ, List, Option, IfOk, OnOk};
ghost use Rattle.sk_files.specs.Outcome.{HasCause, OnFailed, OnNoMemory};
ghost use Rattle.sk_files.specs.Files.{Files, OnTold, IsOnceEach, IsTheRead, WritesFile, KeepsOthers};
ghost use Rattle.sk_files.specs.Taken.{Takes, TakesPrefix};
ghost use Rattle.sk_files.specs.declared.folder.OuterFault.TheVariants.{NoMemory};

use crate::NoMemory;
use std::alloc::Global;

/// Why a call to the outside gave no answer.
#[derive(Clone, Copy, Debug, PartialEq, Eq)]
pub enum OuterFault {
    /// The folder or the sink failed, and counted it.
    Failed,
    /// Memory was wanted.
    NoMemory,
}

impl From<NoMemory> for OuterFault {
    ghost from_gives = { λ _ e. e ≡ NoMemory };

    fn from(_: NoMemory) -> Self {
        OuterFault::NoMemory
    }
}

/// Files by name.
pub trait Folder {
    /// The files with their bytes, where the folder tells them. No name stands twice.
    ghost files: { Self → Option Files };

    /// How often the folder has failed. The count never falls.
    ghost faults: { Self → ℕ };

    /// The bytes of the file with this name, or None where there is no such file.
    fn read(&mut self, alloc: Global, name: &str) -> Result<Option<Vec<u8>>, OuterFault>
        ensures answer { IfOk result (IsTheRead (files self.old) name.now) }
        ensures same { files self.new ≡ files self.old }
        ensures once { OnTold (files self.new) IsOnceEach }
        ensures cause { HasCause (faults self.old) (faults self.new) result };

    /// Sets the file with this name to these bytes. After `Failed` that file may hold anything.
    fn write(&mut self, name: &str, bytes: &[u8]) -> Result<(), OuterFault>
        ensures written { OnOk result (WritesFile (files self.old) (files self.new) name.now bytes.now) }
        ensures failed { OnFailed result (KeepsOthers (files self.old) (files self.new) name.now) }
        ensures no_memory { OnNoMemory result (files self.new ≡ files self.old) }
        ensures once { OnTold (files self.new) IsOnceEach }
        ensures cause { HasCause (faults self.old) (faults self.new) result };
}

/// Bytes that are printed, piece by piece.
pub trait Sink {
    /// The bytes taken so far, where the sink tells them.
    ghost taken: { Self → Option (List ℕ) };

    /// How often the sink has failed. The count never falls.
    ghost faults: { Self → ℕ };

    /// Takes these bytes. After `Failed` it may have taken a first part of them.
    fn put(&mut self, bytes: &[u8]) -> Result<(), OuterFault>
        ensures taken { OnOk result (Takes (taken self.old) (taken self.new) bytes.now) }
        ensures failed { OnFailed result (TakesPrefix (taken self.old) (taken self.new) bytes.now) }
        ensures no_memory { OnNoMemory result (taken self.new ≡ taken self.old) }
        ensures cause { HasCause (faults self.old) (faults self.new) result };
}
