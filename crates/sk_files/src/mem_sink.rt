// A sink in memory, which tells what it took and fails where it is told to.
ghost use Rattle.std.specs.Prelude.{◌≡◌, ◌++◌, ◌∷◌, [], Some, true, false, OnOk, OnErr, IsErrOf};
ghost use Rattle.sk_files.specs.Outcome.{HasCause, OnFailed, OnNoMemory};
ghost use Rattle.sk_files.specs.Taken.{Takes};
ghost use Rattle.sk_files.specs.Calls.{fails_next, after_call};

use crate::calls::Calls;
use crate::{NoMemory, OuterFault, Sink};
use std::alloc::Global;
use std::marker::Model;

/// A sink in memory. It tells the bytes that it took, and fails at the calls that are listed.
#[derive(Drop)]
pub struct MemSink {
    bytes: Vec<u8>,
    calls: Calls,
}

impl Model for MemSink {
    ghost use Rattle.sk_files.specs.Mem.{SinkState};

    ghost Value = { SinkState };

    ghost view = { λ s. record { taken = s.bytes.items; calls = s.calls } };
}

impl MemSink {
    /// A sink that took nothing, none of whose calls fails.
    pub fn new(alloc: Global) -> MemSink
        ensures taken { result.taken ≡ [] }
        ensures calls { result.calls ≡ record { next = Some 0; listed = []; faults = 0 } }
    {
        MemSink {
            bytes: Vec::new(alloc),
            calls: Calls::new(alloc),
        }
    }

    /// The call of `put` with this number, counted from 0, fails and takes nothing.
    pub fn fail_at(&mut self, call: u64) -> Result<(), NoMemory>
        ensures taken { self.new.taken ≡ self.old.taken }
        ensures ok { OnOk result (self.new.calls ≡ record self.old.calls { listed = self.old.calls.listed ++ call ∷ [] }) }
        ensures err { OnErr result (self.new ≡ self.old) }
    {
        self.calls.fail_at(call)
    }

    /// The bytes that it took.
    pub fn taken(&self) -> &[u8]
        ensures { result.now ≡ self.now.taken }
    {
        &self.bytes
    }
}

impl Sink for MemSink {
    ghost taken = { λ s. Some s.taken };

    ghost faults = { λ s. s.calls.faults };

    fn put(&mut self, bytes: &[u8]) -> Result<(), OuterFault>
        ensures calls { self.new.calls ≡ after_call self.old.calls }
        ensures listed { fails_next self.old.calls ≡ true → IsErrOf result OuterFault.Failed }
        ensures other { fails_next self.old.calls ≡ false → OnFailed result ⊥ }
        ensures taken { OnOk result (Takes (Some self.old.taken) (Some self.new.taken) bytes.now) }
        ensures kept { OnErr result (self.new.taken ≡ self.old.taken) }
        ensures cause { HasCause self.old.calls.faults self.new.calls.faults result }
    {
        if self.calls.begin() {
            return Err(OuterFault::Failed);
        }
        self.bytes.extend_from_slice(bytes)?;
        Ok(())
    }
}
