// The calls of a folder or a sink in memory, some of which are to fail.
ghost use Rattle.std.specs.Prelude.{◌≡◌, ◌≤◌, ◌++◌, ◌∷◌, [], Some, true, OnOk, OnErr};
ghost use Rattle.sk_files.specs.Calls.{fails_next, after_call};
ghost use Rattle.sk_files.specs.Outcome.{Rose};

use crate::NoMemory;
use std::alloc::Global;
use std::marker::Model;

/// Calls numbered from 0, with a list of those that fail.
#[derive(Drop)]
pub(crate) struct Calls {
    next: Option<u64>,
    listed: Vec<u64>,
    faults: u64,
}

impl Model for Calls {
    ghost use Rattle.sk_files.specs.Calls.{CallState};

    ghost Value = { CallState };

    ghost view = { λ s. record { next = s.next; listed = s.listed.items; faults = s.faults } };
}

impl Calls {
    pub(crate) fn new(alloc: Global) -> Calls
        ensures { result ≡ record { next = Some 0; listed = []; faults = 0 } }
    {
        Calls {
            next: Some(0),
            listed: Vec::new(alloc),
            faults: 0,
        }
    }

    /// The call with this number fails.
    pub(crate) fn fail_at(&mut self, call: u64) -> Result<(), NoMemory>
        ensures ok { OnOk result (self.new ≡ record self.old { listed = self.old.listed ++ call ∷ [] }) }
        ensures err { OnErr result (self.new ≡ self.old) }
    {
        self.listed.push(call)?;
        Ok(())
    }

    fn fails_next(&self) -> bool
        ensures { result ≡ fails_next self.now }
    {
        match self.next {
            Some(number) => self.listed.contains(&number),
            None => false,
        }
    }

    /// Counts one call, and tells whether it fails.
    pub(crate) fn begin(&mut self) -> bool
        ensures fails { result ≡ fails_next self.old }
        ensures counted { self.new ≡ after_call self.old }
        ensures later { self.old.faults ≤ self.new.faults }
        ensures rose { result ≡ true → Rose self.old.faults self.new.faults }
    {
        let fails = self.fails_next();
        if fails {
            self.faults = self.faults.saturating_add(1);
        }
        self.next = match self.next {
            Some(number) => number.checked_add(1),
            None => None,
        };
        fails
    }
}
