// A folder in memory, which tells what it holds and fails where it is told to.
ghost use Rattle.std.specs.Prelude.{◌≡◌, ◌++◌, ◌∷◌, [], Some, true, false, IfOk, OnOk, OnErr, IsErrOf};
ghost use Rattle.std.specs.Option.{option_copied};
ghost use Rattle.sk_files.specs.Outcome.{HasCause, OnFailed};
ghost use Rattle.sk_files.specs.Files.{held, with_file, IsTheRead, IsOnceEach};
ghost use Rattle.sk_files.specs.Calls.{fails_next, after_call};
ghost use Rattle.sk_files.specs.Mem.{files_of, place_from};

use crate::calls::Calls;
use crate::{Folder, NoMemory, OuterFault};
use std::alloc::Global;
use std::marker::Model;

/// A file with its name.
#[derive(Drop)]
pub(crate) struct Held {
    pub(crate) name: String,
    pub(crate) bytes: Vec<u8>,
}

/// A folder in memory. It tells its files, and fails at the calls that are listed.
#[derive(Drop)]
pub struct MemFolder {
    alloc: Global,
    files: Vec<Held>,
    calls: Calls,
}

impl Model for MemFolder {
    ghost use Rattle.sk_files.specs.Files.{IsOnceEach};
    ghost use Rattle.sk_files.specs.Mem.{FolderState, files_of};

    ghost Value = { FolderState };

    ghost view = { λ s. record { files = files_of s.files.items; calls = s.calls } };

    ghost invariant = { λ s. IsOnceEach (files_of s.files.items) };
}

// The place of the file with this name.
fn place_of(files: &[Held], name: &str) -> Option<usize>
    ensures { result ≡ place_from name.now 0 (files_of files.now) }
{
    for (place, file) in files.iter().enumerate() {
        if file.name.as_str() == name {
            return Some(place);
        }
    }
    None
}

// The bytes of the file with this name.
fn bytes_of<'f>(files: &'f [Held], name: &str) -> Option<&'f [u8]>
    ensures { option_copied result ≡ held (files_of files.now) name.now }
{
    for file in files {
        if file.name.as_str() == name {
            return Some(&file.bytes);
        }
    }
    None
}

// Sets the file with this name to these bytes.

fn set_file(alloc: Global, files: &mut Vec<Held>, name: &str, bytes: &[u8]) -> Result<(), NoMemory>
    ensures ok { OnOk result (files_of files.new.items ≡ with_file (files_of files.old.items) name.now bytes.now) }
    ensures err { OnErr result (files_of files.new.items ≡ files_of files.old.items) }
{
    let bytes = Vec::from_slice(alloc, bytes)?;
    match place_of(files, name) {
        Some(place) => files[place].bytes = bytes,
        None => {
            let name = String::from_str(alloc, name)?;
            files.push(Held { name, bytes })?;
        }
    }
    Ok(())
}

impl MemFolder {
    /// A folder with no file, none of whose calls fails.
    pub fn new(alloc: Global) -> MemFolder
        ensures files { result.files ≡ [] }
        ensures calls { result.calls ≡ record { next = Some 0; listed = []; faults = 0 } }
    {
        MemFolder {
            alloc,
            files: Vec::new(alloc),
            calls: Calls::new(alloc),
        }
    }

    /// Sets the file with this name to these bytes. It counts as no call.
    pub fn hold(&mut self, name: &str, bytes: &[u8]) -> Result<(), NoMemory>
        ensures calls { self.new.calls ≡ self.old.calls }
        ensures ok { OnOk result (self.new.files ≡ with_file self.old.files name.now bytes.now) }
        ensures err { OnErr result (self.new.files ≡ self.old.files) }
    {
        set_file(self.alloc, &mut self.files, name, bytes)
    }

    /// The call of `read` or `write` with this number, counted together from 0, fails and leaves
    /// all files as they were.
    pub fn fail_at(&mut self, call: u64) -> Result<(), NoMemory>
        ensures files { self.new.files ≡ self.old.files }
        ensures ok { OnOk result (self.new.calls ≡ record self.old.calls { listed = self.old.calls.listed ++ call ∷ [] }) }
        ensures err { OnErr result (self.new.calls ≡ self.old.calls) }
    {
        self.calls.fail_at(call)
    }
}

impl Folder for MemFolder {
    ghost files = { λ s. Some s.files };

    ghost faults = { λ s. s.calls.faults };

    fn read(&mut self, alloc: Global, name: &str) -> Result<Option<Vec<u8>>, OuterFault>
        ensures calls { self.new.calls ≡ after_call self.old.calls }
        ensures same { self.new.files ≡ self.old.files }
        ensures listed { fails_next self.old.calls ≡ true → IsErrOf result OuterFault.Failed }
        ensures other { fails_next self.old.calls ≡ false → OnFailed result ⊥ }
        ensures answer { IfOk result (IsTheRead (Some self.old.files) name.now) }
        ensures once { IsOnceEach self.new.files }
        ensures cause { HasCause self.old.calls.faults self.new.calls.faults result }
    {
        if self.calls.begin() {
            return Err(OuterFault::Failed);
        }
        match bytes_of(&self.files, name) {
            Some(bytes) => Ok(Some(Vec::from_slice(alloc, bytes)?)),
            None => Ok(None),
        }
    }

    fn write(&mut self, name: &str, bytes: &[u8]) -> Result<(), OuterFault>
        ensures calls { self.new.calls ≡ after_call self.old.calls }
        ensures listed { fails_next self.old.calls ≡ true → IsErrOf result OuterFault.Failed }
        ensures other { fails_next self.old.calls ≡ false → OnFailed result ⊥ }
        ensures written { OnOk result (self.new.files ≡ with_file self.old.files name.now bytes.now) }
        ensures kept { OnErr result (self.new.files ≡ self.old.files) }
        ensures once { IsOnceEach self.new.files }
        ensures cause { HasCause self.old.calls.faults self.new.calls.faults result }
    {
        if self.calls.begin() {
            return Err(OuterFault::Failed);
        }
        set_file(self.alloc, &mut self.files, name, bytes)?;
        Ok(())
    }
}
