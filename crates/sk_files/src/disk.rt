// The real folder. It tells nothing, and counts each error.
ghost use Rattle.std.specs.Prelude.{◌≡◌, None};

use crate::{Folder, OuterFault};
use std::alloc::Global;
use std::io::{ErrorKind, Read};
use std::rt::Files;
use std::{fs, io};

// No text that the program takes is longer, so no more is read of a file.
const READ_LIMIT: u64 = (1 << 26) + 1;

/// The files that the system has. At most 2^26 + 1 bytes of a file are read.
#[derive(Drop)]
pub struct DiskFolder<'r, R: Files> {
    rt: &'r R,
    faults: u64,
}

impl<'r, R: Files> DiskFolder<'r, R> {
    /// The folder in which the program runs. It tells nothing, and no call of it has failed.
    pub fn new(rt: &'r R) -> DiskFolder<'r, R>
        ensures files { ⟦<DiskFolder<'r, R> as Folder>⟧.files result ≡ None }
        ensures faults { ⟦<DiskFolder<'r, R> as Folder>⟧.faults result ≡ 0 }
    {
        DiskFolder { rt, faults: 0 }
    }
}

fn read_front<R: Files>(rt: &R, alloc: Global, name: &str) -> io::Result<Vec<u8>> {
    let mut bytes = Vec::new(alloc);
    fs::open(rt, name)?
        .take(READ_LIMIT)
        .read_to_end(&mut bytes)?;
    Ok(bytes)
}

impl<R: Files> Folder for DiskFolder<'_, R> {
    ghost files = { λ _. None };

    ghost faults = { λ d. d.faults };

    fn read(&mut self, alloc: Global, name: &str) -> Result<Option<Vec<u8>>, OuterFault> {
        match read_front(self.rt, alloc, name) {
            Ok(bytes) => Ok(Some(bytes)),
            Err(error) => match error.kind() {
                ErrorKind::NotFound => Ok(None),
                ErrorKind::OutOfMemory => Err(OuterFault::NoMemory),
                _ => {
                    self.faults = self.faults.saturating_add(1);
                    Err(OuterFault::Failed)
                }
            },
        }
    }

    fn write(&mut self, name: &str, bytes: &[u8]) -> Result<(), OuterFault> {
        match fs::write(self.rt, name, bytes) {
            Ok(()) => Ok(()),
            Err(_) => {
                self.faults = self.faults.saturating_add(1);
                Err(OuterFault::Failed)
            }
        }
    }
}
