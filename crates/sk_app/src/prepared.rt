// What a run puts and writes, made before the first put.
ghost use Rattle.std.specs.Prelude.{◌≡◌, Err, IfOk};
ghost use Rattle.sk_app.specs.Answer.{answered};
ghost use Rattle.sk_app.specs.FaultText.{fault_line, fault_text};
ghost use Rattle.sk_app.specs.Lent.{fault_of, shown};

use crate::NoMemory;
use crate::fault::Fault;
use crate::fault_text::push_fault;
use crate::status::Status;
use std::alloc::Global;

/// A file that is written, by its name.
#[derive(Drop)]
pub(crate) struct OutFile<'w> {
    pub(crate) name: &'w str,
    pub(crate) bytes: Vec<u8>,
}

/// All pieces in order, the status after the last, and the file that is written then.
#[derive(Drop)]
pub(crate) struct Prepared<'w> {
    pub(crate) pieces: Vec<Vec<u8>>,
    pub(crate) status: Status,
    pub(crate) file: Option<OutFile<'w>>,
}

/// The line on a fault.
pub(crate) fn fault_line(alloc: Global, fault: &Fault<'_>) -> Result<Vec<u8>, NoMemory>
    ensures { IfOk result (λ t. t.items ≡ fault_line (fault_text (fault_of fault.now))) }
{
    let mut line = Vec::from_slice(alloc, b"fault ")?;
    push_fault(&mut line, fault)?;
    line.extend_from_slice(b"\n")?;
    Ok(line)
}

impl<'w> Prepared<'w> {
    /// One fault line.
    pub(crate) fn refused(alloc: Global, fault: &Fault<'_>) -> Result<Prepared<'w>, NoMemory>
        ensures { IfOk result (λ p. shown p ≡ answered (Err (fault_of fault.now))) }
    {
        let mut pieces = Vec::new(alloc);
        pieces.push(fault_line(alloc, fault)?)?;
        Ok(Prepared {
            pieces,
            status: fault.status(),
            file: None,
        })
    }
}
