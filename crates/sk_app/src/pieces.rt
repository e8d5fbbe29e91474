// Pieces of text, put one after another, and the file behind them.
ghost use Rattle.std.specs.Prelude.{◌≡◌, ◌≤◌, ◌⊎◌, ◌∷◌, [], Some, IfOk, OnOk};
ghost use Rattle.sk_files.specs.Outcome.{Rose, HasCause, OnFailed, OnNoMemory};
ghost use Rattle.sk_files.specs.Taken.{Takes, TakesPrefix};
ghost use Rattle.sk_app.specs.declared.status.End.TheVariants.{WriteFailed, SinkFailed, NoMemory as Wanting};
ghost use Rattle.sk_app.specs.Ends.{joined, failed_line, memory_line, run_over, Finishes, TakesLine, TakesWhole};
ghost use Rattle.sk_app.specs.Lent.{file_in, shown, texts};

use crate::NoMemory;
use crate::prepared::{OutFile, Prepared};
use crate::status::{End, Status};
use sk_files::{Folder, OuterFault, Sink};
use std::alloc::Global;

/// Puts the pieces in order, up to the first put that doesn't take its piece.
pub(crate) fn put_all<W: Sink>(out: &mut W, pieces: &[Vec<u8>]) -> Result<(), OuterFault>
    ensures all { OnOk result (Takes (W.taken out.old) (W.taken out.new) (joined (texts pieces.now))) }
    ensures failed { OnFailed result (TakesPrefix (W.taken out.old) (W.taken out.new) (joined (texts pieces.now))) }
    ensures no_memory { OnNoMemory result (TakesWhole (W.taken out.old) (W.taken out.new) (texts pieces.now)) }
    ensures cause { HasCause (W.faults out.old) (W.faults out.new) result }
{
    for piece in pieces {
        out.put(piece)?;
    }
    Ok(())
}

/// Puts the line on want of memory, and tells how that ends the run.
pub(crate) fn put_memory<W: Sink>(out: &mut W) -> End
    ensures end { (result ≡ SinkFailed) ⊎ (result ≡ Wanting) }
    ensures failed { result ≡ SinkFailed → Rose (W.faults out.old) (W.faults out.new) × TakesPrefix (W.taken out.old) (W.taken out.new) (joined memory_line) }
    ensures memory { result ≡ Wanting → TakesLine (W.taken out.old) (W.taken out.new) }
    ensures later { W.faults out.old ≤ W.faults out.new }
{
    match out.put(b"fault memory\n") {
        Ok(()) => End::NoMemory,
        Err(OuterFault::Failed) => End::SinkFailed,
        Err(OuterFault::NoMemory) => End::NoMemory,
    }
}

// The line on a write that failed.
fn write_line(alloc: Global, name: &str) -> Result<Vec<u8>, NoMemory>
    ensures { IfOk result (λ t. t.items ∷ [] ≡ failed_line name.now) }
{
    let mut line = Vec::from_slice(alloc, b"fault write ")?;
    line.extend_from_slice(name.as_bytes())?;
    line.extend_from_slice(b"\n")?;
    Ok(line)
}

// Puts the line on a write that failed, and tells how that ends the run.
fn put_write<W: Sink>(alloc: Global, out: &mut W, name: &str) -> End
    ensures end { (result ≡ WriteFailed) ⊎ ((result ≡ SinkFailed) ⊎ (result ≡ Wanting)) }
    ensures wrote { result ≡ WriteFailed → Takes (W.taken out.old) (W.taken out.new) (joined (failed_line name.now)) }
    ensures failed { result ≡ SinkFailed → Rose (W.faults out.old) (W.faults out.new)
        × (TakesPrefix (W.taken out.old) (W.taken out.new) (joined (failed_line name.now)) ⊎ TakesPrefix (W.taken out.old) (W.taken out.new) (joined memory_line)) }
    ensures memory { result ≡ Wanting → TakesLine (W.taken out.old) (W.taken out.new) }
    ensures later { W.faults out.old ≤ W.faults out.new }
{
    let Ok(line) = write_line(alloc, name) else {
        return put_memory(out);
    };
    match out.put(&line) {
        Ok(()) => End::WriteFailed,
        Err(OuterFault::Failed) => End::SinkFailed,
        Err(OuterFault::NoMemory) => put_memory(out),
    }
}

// Writes a file, after which the status comes.
fn write<F: Folder, W: Sink>(
    alloc: Global,
    folder: &mut F,
    out: &mut W,
    file: &OutFile<'_>,
    status: Status,
) -> End
    ensures end { Finishes (record { pieces = []; status = status; file = Some (file_in file.now) }) (run_over (W.taken out.old) (W.taken out.new) (F.files folder.old) (F.files folder.new) 0 0 (F.faults folder.old) (F.faults folder.new) (W.faults out.old) (W.faults out.new)) result }
    ensures folder { F.faults folder.old ≤ F.faults folder.new }
    ensures sink { W.faults out.old ≤ W.faults out.new }
{
    match folder.write(file.name, &file.bytes) {
        Ok(()) => End::Full(status),
        Err(OuterFault::Failed) => put_write(alloc, out, file.name),
        Err(OuterFault::NoMemory) => put_memory(out),
    }
}

/// Writes the file of a run all of whose pieces are put, and tells how the run ends.
pub(crate) fn finish<F: Folder, W: Sink>(
    alloc: Global,
    folder: &mut F,
    out: &mut W,
    prepared: &Prepared<'_>,
) -> End
    ensures end { Finishes (shown prepared.now) (run_over (W.taken out.old) (W.taken out.new) (F.files folder.old) (F.files folder.new) 0 0 (F.faults folder.old) (F.faults folder.new) (W.faults out.old) (W.faults out.new)) result }
    ensures folder { F.faults folder.old ≤ F.faults folder.new }
    ensures sink { W.faults out.old ≤ W.faults out.new }
{
    match &prepared.file {
        Some(file) => write(alloc, folder, out, file, prepared.status),
        None => End::Full(prepared.status),
    }
}
