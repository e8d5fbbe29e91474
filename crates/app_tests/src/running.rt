// Runs over folders and sinks in memory.
ghost use Rattle.std.specs.Prelude.{◌≡◌};

use sk_app::run;
use sk_count::Steps;
use sk_files::{Folder, MemFolder, MemSink};
use std::alloc::{AllocError, Global};
use std::marker::Brand;
use std::sync::ledger::{Blank, Ledger};

fn counted<L: Ledger>(
    alloc: Global,
    words: &[&str],
    folder: &mut MemFolder,
    out: &mut MemSink,
    blank: Blank,
) -> u8
    requires name { blank.name ≡ L.name }
    requires parts { blank.parts ≡ L.parts }
    requires whole { L.parts ≡ 1 }
{
    let mut steps = Steps::<L>::new(blank);
    run(alloc, words, folder, out, &mut steps)
}

/// The status of a run.
pub(crate) fn ran_over(
    alloc: Global,
    words: &[&str],
    folder: &mut MemFolder,
    out: &mut MemSink,
) -> u8 {
    counted::<Brand>(alloc, words, folder, out, Blank::new(1))
}

/// The status of a run, and the sink with what it put.
pub(crate) fn ran(alloc: Global, words: &[&str], folder: &mut MemFolder) -> (u8, MemSink) {
    let mut out = MemSink::new(alloc);
    let status = ran_over(alloc, words, folder, &mut out);
    (status, out)
}

/// The pieces one behind the other.
pub(crate) fn joined(alloc: Global, pieces: &[&[u8]]) -> Result<Vec<u8>, AllocError> {
    let mut all = Vec::new(alloc);
    for piece in pieces {
        all.extend_from_slice(piece)?;
    }
    Ok(all)
}

/// A folder that holds a model of these pieces.
pub(crate) fn folder_with(alloc: Global, model: &[&[u8]]) -> Result<MemFolder, AllocError> {
    let mut folder = MemFolder::new(alloc);
    folder.hold("m.slvs", &joined(alloc, model)?)?;
    Ok(folder)
}

/// The bytes of a file, if it is there.
pub(crate) fn bytes_of(alloc: Global, folder: &mut MemFolder, name: &str) -> Option<Vec<u8>> {
    match folder.read(alloc, name) {
        Ok(bytes) => bytes,
        Err(_) => None,
    }
}

/// The pieces, then 199 datum points in XY, and one more request of this kind.
pub(crate) fn with_points(
    alloc: Global,
    pieces: &[&[u8]],
    last: u32,
) -> Result<Vec<u8>, AllocError> {
    let mut text = joined(alloc, pieces)?;
    for number in 101..301u32 {
        let kind = if number == 300 { last } else { 101 };
        let record = format!(in alloc;
            "Request.h.v={number}\nRequest.type={kind}\nRequest.workplane.v=10000\nRequest.group.v=2\nAddRequest\n"
        )?;
        text.extend_from_slice(record.as_bytes())?;
    }
    Ok(text)
}
