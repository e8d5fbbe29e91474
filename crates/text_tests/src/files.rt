// Files and bytes in memory, and one real file and the real output.
use sk_files::{DiskFolder, Folder, MemFolder, MemSink, OutSink, OuterFault, Sink};
use std::{fs, io};

#[test]
fn a_folder_in_memory_holds_what_is_written(rt: HostRuntime) -> Result<(), OuterFault> {
    let alloc = rt.alloc();
    let mut folder = MemFolder::new(alloc);
    folder.hold("a.slvs", b"one")?;
    folder.hold("b.slvs", b"two")?;
    folder.hold("a.slvs", b"three")?;
    folder.fail_at(1)?;
    assert!(rt; folder.read(alloc, "none.slvs")?.is_none());
    assert!(rt; folder.write("b.slvs", b"lost") == Err(OuterFault::Failed));
    folder.write("c.slvs", b"four")?;
    for (name, want) in [("a.slvs", "three"), ("b.slvs", "two"), ("c.slvs", "four")] {
        match folder.read(alloc, name)? {
            Some(bytes) => assert!(rt; bytes.as_slice() == want.as_bytes(), "at {name}"),
            None => assert!(rt; false, "no {name}"),
        }
    }
    Ok(())
}

#[test]
fn a_sink_in_memory_fails_where_it_is_told_to(rt: HostRuntime) -> Result<(), OuterFault> {
    let mut sink = MemSink::new(rt.alloc());
    sink.fail_at(1)?;
    sink.put(b"one ")?;
    assert!(rt; sink.put(b"two ") == Err(OuterFault::Failed));
    sink.put(b"three")?;
    assert!(rt; sink.taken() == b"one three".as_slice());
    Ok(())
}

#[test]
fn a_real_file_reads_back(rt: HostRuntime) -> Result<(), OuterFault> {
    let alloc = rt.alloc();
    let mut folder = DiskFolder::new(&rt);
    assert!(rt; folder.read(alloc, "no-such-file.slvs")?.is_none());
    folder.write("file.slvs", b"first and longer")?;
    folder.write("file.slvs", b"second")?;
    match folder.read(alloc, "file.slvs")? {
        Some(bytes) => assert!(rt; bytes.as_slice() == b"second".as_slice()),
        None => assert!(rt; false, "the file is there"),
    }
    assert!(rt; fs::remove_file(&rt, "file.slvs").is_ok());
    assert!(rt; folder.read(alloc, ".") == Err(OuterFault::Failed));
    Ok(())
}

#[test]
fn the_real_output_takes_pieces(rt: HostRuntime) {
    let mut out = OutSink::new(io::writer(&rt));
    assert!(rt; out.put(b"a piece\n") == Ok(()));
}
