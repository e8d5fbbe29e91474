// Words that are no command, files that aren't there, and a folder and a sink that fail.

use crate::running::{bytes_of, folder_with, joined, ran, ran_over};
use crate::texts::{APART, CLOSED, GROUP_2, HEADER, POINTS, WORKPLANES, X, Y};
use sk_files::MemSink;
use std::test::Fail;

/// Two points 5 apart.
const MODEL: &[&[u8]] = &[
    HEADER, WORKPLANES, GROUP_2, POINTS, X, b"3", Y, b"4", APART, b"5", CLOSED,
];

/// Its report, in the two pieces that are put.
const BLOCK: &[u8] =
    b"group 00000002 certified\nunknowns 4 retained 1 free 3\nbound 36 spread 144\nheld 00040010 00050010 00050011\nparam 00040010 0.00000000000000000000\nparam 00040011 0.00000000000000000000 radius 2^-32\nparam 00050010 3.00000000000000000000\nparam 00050011 4.00000000000000000000\n";

const LAST: &[u8] = b"certified 1 of 1\n";

/// Words, the status, and what is put.
const REFUSED: [(&[&str], u8, &[u8]); 14] = [
    (&[], 1, b"fault words\n"),
    (&["report"], 1, b"fault words\n"),
    (&["report", "m.slvs", "o.slvs"], 1, b"fault words\n"),
    (&["regen", "m.slvs"], 1, b"fault words\n"),
    (&["fine"], 1, b"fault words\n"),
    (&["fine", "fine", "report", "m.slvs"], 1, b"fault words\n"),
    (&["Report", "m.slvs"], 1, b"fault words\n"),
    (&["dxf", "m.slvs", "sketch", "o.slvs"], 1, b"fault words\n"),
    (&["make", "0", "o.slvs"], 1, b"fault words\n"),
    (&["make", "91", "o.slvs"], 1, b"fault words\n"),
    (&["make", "01", "o.slvs"], 1, b"fault words\n"),
    (&["report", "none.slvs"], 3, b"fault absent none.slvs\n"),
    (
        &["fine", "regen", "none.slvs", "o.slvs"],
        3,
        b"fault absent none.slvs\n",
    ),
    (
        &["dxf", "m.slvs", "9", "o.slvs"],
        9,
        b"fault group 00000009\n",
    ),
];

/// Words, the calls of the folder and of the sink that fail, the status, and what is put.
const FAILED: [(&[&str], Option<u64>, Option<u64>, u8, &[&[u8]]); 11] = [
    (&["report", "m.slvs"], None, Some(1), 6, &[BLOCK]),
    (&["report", "m.slvs"], None, Some(0), 6, &[]),
    (
        &["report", "m.slvs"],
        Some(0),
        None,
        4,
        &[b"fault read m.slvs\n"],
    ),
    (
        &["regen", "m.slvs", "o.slvs"],
        Some(0),
        None,
        4,
        &[b"fault read m.slvs\n"],
    ),
    (
        &["regen", "m.slvs", "o.slvs"],
        Some(1),
        None,
        5,
        &[BLOCK, LAST, b"fault write o.slvs\n"],
    ),
    (&["regen", "m.slvs", "o.slvs"], None, Some(1), 6, &[BLOCK]),
    (
        &["regen", "m.slvs", "o.slvs"],
        Some(1),
        Some(2),
        6,
        &[BLOCK, LAST],
    ),
    (
        &["dxf", "m.slvs", "2", "o.slvs"],
        Some(1),
        None,
        5,
        &[BLOCK, LAST, b"fault write o.slvs\n"],
    ),
    (
        &["make", "1", "o.slvs"],
        Some(0),
        None,
        5,
        &[
            b"made 1 groups 3 certified 3 unknowns 10 retained 4 free 6\n",
            b"fault write o.slvs\n",
        ],
    ),
    (&["make", "1", "o.slvs"], None, Some(0), 6, &[]),
    (&["report"], None, Some(0), 6, &[]),
];

// Nothing is written.
#[test]
fn words_and_names_are_refused(rt: HostRuntime) -> Result<(), Fail> {
    let alloc = rt.alloc();
    for (words, wanted, put) in &REFUSED {
        let mut folder = folder_with(alloc, MODEL)?;
        let (status, out) = ran(alloc, words, &mut folder);
        assert_eq!(rt; status, *wanted);
        assert!(rt; out.taken() == *put);
        assert!(rt; bytes_of(alloc, &mut folder, "o.slvs").is_none());
    }
    Ok(())
}

// Nothing is written either; a sink that fails takes nothing of that piece.
#[test]
fn folder_and_sink_fail(rt: HostRuntime) -> Result<(), Fail> {
    let alloc = rt.alloc();
    for (words, read, put, wanted, taken) in &FAILED {
        let mut folder = folder_with(alloc, MODEL)?;
        if let Some(call) = read {
            folder.fail_at(*call)?;
        }
        let mut out = MemSink::new(alloc);
        if let Some(call) = put {
            out.fail_at(*call)?;
        }
        let status = ran_over(alloc, words, &mut folder, &mut out);
        assert_eq!(rt; status, *wanted);
        assert!(rt; out.taken() == joined(alloc, taken)?.as_slice());
        assert!(rt; bytes_of(alloc, &mut folder, "o.slvs").is_none());
    }
    Ok(())
}
