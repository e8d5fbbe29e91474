// Drawings, and models that are made.

use crate::running::{bytes_of, folder_with, ran};
use crate::texts::{ARC, EXTRUDED, GROUP_2, HEADER, LINE, WORKPLANES};
use sk_files::MemFolder;
use std::test::Fail;

/// A case, its words, the pieces of its model's text, what is put, and what is written.
type Row = (
    &'static str,
    &'static [&'static str],
    &'static [&'static [u8]],
    &'static [u8],
    &'static [u8],
);

const DRAWN: [Row; 3] = [
    (
        "the line of an extrusion",
        &["dxf", "m.slvs", "2", "o.slvs"],
        &[
            HEADER,
            WORKPLANES,
            GROUP_2,
            LINE,
            b"Param.h.v.=40013\nParam.val=10\nAddParam\n\n",
            EXTRUDED,
        ],
        b"group 00000002 certified\nunknowns 4 retained 0 free 4\nbound 0 spread 0\nheld 00040010 00040011 00040013 00040014\nparam 00040010 0.00000000000000000000\nparam 00040011 0.00000000000000000000\nparam 00040013 10.00000000000000000000\nparam 00040014 0.00000000000000000000\ngroup 00000003 certified\nunknowns 3 retained 2 free 1\nbound 4 spread 16\nheld 80030002\nparam 80030000 0.00000000000000000000 radius 2^-32\nparam 80030001 0.00000000000000000000 radius 2^-32\nparam 80030002 5.00000000000000000000\ncertified 2 of 2\n",
        b"0\nSECTION\n2\nENTITIES\n0\nLINE\n8\n0\n10\n0.00000000000000000000\n20\n0.00000000000000000000\n30\n0.00000000000000000000\n11\n10.00000000000000000000\n21\n0.00000000000000000000\n31\n0.00000000000000000000\n0\nENDSEC\n0\nEOF\n",
    ),
    (
        "half a circle",
        &["dxf", "m.slvs", "00000002", "o.slvs"],
        &[
            HEADER,
            WORKPLANES,
            GROUP_2,
            ARC,
            b"Param.h.v.=40013\nParam.val=1\nAddParam\n\n",
            b"Param.h.v.=40016\nParam.val=-1\nAddParam\n\n",
        ],
        b"group 00000002 certified\nunknowns 6 retained 1 free 5\nbound 20 spread 80\nheld 00040011 00040013 00040014 00040016 00040017\nparam 00040010 0.00000000000000000000 radius 2^-32\nparam 00040011 0.00000000000000000000\nparam 00040013 1.00000000000000000000\nparam 00040014 0.00000000000000000000\nparam 00040016 -1.00000000000000000000\nparam 00040017 0.00000000000000000000\ncertified 1 of 1\n",
        b"0\nSECTION\n2\nENTITIES\n0\nPOLYLINE\n8\n0\n66\n1\n70\n0\n0\nVERTEX\n8\n0\n10\n1.00000000000000000000\n20\n0.00000000000000000000\n30\n0.00000000000000000000\n42\n1.00000000000000000000\n0\nVERTEX\n8\n0\n10\n-1.00000000000000000000\n20\n0.00000000000000000000\n30\n0.00000000000000000000\n0\nSEQEND\n0\nENDSEC\n0\nEOF\n",
    ),
    (
        "half a circle, fine",
        &["fine", "dxf", "m.slvs", "2", "o.slvs"],
        &[
            HEADER,
            WORKPLANES,
            GROUP_2,
            ARC,
            b"Param.h.v.=40013\nParam.val=1\nAddParam\n\n",
            b"Param.h.v.=40016\nParam.val=-1\nAddParam\n\n",
        ],
        b"group 00000002 certified\nunknowns 6 retained 1 free 5\nbound 20 spread 80\nheld 00040011 00040013 00040014 00040016 00040017\nparam 00040010 0.00000000000000000000 radius 2^-40\nparam 00040011 0.00000000000000000000\nparam 00040013 1.00000000000000000000\nparam 00040014 0.00000000000000000000\nparam 00040016 -1.00000000000000000000\nparam 00040017 0.00000000000000000000\ncertified 1 of 1\n",
        b"0\nSECTION\n2\nENTITIES\n0\nPOLYLINE\n8\n0\n66\n1\n70\n0\n0\nVERTEX\n8\n0\n10\n1.00000000000000000000\n20\n0.00000000000000000000\n30\n0.00000000000000000000\n42\n1.00000000000000000000\n0\nVERTEX\n8\n0\n10\n-1.00000000000000000000\n20\n0.00000000000000000000\n30\n0.00000000000000000000\n0\nSEQEND\n0\nENDSEC\n0\nEOF\n",
    ),
];

/// Words, those that regenerate once more, and the line that is put.
const MADE: [(&[&str], &[&str], &[u8]); 3] = [
    (
        &["make", "1", "o.slvs"],
        &["regen", "o.slvs", "p.slvs"],
        b"made 1 groups 3 certified 3 unknowns 10 retained 4 free 6\n",
    ),
    (
        &["make", "11", "o.slvs"],
        &["regen", "o.slvs", "p.slvs"],
        b"made 11 groups 3 certified 3 unknowns 52 retained 46 free 6\n",
    ),
    (
        &["fine", "make", "1", "o.slvs"],
        &["fine", "regen", "o.slvs", "p.slvs"],
        b"made 1 groups 3 certified 3 unknowns 10 retained 4 free 6\n",
    ),
];

#[test]
fn groups_are_drawn(rt: HostRuntime) -> Result<(), Fail> {
    let alloc = rt.alloc();
    for (name, words, model, put, drawing) in &DRAWN {
        let mut folder = folder_with(alloc, model)?;
        let (status, out) = ran(alloc, words, &mut folder);
        assert_eq!(rt; status, 0, "{name}");
        assert!(rt; out.taken() == *put, "{name}");
        let file = bytes_of(alloc, &mut folder, "o.slvs").ok_or("no file")?;
        assert!(rt; file.as_slice() == *drawing, "{name}");
    }
    Ok(())
}

#[test]
fn a_made_model_is_its_own_regeneration(rt: HostRuntime) -> Result<(), Fail> {
    let alloc = rt.alloc();
    for (words, again, put) in &MADE {
        let mut folder = MemFolder::new(alloc);
        let (status, out) = ran(alloc, words, &mut folder);
        assert_eq!(rt; status, 0);
        assert!(rt; out.taken() == *put);
        let (status, _) = ran(alloc, again, &mut folder);
        assert_eq!(rt; status, 0);
        let made = bytes_of(alloc, &mut folder, "o.slvs").ok_or("no file")?;
        let regenerated = bytes_of(alloc, &mut folder, "p.slvs").ok_or("no file")?;
        assert!(rt; made.starts_with(HEADER) && made.as_slice() == regenerated.as_slice());
    }
    Ok(())
}

#[test]
fn a_chain_of_90_lines_is_made(rt: HostRuntime) -> Result<(), Fail> {
    let alloc = rt.alloc();
    let mut folder = MemFolder::new(alloc);
    let (status, out) = ran(alloc, &["make", "90", "o.slvs"], &mut folder);
    assert_eq!(rt; status, 0);
    assert!(rt;
        out.taken() == b"made 90 groups 3 certified 3 unknowns 382 retained 376 free 6\n".as_slice()
    );
    Ok(())
}
