// Linked parts.

use crate::running::{bytes_of, folder_with, joined, ran};
use crate::texts::{HEADER, LINKED, PART, REFERENCE_ENTITIES, REFERENCE_PARAMETERS, WORKPLANES};
use std::test::Fail;

/// A case, the pieces of its part's text if there is one, the call of the folder that fails, the status, and what is put.
type Row = (
    &'static str,
    Option<&'static [&'static [u8]]>,
    Option<u64>,
    u8,
    &'static [u8],
);

const PARTS: [Row; 5] = [
    (
        "a part",
        Some(&[PART]),
        None,
        0,
        b"group 00000002 certified\nunknowns 7 retained 1 free 6\nbound 12 spread 48\nheld 80020000 80020001 80020002 80020004 80020005 80020006\nparam 80020000 10.00000000000000000000\nparam 80020001 0.00000000000000000000\nparam 80020002 0.00000000000000000000\nparam 80020003 1.00000000000000000000 radius 2^-32\nparam 80020004 0.00000000000000000000\nparam 80020005 0.00000000000000000000\nparam 80020006 0.00000000000000000000\ncertified 1 of 1\n",
    ),
    (
        "a part that isn't there",
        None,
        None,
        3,
        b"fault absent part.slvs\n",
    ),
    (
        "a part without its header",
        Some(&[
            b"Entity.h.v=40000\nEntity.type=2000\nEntity.actPoint.x=1\nEntity.actPoint.y=2\nEntity.actPoint.z=3\nAddEntity\n",
        ]),
        None,
        2,
        b"fault part part.slvs bad header\n",
    ),
    (
        "a part with a number that doesn't read",
        Some(&[
            HEADER,
            b"Entity.h.v=40000\nEntity.type=2000\nEntity.actPoint.x=one\nEntity.actPoint.y=2\nEntity.actPoint.z=3\nAddEntity\n",
        ]),
        None,
        2,
        b"fault part part.slvs number at 6\n",
    ),
    (
        "a part that isn't read",
        Some(&[PART]),
        Some(1),
        4,
        b"fault read part.slvs\n",
    ),
];

/// The linked model, regenerated.
const REGENERATED: &[&[u8]] = &[
    HEADER,
    WORKPLANES,
    REFERENCE_ENTITIES,
    b"Entity.h.v=80020001\nEntity.type=2011\nEntity.construction=0\nEntity.actPoint.x=11.00000000000000000000\nEntity.actPoint.y=2.00000000000000000000\nEntity.actPoint.z=3.00000000000000000000\nEntity.actVisible=1\nAddEntity\n\n",
    b"Group.h.v=2\nGroup.type=5300\nGroup.order=1\nGroup.impFileRel=part.slvs\nGroup.remap={\n    1 00040000 0\n}\nAddGroup\n\n",
    b"Param.h.v.=80020000\nParam.val=10\nAddParam\n\n",
    b"Param.h.v.=80020003\nParam.val=1\nAddParam\n\n",
    REFERENCE_PARAMETERS,
    b"Param.h.v.=80020001\nParam.val=0.00000000000000000000\nAddParam\n\n",
    b"Param.h.v.=80020002\nParam.val=0.00000000000000000000\nAddParam\n\n",
    b"Param.h.v.=80020004\nParam.val=0.00000000000000000000\nAddParam\n\n",
    b"Param.h.v.=80020005\nParam.val=0.00000000000000000000\nAddParam\n\n",
    b"Param.h.v.=80020006\nParam.val=0.00000000000000000000\nAddParam\n\n",
];

#[test]
fn parts_are_read(rt: HostRuntime) -> Result<(), Fail> {
    let alloc = rt.alloc();
    for (name, part, fails, wanted, put) in &PARTS {
        let mut folder = folder_with(alloc, &[HEADER, WORKPLANES, LINKED])?;
        if let Some(part) = part {
            folder.hold("part.slvs", &joined(alloc, part)?)?;
        }
        if let Some(call) = fails {
            folder.fail_at(*call)?;
        }
        let (status, out) = ran(alloc, &["report", "m.slvs"], &mut folder);
        assert_eq!(rt; status, *wanted, "{name}");
        assert!(rt; out.taken() == *put, "{name}");
    }
    Ok(())
}

#[test]
fn a_part_is_copied(rt: HostRuntime) -> Result<(), Fail> {
    let alloc = rt.alloc();
    let mut folder = folder_with(alloc, &[HEADER, WORKPLANES, LINKED])?;
    folder.hold("part.slvs", &joined(alloc, &[PART])?)?;
    let (status, _) = ran(alloc, &["regen", "m.slvs", "o.slvs"], &mut folder);
    assert_eq!(rt; status, 0);
    let text = bytes_of(alloc, &mut folder, "o.slvs").ok_or("no file")?;
    assert!(rt; text.as_slice() == joined(alloc, REGENERATED)?.as_slice());
    Ok(())
}
