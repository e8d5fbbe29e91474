// Models that are regenerated, and once more from what was written.

use crate::running::{bytes_of, folder_with, joined, ran};
use crate::texts::{
    APART, CLOSED, EXTRUDED, GROUP_2, HEADER, LINE, POINT, POINTS, REFERENCE_ENTITIES,
    REFERENCE_PARAMETERS, WORKPLANES, X, Y,
};
use std::alloc::{AllocError, Global};
use std::test::Fail;

/// Words, and those that regenerate once more.
type Twice = [&'static [&'static str]; 2];

/// A case, its words, the pieces of its model's text, and those of what is written.
type Row = (
    &'static str,
    Twice,
    &'static [&'static [u8]],
    &'static [&'static [u8]],
);

const PLAIN: Twice = [
    &["regen", "m.slvs", "o.slvs"],
    &["regen", "o.slvs", "p.slvs"],
];

const FINE: Twice = [
    &["fine", "regen", "m.slvs", "o.slvs"],
    &["fine", "regen", "o.slvs", "p.slvs"],
];

// Two points, with a distance.
fn distances() -> [Row; 5] {
    [
        (
            "entities, styles and surfaces between the records",
            PLAIN,
            &[
                HEADER,
                b"Entity.h.v=00010000\nEntity.type=10000\nAddEntity\n\n",
                WORKPLANES,
                b"Group.h.v=2\nGroup.type=5000\nGroup.order=1\nGroup.name=sketch-in-plane\nGroup.color=ff000000\nAddGroup\n\n",
                b"Style.h.v=00000001\nStyle.name=outline\nAddStyle\n\n",
                POINTS,
                b"Entity.h.v=00050000\nEntity.type=2000\nEntity.actPoint.x=7\nAddEntity\n\n",
                X,
                b"3",
                Y,
                b"4",
                APART,
                b"5",
                CLOSED,
                b"Triangle 1 2 3\nAddSurface\n",
            ],
            &[
                HEADER,
                REFERENCE_ENTITIES,
                b"Entity.h.v=00040000\nEntity.type=2001\nEntity.construction=0\nEntity.workplane.v=00010000\nEntity.actVisible=1\nAddEntity\n\n",
                b"Entity.h.v=00050000\nEntity.type=2001\nEntity.construction=0\nEntity.workplane.v=00010000\nEntity.actPoint.x=3.00000000000000000000\nEntity.actPoint.y=4.00000000000000000000\nEntity.actVisible=1\nAddEntity\n\n",
                WORKPLANES,
                b"Group.h.v=2\nGroup.type=5000\nGroup.order=1\nGroup.name=sketch-in-plane\nGroup.color=ff000000\nAddGroup\n\n",
                b"Style.h.v=00000001\nStyle.name=outline\nAddStyle\n\n",
                POINTS,
                X,
                b"3",
                Y,
                b"4\nAddParam\n\n",
                REFERENCE_PARAMETERS,
                b"Param.h.v.=00040010\nParam.val=0.00000000000000000000\nAddParam\n\n",
                b"Param.h.v.=00040011\nParam.val=0.00000000000000000000",
                APART,
                b"5",
                CLOSED,
                b"Triangle 1 2 3\nAddSurface\n",
            ],
        ),
        (
            "a last line without an end, and no entity",
            PLAIN,
            &[
                HEADER,
                WORKPLANES,
                GROUP_2,
                POINTS,
                X,
                b"3",
                Y,
                b"4",
                APART,
                b"5\nAddConstraint",
            ],
            &[
                HEADER,
                WORKPLANES,
                GROUP_2,
                POINTS,
                REFERENCE_ENTITIES,
                b"Entity.h.v=00040000\nEntity.type=2001\nEntity.construction=0\nEntity.workplane.v=00010000\nEntity.actVisible=1\nAddEntity\n\n",
                b"Entity.h.v=00050000\nEntity.type=2001\nEntity.construction=0\nEntity.workplane.v=00010000\nEntity.actPoint.x=3.00000000000000000000\nEntity.actPoint.y=4.00000000000000000000\nEntity.actVisible=1\nAddEntity\n\n",
                X,
                b"3",
                Y,
                b"4\nAddParam\n\n",
                REFERENCE_PARAMETERS,
                b"Param.h.v.=00040010\nParam.val=0.00000000000000000000\nAddParam\n\n",
                b"Param.h.v.=00040011\nParam.val=0.00000000000000000000",
                APART,
                b"5\nAddConstraint",
            ],
        ),
        (
            "one step",
            PLAIN,
            &[
                HEADER,
                WORKPLANES,
                GROUP_2,
                POINTS,
                X,
                b"8",
                Y,
                b"0",
                APART,
                b"8.00390625",
                CLOSED,
            ],
            &[
                HEADER,
                WORKPLANES,
                GROUP_2,
                POINTS,
                REFERENCE_ENTITIES,
                b"Entity.h.v=00040000\nEntity.type=2001\nEntity.construction=0\nEntity.workplane.v=00010000\nEntity.actPoint.x=-0.00390720367431640625\nEntity.actVisible=1\nAddEntity\n\n",
                b"Entity.h.v=00050000\nEntity.type=2001\nEntity.construction=0\nEntity.workplane.v=00010000\nEntity.actPoint.x=8.00000000000000000000\nEntity.actVisible=1\nAddEntity\n\n",
                X,
                b"8",
                Y,
                b"0\nAddParam\n\n",
                REFERENCE_PARAMETERS,
                b"Param.h.v.=00040010\nParam.val=-0.00390720367431640625\nAddParam\n\n",
                b"Param.h.v.=00040011\nParam.val=0.00000000000000000000",
                APART,
                b"8.00390625",
                CLOSED,
            ],
        ),
        (
            "one step, fine",
            FINE,
            &[
                HEADER,
                WORKPLANES,
                GROUP_2,
                POINTS,
                X,
                b"8",
                Y,
                b"0",
                APART,
                b"8.00390625",
                CLOSED,
            ],
            &[
                HEADER,
                WORKPLANES,
                GROUP_2,
                POINTS,
                REFERENCE_ENTITIES,
                b"Entity.h.v=00040000\nEntity.type=2001\nEntity.construction=0\nEntity.workplane.v=00010000\nEntity.actPoint.x=-0.00390720367431640625\nEntity.actVisible=1\nAddEntity\n\n",
                b"Entity.h.v=00050000\nEntity.type=2001\nEntity.construction=0\nEntity.workplane.v=00010000\nEntity.actPoint.x=8.00000000000000000000\nEntity.actVisible=1\nAddEntity\n\n",
                X,
                b"8",
                Y,
                b"0\nAddParam\n\n",
                REFERENCE_PARAMETERS,
                b"Param.h.v.=00040010\nParam.val=-0.00390720367431640625\nAddParam\n\n",
                b"Param.h.v.=00040011\nParam.val=0.00000000000000000000",
                APART,
                b"8.00390625",
                CLOSED,
            ],
        ),
        (
            "spellings that stay",
            PLAIN,
            &[
                HEADER,
                WORKPLANES,
                GROUP_2,
                POINTS,
                X,
                b"3.0000000000000000000000000",
                Y,
                b"-0.0",
                APART,
                b"3",
                CLOSED,
            ],
            &[
                HEADER,
                WORKPLANES,
                GROUP_2,
                POINTS,
                REFERENCE_ENTITIES,
                b"Entity.h.v=00040000\nEntity.type=2001\nEntity.construction=0\nEntity.workplane.v=00010000\nEntity.actVisible=1\nAddEntity\n\n",
                b"Entity.h.v=00050000\nEntity.type=2001\nEntity.construction=0\nEntity.workplane.v=00010000\nEntity.actPoint.x=3.00000000000000000000\nEntity.actVisible=1\nAddEntity\n\n",
                X,
                b"3.0000000000000000000000000",
                Y,
                b"-0.0\nAddParam\n\n",
                REFERENCE_PARAMETERS,
                b"Param.h.v.=00040010\nParam.val=0.00000000000000000000\nAddParam\n\n",
                b"Param.h.v.=00040011\nParam.val=0.00000000000000000000",
                APART,
                b"3",
                CLOSED,
            ],
        ),
    ]
}

// Copied groups.
fn copies() -> [Row; 4] {
    [
        (
            "a translation, one-sided",
            PLAIN,
            &[
                HEADER,
                b"Group.h.v=3\nGroup.type=5201\nGroup.order=2\nGroup.opA.v=2\nGroup.valA=3\nGroup.subtype=7000\nAddGroup\n\n",
                WORKPLANES,
                GROUP_2,
                POINT,
                b"Param.h.v.=80030000\nParam.val=5\nAddParam\n\n",
            ],
            &[
                HEADER,
                b"Group.h.v=3\nGroup.type=5201\nGroup.order=2\nGroup.opA.v=2\nGroup.valA=3\nGroup.subtype=7000\nGroup.remap={\n    1 00040000 0\n    2 00040000 1\n    3 00040000 1000\n}\nAddGroup\n\n",
                WORKPLANES,
                GROUP_2,
                POINT,
                REFERENCE_ENTITIES,
                b"Entity.h.v=00040000\nEntity.type=2001\nEntity.construction=0\nEntity.workplane.v=00010000\nEntity.actVisible=1\nAddEntity\n\n",
                b"Entity.h.v=80030001\nEntity.type=2010\nEntity.construction=0\nEntity.actVisible=1\nAddEntity\n\n",
                b"Entity.h.v=80030002\nEntity.type=2010\nEntity.construction=0\nEntity.actPoint.x=10.00000000000000000000\nEntity.actVisible=1\nAddEntity\n\n",
                b"Entity.h.v=80030003\nEntity.type=2010\nEntity.construction=0\nEntity.actPoint.x=20.00000000000000000000\nEntity.actVisible=1\nAddEntity\n\n",
                b"Param.h.v.=80030000\nParam.val=5\nAddParam\n\n",
                REFERENCE_PARAMETERS,
                b"Param.h.v.=00040010\nParam.val=0.00000000000000000000\nAddParam\n\n",
                b"Param.h.v.=00040011\nParam.val=0.00000000000000000000\nAddParam\n\n",
                b"Param.h.v.=80030001\nParam.val=0.00000000000000000000\nAddParam\n\n",
                b"Param.h.v.=80030002\nParam.val=0.00000000000000000000\nAddParam\n\n",
            ],
        ),
        (
            "a translation, two-sided",
            PLAIN,
            &[
                HEADER,
                b"Group.h.v=3\nGroup.type=5201\nGroup.order=2\nGroup.opA.v=2\nGroup.valA=3\nGroup.subtype=7001\nAddGroup\n\n",
                WORKPLANES,
                GROUP_2,
                POINT,
                b"Param.h.v.=80030000\nParam.val=5\nAddParam\n\n",
            ],
            &[
                HEADER,
                b"Group.h.v=3\nGroup.type=5201\nGroup.order=2\nGroup.opA.v=2\nGroup.valA=3\nGroup.subtype=7001\nGroup.remap={\n    1 00040000 0\n    2 00040000 1\n    3 00040000 1000\n}\nAddGroup\n\n",
                WORKPLANES,
                GROUP_2,
                POINT,
                REFERENCE_ENTITIES,
                b"Entity.h.v=00040000\nEntity.type=2001\nEntity.construction=0\nEntity.workplane.v=00010000\nEntity.actVisible=1\nAddEntity\n\n",
                b"Entity.h.v=80030001\nEntity.type=2010\nEntity.construction=0\nEntity.actPoint.x=-10.00000000000000000000\nEntity.actVisible=1\nAddEntity\n\n",
                b"Entity.h.v=80030002\nEntity.type=2010\nEntity.construction=0\nEntity.actVisible=1\nAddEntity\n\n",
                b"Entity.h.v=80030003\nEntity.type=2010\nEntity.construction=0\nEntity.actPoint.x=10.00000000000000000000\nEntity.actVisible=1\nAddEntity\n\n",
                b"Param.h.v.=80030000\nParam.val=5\nAddParam\n\n",
                REFERENCE_PARAMETERS,
                b"Param.h.v.=00040010\nParam.val=0.00000000000000000000\nAddParam\n\n",
                b"Param.h.v.=00040011\nParam.val=0.00000000000000000000\nAddParam\n\n",
                b"Param.h.v.=80030001\nParam.val=0.00000000000000000000\nAddParam\n\n",
                b"Param.h.v.=80030002\nParam.val=0.00000000000000000000\nAddParam\n\n",
            ],
        ),
        (
            "a translation without the first",
            PLAIN,
            &[
                HEADER,
                b"Group.h.v=3\nGroup.type=5201\nGroup.order=2\nGroup.opA.v=2\nGroup.valA=3\nGroup.subtype=7000\nGroup.skipFirst=1\nAddGroup\n\n",
                WORKPLANES,
                GROUP_2,
                POINT,
                b"Param.h.v.=80030000\nParam.val=5\nAddParam\n\n",
            ],
            &[
                HEADER,
                b"Group.h.v=3\nGroup.type=5201\nGroup.order=2\nGroup.opA.v=2\nGroup.valA=3\nGroup.subtype=7000\nGroup.skipFirst=1\nGroup.remap={\n    1 00040000 1\n    2 00040000 2\n    3 00040000 1000\n}\nAddGroup\n\n",
                WORKPLANES,
                GROUP_2,
                POINT,
                REFERENCE_ENTITIES,
                b"Entity.h.v=00040000\nEntity.type=2001\nEntity.construction=0\nEntity.workplane.v=00010000\nEntity.actVisible=1\nAddEntity\n\n",
                b"Entity.h.v=80030001\nEntity.type=2010\nEntity.construction=0\nEntity.actPoint.x=10.00000000000000000000\nEntity.actVisible=1\nAddEntity\n\n",
                b"Entity.h.v=80030002\nEntity.type=2010\nEntity.construction=0\nEntity.actPoint.x=20.00000000000000000000\nEntity.actVisible=1\nAddEntity\n\n",
                b"Entity.h.v=80030003\nEntity.type=2010\nEntity.construction=0\nEntity.actPoint.x=30.00000000000000000000\nEntity.actVisible=1\nAddEntity\n\n",
                b"Param.h.v.=80030000\nParam.val=5\nAddParam\n\n",
                REFERENCE_PARAMETERS,
                b"Param.h.v.=00040010\nParam.val=0.00000000000000000000\nAddParam\n\n",
                b"Param.h.v.=00040011\nParam.val=0.00000000000000000000\nAddParam\n\n",
                b"Param.h.v.=80030001\nParam.val=0.00000000000000000000\nAddParam\n\n",
                b"Param.h.v.=80030002\nParam.val=0.00000000000000000000\nAddParam\n\n",
            ],
        ),
        (
            "an extrusion",
            PLAIN,
            &[
                HEADER,
                WORKPLANES,
                GROUP_2,
                LINE,
                b"Param.h.v.=40013\nParam.val=10\nAddParam\n\n",
                EXTRUDED,
            ],
            &[
                HEADER,
                WORKPLANES,
                GROUP_2,
                LINE,
                REFERENCE_ENTITIES,
                b"Entity.h.v=00040000\nEntity.type=11000\nEntity.construction=0\nEntity.point[0].v=00040001\nEntity.point[1].v=00040002\nEntity.workplane.v=00010000\nEntity.actVisible=1\nAddEntity\n\n",
                b"Entity.h.v=00040001\nEntity.type=2001\nEntity.construction=0\nEntity.workplane.v=00010000\nEntity.actVisible=1\nAddEntity\n\n",
                b"Entity.h.v=00040002\nEntity.type=2001\nEntity.construction=0\nEntity.workplane.v=00010000\nEntity.actPoint.x=10.00000000000000000000\nEntity.actVisible=1\nAddEntity\n\n",
                b"Entity.h.v=80030001\nEntity.type=5000\nEntity.construction=0\nEntity.point[0].v=80030006\nEntity.normal.v=00010020\nEntity.actNormal.vz=1.00000000000000000000\nEntity.actVisible=1\nAddEntity\n\n",
                b"Entity.h.v=80030002\nEntity.type=5000\nEntity.construction=0\nEntity.point[0].v=80030007\nEntity.normal.v=00010020\nEntity.actNormal.vz=1.00000000000000000000\nEntity.actVisible=1\nAddEntity\n\n",
                b"Entity.h.v=80030003\nEntity.type=11000\nEntity.construction=0\nEntity.point[0].v=80030006\nEntity.point[1].v=80030009\nEntity.actVisible=1\nAddEntity\n\n",
                b"Entity.h.v=80030004\nEntity.type=11000\nEntity.construction=0\nEntity.point[0].v=80030007\nEntity.point[1].v=8003000a\nEntity.actVisible=1\nAddEntity\n\n",
                b"Entity.h.v=80030005\nEntity.type=5001\nEntity.construction=0\nEntity.point[0].v=80030006\nEntity.point[1].v=80030009\nEntity.actNormal.vy=50.00000000000000000000\nEntity.actVisible=1\nAddEntity\n\n",
                b"Entity.h.v=80030006\nEntity.type=2010\nEntity.construction=0\nEntity.actPoint.z=10.00000000000000000000\nEntity.actVisible=1\nAddEntity\n\n",
                b"Entity.h.v=80030007\nEntity.type=2010\nEntity.construction=0\nEntity.actVisible=1\nAddEntity\n\n",
                b"Entity.h.v=80030008\nEntity.type=11000\nEntity.construction=0\nEntity.point[0].v=80030006\nEntity.point[1].v=80030007\nEntity.actVisible=1\nAddEntity\n\n",
                b"Entity.h.v=80030009\nEntity.type=2010\nEntity.construction=0\nEntity.actPoint.x=10.00000000000000000000\nEntity.actPoint.z=10.00000000000000000000\nEntity.actVisible=1\nAddEntity\n\n",
                b"Entity.h.v=8003000a\nEntity.type=2010\nEntity.construction=0\nEntity.actPoint.x=10.00000000000000000000\nEntity.actVisible=1\nAddEntity\n\n",
                b"Entity.h.v=8003000b\nEntity.type=11000\nEntity.construction=0\nEntity.point[0].v=80030009\nEntity.point[1].v=8003000a\nEntity.actVisible=1\nAddEntity\n\n",
                b"Param.h.v.=40013\nParam.val=10\nAddParam\n\n",
                b"Group.h.v=3\nGroup.type=5100\nGroup.order=2\nGroup.opA.v=2\nGroup.subtype=7000\nGroup.predef.entityB.v=10000\nGroup.remap={\n    1 00000000 1001\n    2 00000000 1002\n    3 00040000 1001\n    4 00040000 1002\n    5 00040000 1004\n    6 00040001 1001\n    7 00040001 1002\n    8 00040001 1003\n    9 00040002 1001\n    10 00040002 1002\n    11 00040002 1003\n}\nAddGroup\n\n",
                b"Param.h.v.=80030002\nParam.val=5\nAddParam\n\n",
                REFERENCE_PARAMETERS,
                b"Param.h.v.=00040010\nParam.val=0.00000000000000000000\nAddParam\n\n",
                b"Param.h.v.=00040011\nParam.val=0.00000000000000000000\nAddParam\n\n",
                b"Param.h.v.=00040014\nParam.val=0.00000000000000000000\nAddParam\n\n",
                b"Param.h.v.=80030000\nParam.val=0.00000000000000000000\nAddParam\n\n",
                b"Param.h.v.=80030001\nParam.val=0.00000000000000000000\nAddParam\n\n",
            ],
        ),
    ]
}

// Whether both runs end well and put the same, and both files are this text.
fn is_right(alloc: Global, words: Twice, model: &[&[u8]], text: &[u8]) -> Result<bool, AllocError> {
    let mut folder = folder_with(alloc, model)?;
    let (status, first) = ran(alloc, words[0], &mut folder);
    let (again, second) = ran(alloc, words[1], &mut folder);
    let once = bytes_of(alloc, &mut folder, "o.slvs");
    let twice = bytes_of(alloc, &mut folder, "p.slvs");
    match (once, twice) {
        (Some(once), Some(twice)) => Ok(
            status == 0
                && again == 0
                && first.taken() == second.taken()
                && once.as_slice() == text
                && twice.as_slice() == text,
        ),
        _ => Ok(false),
    }
}

// The first case that comes out otherwise.
fn wrong(alloc: Global, rows: &[Row]) -> Result<Option<&'static str>, AllocError> {
    for (name, words, model, wanted) in rows {
        let text = joined(alloc, wanted)?;
        if !is_right(alloc, *words, model, &text)? {
            return Ok(Some(*name));
        }
    }
    Ok(None)
}

#[test]
fn a_regenerated_text_is_its_own_regeneration(rt: HostRuntime) -> Result<(), Fail> {
    let alloc = rt.alloc();
    assert_eq!(rt; wrong(alloc, &distances())?, None);
    assert_eq!(rt; wrong(alloc, &copies())?, None);
    Ok(())
}
