// Models that are reported, and models that are refused.

use crate::running::{folder_with, ran, with_points};
use crate::texts::{
    AGAIN, ANGLE, APART, CIRCLE, CLOSED, DIAMETER, EXTRUDED, GROUP_2, HEADER, LINE, LINES, POINT,
    POINTS, WORKPLANES, X, Y,
};
use sk_files::MemFolder;
use std::alloc::{AllocError, Global};
use std::test::Fail;

/// A case, its words, the pieces of its model's text, the status, and what is put.
type Row = (
    &'static str,
    &'static [&'static str],
    &'static [&'static [u8]],
    u8,
    &'static [u8],
);

const PLAIN: &[&str] = &["report", "m.slvs"];

const FINE: &[&str] = &["fine", "report", "m.slvs"];

// Two points, with a distance.
fn distances() -> [Row; 13] {
    [
        (
            "two points 5 apart",
            PLAIN,
            &[
                HEADER, WORKPLANES, GROUP_2, POINTS, X, b"3", Y, b"4", APART, b"5", CLOSED,
            ],
            0,
            b"group 00000002 certified\nunknowns 4 retained 1 free 3\nbound 36 spread 144\nheld 00040010 00050010 00050011\nparam 00040010 0.00000000000000000000\nparam 00040011 0.00000000000000000000 radius 2^-32\nparam 00050010 3.00000000000000000000\nparam 00050011 4.00000000000000000000\ncertified 1 of 1\n",
        ),
        (
            "two points 5 apart, fine",
            FINE,
            &[
                HEADER, WORKPLANES, GROUP_2, POINTS, X, b"3", Y, b"4", APART, b"5", CLOSED,
            ],
            0,
            b"group 00000002 certified\nunknowns 4 retained 1 free 3\nbound 36 spread 144\nheld 00040010 00050010 00050011\nparam 00040010 0.00000000000000000000\nparam 00040011 0.00000000000000000000 radius 2^-40\nparam 00050010 3.00000000000000000000\nparam 00050011 4.00000000000000000000\ncertified 1 of 1\n",
        ),
        (
            "a distance twice",
            PLAIN,
            &[
                HEADER, WORKPLANES, GROUP_2, POINTS, X, b"3", Y, b"4", APART, b"5", CLOSED, AGAIN,
                b"5", CLOSED,
            ],
            0,
            b"group 00000002 certified\nunknowns 4 retained 1 free 3\nbound 36 spread 144\nheld 00040010 00050010 00050011\nsuspect c 00000002 0 open\nparam 00040010 0.00000000000000000000\nparam 00040011 0.00000000000000000000 radius 2^-32\nparam 00050010 3.00000000000000000000\nparam 00050011 4.00000000000000000000\ncertified 1 of 1\n",
        ),
        (
            "two distances",
            PLAIN,
            &[
                HEADER, WORKPLANES, GROUP_2, POINTS, X, b"3", Y, b"4", APART, b"5", CLOSED, AGAIN,
                b"6", CLOSED,
            ],
            0,
            b"group 00000002 certified\nunknowns 4 retained 1 free 3\nbound 36 spread 144\nheld 00040010 00050010 00050011\nsuspect c 00000002 0 misses\nparam 00040010 0.00000000000000000000\nparam 00040011 0.00000000000000000000 radius 2^-32\nparam 00050010 3.00000000000000000000\nparam 00050011 4.00000000000000000000\ncertified 1 of 1\n",
        ),
        (
            "a distance of 0",
            PLAIN,
            &[
                HEADER, WORKPLANES, GROUP_2, POINTS, X, b"0", Y, b"0", APART, b"0", CLOSED,
            ],
            0,
            b"group 00000002 certified\nunknowns 4 retained 0 free 4\nbound 0 spread 0\nheld 00040010 00040011 00050010 00050011\nsuspect c 00000001 0 open\nparam 00040010 0.00000000000000000000\nparam 00040011 0.00000000000000000000\nparam 00050010 0.00000000000000000000\nparam 00050011 0.00000000000000000000\ncertified 1 of 1\n",
        ),
        (
            "one step",
            PLAIN,
            &[
                HEADER,
                WORKPLANES,
                GROUP_2,
                POINTS,
                X,
                b"8",
                Y,
                b"0",
                APART,
                b"8.00390625",
                CLOSED,
            ],
            0,
            b"group 00000002 certified\nunknowns 4 retained 1 free 3\nbound 68 spread 272\nheld 00040011 00050010 00050011\nparam 00040010 -0.00390720367431640625 radius 2^-18\nparam 00040011 0.00000000000000000000\nparam 00050010 8.00000000000000000000\nparam 00050011 0.00000000000000000000\ncertified 1 of 1\n",
        ),
        (
            "one step, fine",
            FINE,
            &[
                HEADER,
                WORKPLANES,
                GROUP_2,
                POINTS,
                X,
                b"8",
                Y,
                b"0",
                APART,
                b"8.00390625",
                CLOSED,
            ],
            0,
            b"group 00000002 certified\nunknowns 4 retained 1 free 3\nbound 68 spread 272\nheld 00040011 00050010 00050011\nparam 00040010 -0.00390720367431640625 radius 2^-19\nparam 00040011 0.00000000000000000000\nparam 00050010 8.00000000000000000000\nparam 00050011 0.00000000000000000000\ncertified 1 of 1\n",
        ),
        (
            "25 decimals",
            PLAIN,
            &[
                HEADER,
                WORKPLANES,
                GROUP_2,
                POINTS,
                X,
                b"3.0000000000000000000000000",
                Y,
                b"4",
                APART,
                b"5",
                CLOSED,
            ],
            0,
            b"group 00000002 certified\nunknowns 4 retained 1 free 3\nbound 36 spread 144\nheld 00040010 00050010 00050011\nparam 00040010 0.00000000000000000000\nparam 00040011 0.00000000000000000000 radius 2^-32\nparam 00050010 3.00000000000000000000\nparam 00050011 4.00000000000000000000\ncertified 1 of 1\n",
        ),
        (
            "a minus before 0",
            PLAIN,
            &[
                HEADER, WORKPLANES, GROUP_2, POINTS, X, b"-0.0", Y, b"5", APART, b"5", CLOSED,
            ],
            0,
            b"group 00000002 certified\nunknowns 4 retained 1 free 3\nbound 44 spread 176\nheld 00040010 00050010 00050011\nparam 00040010 0.00000000000000000000\nparam 00040011 0.00000000000000000000 radius 2^-32\nparam 00050010 0.00000000000000000000\nparam 00050011 5.00000000000000000000\ncertified 1 of 1\n",
        ),
        (
            "9000 apart",
            PLAIN,
            &[
                HEADER, WORKPLANES, GROUP_2, POINTS, X, b"9000", Y, b"0", APART, b"9000", CLOSED,
            ],
            10,
            b"group 00000002 range\ncertified 0 of 1\n",
        ),
        (
            "8192 apart",
            PLAIN,
            &[
                HEADER, WORKPLANES, GROUP_2, POINTS, X, b"8192", Y, b"0", APART, b"8192", CLOSED,
            ],
            10,
            b"group 00000002 range\ncertified 0 of 1\n",
        ),
        (
            "600 apart",
            PLAIN,
            &[
                HEADER, WORKPLANES, GROUP_2, POINTS, X, b"600", Y, b"0", APART, b"600", CLOSED,
            ],
            0,
            b"group 00000002 certified\nunknowns 4 retained 1 free 3\nbound 4804 spread 19216\nheld 00040011 00050010 00050011\nparam 00040010 0.00000000000000000000 radius 2^-32\nparam 00040011 0.00000000000000000000\nparam 00050010 600.00000000000000000000\nparam 00050011 0.00000000000000000000\ncertified 1 of 1\n",
        ),
        (
            "600 apart, fine",
            FINE,
            &[
                HEADER, WORKPLANES, GROUP_2, POINTS, X, b"600", Y, b"0", APART, b"600", CLOSED,
            ],
            10,
            b"group 00000002 range\ncertified 0 of 1\n",
        ),
    ]
}

// Two lines, with an angle.
fn angles() -> [Row; 4] {
    [
        (
            "an angle of 60 degrees",
            PLAIN,
            &[
                HEADER,
                WORKPLANES,
                GROUP_2,
                LINES,
                b"Param.h.v.=40013\nParam.val=10\nAddParam\n\n",
                b"Param.h.v.=50013\nParam.val=5\nAddParam\n\n",
                b"Param.h.v.=50014\nParam.val=8.66025403784438646763\nAddParam\n\n",
                ANGLE,
                b"60",
                CLOSED,
            ],
            0,
            b"group 00000002 certified\nunknowns 10 retained 3 free 7\nbound 84 spread 672\nheld 00040010 00040013 00040014 00050010 00050011 00050013 00050014\nparam 00040010 0.00000000000000000000\nparam 00040011 0.00000000000000000000 radius 2^-31\nparam 00040013 10.00000000000000000000\nparam 00040014 0.00000000000000000000\nparam 00050010 0.00000000000000000000\nparam 00050011 0.00000000000000000000\nparam 00050013 5.00000000000000000000\nparam 00050014 8.66025403783714864403\naux 0 10.00000000000000000000 radius 2^-32\naux 1 9.99999999998544808477 radius 2^-32\ncertified 1 of 1\n",
        ),
        (
            "an angle of 60 degrees, fine",
            FINE,
            &[
                HEADER,
                WORKPLANES,
                GROUP_2,
                LINES,
                b"Param.h.v.=40013\nParam.val=10\nAddParam\n\n",
                b"Param.h.v.=50013\nParam.val=5\nAddParam\n\n",
                b"Param.h.v.=50014\nParam.val=8.66025403784438646763\nAddParam\n\n",
                ANGLE,
                b"60",
                CLOSED,
            ],
            0,
            b"group 00000002 certified\nunknowns 10 retained 3 free 7\nbound 84 spread 672\nheld 00040010 00040013 00040014 00050010 00050011 00050013 00050014\nparam 00040010 0.00000000000000000000\nparam 00040011 0.00000000000000000000 radius 2^-39\nparam 00040013 10.00000000000000000000\nparam 00040014 0.00000000000000000000\nparam 00050010 0.00000000000000000000\nparam 00050011 0.00000000000000000000\nparam 00050013 5.00000000000000000000\nparam 00050014 8.66025403784436775823\naux 0 10.00000000000000000000 radius 2^-40\naux 1 9.99999999999994315658 radius 2^-40\ncertified 1 of 1\n",
        ),
        (
            "an angle of 360 degrees",
            PLAIN,
            &[
                HEADER,
                WORKPLANES,
                GROUP_2,
                LINES,
                b"Param.h.v.=40013\nParam.val=10\nAddParam\n\n",
                b"Param.h.v.=50013\nParam.val=5\nAddParam\n\n",
                b"Param.h.v.=50014\nParam.val=8.66025403784438646763\nAddParam\n\n",
                ANGLE,
                b"360",
                CLOSED,
            ],
            0,
            b"group 00000002 certified\nunknowns 10 retained 2 free 8\nbound 96 spread 384\nheld 00040010 00040011 00040013 00040014 00050010 00050011 00050013 00050014\nsuspect c 00000001 0 open\nparam 00040010 0.00000000000000000000\nparam 00040011 -5.77350269157614093274\nparam 00040013 10.00000000000000000000\nparam 00040014 0.00000000000000000000\nparam 00050010 0.00000000000000000000\nparam 00050011 5.77349598779983352870\nparam 00050013 5.00000000000000000000\nparam 00050014 8.66025403783714864403\naux 0 11.54700538361794315279 radius 2^-32\naux 1 5.77350604392995592207 radius 2^-32\ncertified 1 of 1\n",
        ),
        (
            "parallel lines at 0 degrees",
            PLAIN,
            &[
                HEADER,
                WORKPLANES,
                GROUP_2,
                LINES,
                b"Param.h.v.=40013\nParam.val=10",
                Y,
                b"5\nAddParam\n\n",
                b"Param.h.v.=50013\nParam.val=10\nAddParam\n\n",
                b"Param.h.v.=50014\nParam.val=5\nAddParam\n\n",
                ANGLE,
                b"0",
                CLOSED,
            ],
            0,
            b"group 00000002 certified\nunknowns 10 retained 2 free 8\nbound 84 spread 336\nheld 00040010 00040011 00040013 00040014 00050010 00050011 00050013 00050014\nsuspect c 00000001 0 open\nparam 00040010 0.00000000000000000000\nparam 00040011 0.00000000000000000000\nparam 00040013 10.00000000000000000000\nparam 00040014 0.00000000000000000000\nparam 00050010 0.00000000000000000000\nparam 00050011 5.00000000000000000000\nparam 00050013 10.00000000000000000000\nparam 00050014 5.00000000000000000000\naux 0 10.00000000000000000000 radius 2^-32\naux 1 10.00000000000000000000 radius 2^-32\ncertified 1 of 1\n",
        ),
    ]
}

// Other groups and records.
fn groups() -> [Row; 6] {
    [
        (
            "no group but the first",
            PLAIN,
            &[HEADER, WORKPLANES],
            0,
            b"certified 0 of 0\n",
        ),
        (
            "unread keys, and entities, styles, surfaces between the records",
            PLAIN,
            &[
                HEADER,
                b"Entity.h.v=00010000\nEntity.type=10000\nAddEntity\n\n",
                WORKPLANES,
                b"Group.h.v=2\nGroup.type=5000\nGroup.order=1\nGroup.name=sketch-in-plane\nGroup.color=ff000000\nAddGroup\n\n",
                b"Style.h.v=00000001\nStyle.name=outline\nAddStyle\n\n",
                POINTS,
                b"Entity.h.v=00050000\nEntity.type=2000\nEntity.actPoint.x=7\nAddEntity\n\n",
                X,
                b"3",
                Y,
                b"4",
                APART,
                b"5",
                CLOSED,
                b"Triangle 1 2 3\nAddSurface\n",
            ],
            0,
            b"group 00000002 certified\nunknowns 4 retained 1 free 3\nbound 36 spread 144\nheld 00040010 00050010 00050011\nparam 00040010 0.00000000000000000000\nparam 00040011 0.00000000000000000000 radius 2^-32\nparam 00050010 3.00000000000000000000\nparam 00050011 4.00000000000000000000\ncertified 1 of 1\n",
        ),
        (
            "an extrusion",
            PLAIN,
            &[
                HEADER,
                WORKPLANES,
                GROUP_2,
                LINE,
                b"Param.h.v.=40013\nParam.val=10\nAddParam\n\n",
                EXTRUDED,
            ],
            0,
            b"group 00000002 certified\nunknowns 4 retained 0 free 4\nbound 0 spread 0\nheld 00040010 00040011 00040013 00040014\nparam 00040010 0.00000000000000000000\nparam 00040011 0.00000000000000000000\nparam 00040013 10.00000000000000000000\nparam 00040014 0.00000000000000000000\ngroup 00000003 certified\nunknowns 3 retained 2 free 1\nbound 4 spread 16\nheld 80030002\nparam 80030000 0.00000000000000000000 radius 2^-32\nparam 80030001 0.00000000000000000000 radius 2^-32\nparam 80030002 5.00000000000000000000\ncertified 2 of 2\n",
        ),
        (
            "a circle that grows",
            PLAIN,
            &[
                HEADER,
                WORKPLANES,
                GROUP_2,
                CIRCLE,
                b"Param.h.v.=40040\nParam.val=5\nAddParam\n\n",
                DIAMETER,
                b"12",
                CLOSED,
            ],
            0,
            b"group 00000002 certified\nunknowns 3 retained 1 free 2\nbound 8 spread 32\nheld 00040010 00040011\nparam 00040010 0.00000000000000000000\nparam 00040011 0.00000000000000000000\nparam 00040040 6.00000000000000000000 radius 2^-32\ncertified 1 of 1\n",
        ),
        (
            "a frame by two lines",
            PLAIN,
            &[
                HEADER,
                WORKPLANES,
                GROUP_2,
                LINES,
                b"Param.h.v.=40013\nParam.val=10\nAddParam\n\n",
                b"Param.h.v.=50014\nParam.val=5\nAddParam\n\n",
                b"Group.h.v=3\nGroup.type=5001\nGroup.order=2\nGroup.subtype=6001\nGroup.predef.origin.v=40001\nGroup.predef.entityB.v=40000\nGroup.predef.entityC.v=50000\nAddGroup\n\n",
            ],
            0,
            b"group 00000002 certified\nunknowns 8 retained 0 free 8\nbound 0 spread 0\nheld 00040010 00040011 00040013 00040014 00050010 00050011 00050013 00050014\nparam 00040010 0.00000000000000000000\nparam 00040011 0.00000000000000000000\nparam 00040013 10.00000000000000000000\nparam 00040014 0.00000000000000000000\nparam 00050010 0.00000000000000000000\nparam 00050011 0.00000000000000000000\nparam 00050013 0.00000000000000000000\nparam 00050014 5.00000000000000000000\ngroup 00000003 certified\nunknowns 0 retained 0 free 0\nbound 0 spread 0\nheld none\ncertified 2 of 2\n",
        ),
        (
            "a frame by one line",
            PLAIN,
            &[
                HEADER,
                WORKPLANES,
                GROUP_2,
                LINES,
                b"Param.h.v.=40013\nParam.val=10\nAddParam\n\n",
                b"Param.h.v.=50014\nParam.val=5\nAddParam\n\n",
                b"Group.h.v=3\nGroup.type=5001\nGroup.order=2\nGroup.subtype=6001\nGroup.predef.origin.v=40001\nGroup.predef.entityB.v=40000\nGroup.predef.entityC.v=40000\nAddGroup\n\n",
            ],
            10,
            b"group 00000002 certified\nunknowns 8 retained 0 free 8\nbound 0 spread 0\nheld 00040010 00040011 00040013 00040014 00050010 00050011 00050013 00050014\nparam 00040010 0.00000000000000000000\nparam 00040011 0.00000000000000000000\nparam 00040013 10.00000000000000000000\nparam 00040014 0.00000000000000000000\nparam 00050010 0.00000000000000000000\nparam 00050011 0.00000000000000000000\nparam 00050013 0.00000000000000000000\nparam 00050014 5.00000000000000000000\ngroup 00000003 degenerate\ncertified 1 of 2\n",
        ),
    ]
}

// Models that are refused, each by its first fault.
fn refused() -> [Row; 11] {
    [
        (
            "a header that lacks its first bytes",
            PLAIN,
            &[
                b"SolveSpaceREVa\n\n",
                b"\n",
                WORKPLANES,
                GROUP_2,
                POINTS,
                X,
                b"3",
                Y,
                b"4",
                APART,
                b"5",
                CLOSED,
            ],
            2,
            b"fault model bad header\n",
        ),
        (
            "a map that isn't shut",
            PLAIN,
            &[HEADER, b"Group.h.v=2\nGroup.remap={\n"],
            2,
            b"fault model open map 5\n",
        ),
        (
            "a value of another kind",
            PLAIN,
            &[HEADER, b"Group.h.v=2\nParam.val=1\n"],
            2,
            b"fault model bad line 5\n",
        ),
        (
            "a record that isn't closed",
            PLAIN,
            &[
                HEADER,
                WORKPLANES,
                GROUP_2,
                POINTS,
                X,
                b"3",
                Y,
                b"4",
                APART,
                b"5",
                CLOSED,
                b"Param.val=1\n",
            ],
            2,
            b"fault model open record 56\n",
        ),
        (
            "an exponent",
            PLAIN,
            &[
                HEADER, WORKPLANES, GROUP_2, POINTS, X, b"1e3", Y, b"0", APART, b"5", CLOSED,
            ],
            2,
            b"fault model number at 41\n",
        ),
        (
            "a kind that is left out",
            PLAIN,
            &[
                HEADER,
                WORKPLANES,
                GROUP_2,
                b"Request.h.v=4\nRequest.type=600\nRequest.group.v=2\nAddRequest\n",
            ],
            2,
            b"fault model left out 00000004 request\n",
        ),
        (
            "an unknown kind",
            PLAIN,
            &[
                HEADER,
                WORKPLANES,
                GROUP_2,
                b"Request.h.v=4\nRequest.type=99\nRequest.group.v=2\nAddRequest\n",
            ],
            2,
            b"fault model unknown kind 00000004 99\n",
        ),
        (
            "one handle twice",
            PLAIN,
            &[HEADER, WORKPLANES, GROUP_2, POINT, POINT],
            2,
            b"fault model duplicate 00000004\n",
        ),
        (
            "a point that isn't there",
            PLAIN,
            &[
                HEADER,
                WORKPLANES,
                GROUP_2,
                POINTS,
                X,
                b"3",
                Y,
                b"4\nAddParam\n\n",
                b"Constraint.h.v=1\nConstraint.type=30\nConstraint.group.v=2\nConstraint.workplane.v=10000\nConstraint.ptA.v=60000\nConstraint.ptB.v=50000\nConstraint.valA=5",
                CLOSED,
            ],
            2,
            b"fault model no such 00000001 00060000\n",
        ),
        (
            "a workplane of a later group",
            PLAIN,
            &[
                HEADER,
                WORKPLANES,
                GROUP_2,
                b"Request.h.v=4\nRequest.type=200\nRequest.group.v=2\nRequest.workplane.v=80030000\nAddRequest\nGroup.h.v=3\nGroup.type=5001\nGroup.order=2\nGroup.subtype=6001\nGroup.predef.origin.v=40001\nGroup.predef.entityB.v=40000\nGroup.predef.entityC.v=40000\nAddGroup\n\n",
            ],
            2,
            b"fault model ahead 00000004 80030000\n",
        ),
        (
            "an angle of 361 degrees",
            PLAIN,
            &[
                HEADER,
                WORKPLANES,
                GROUP_2,
                LINES,
                b"Param.h.v.=40013\nParam.val=10\nAddParam\n\n",
                b"Param.h.v.=50013\nParam.val=5\nAddParam\n\n",
                b"Param.h.v.=50014\nParam.val=8.66025403784438646763\nAddParam\n\n",
                ANGLE,
                b"361",
                CLOSED,
            ],
            2,
            b"fault model bad value 00000001\n",
        ),
    ]
}

// The first case that comes out otherwise.
fn wrong(alloc: Global, rows: &[Row]) -> Result<Option<&'static str>, AllocError> {
    for (name, words, model, wanted, put) in rows {
        let mut folder = folder_with(alloc, model)?;
        let (status, out) = ran(alloc, words, &mut folder);
        if status != *wanted || out.taken() != *put {
            return Ok(Some(*name));
        }
    }
    Ok(None)
}

#[test]
fn models_are_reported_or_refused(rt: HostRuntime) -> Result<(), Fail> {
    let alloc = rt.alloc();
    assert_eq!(rt; wrong(alloc, &distances())?, None);
    assert_eq!(rt; wrong(alloc, &angles())?, None);
    assert_eq!(rt; wrong(alloc, &groups())?, None);
    assert_eq!(rt; wrong(alloc, &refused())?, None);
    Ok(())
}

// 200 points have 400 unknowns; with a circle in the place of one of them there are 401.
#[test]
fn a_group_has_400_unknowns_at_most(rt: HostRuntime) -> Result<(), Fail> {
    let alloc = rt.alloc();
    for (kind, wanted, begin) in [
        (
            101,
            0,
            b"group 00000002 certified\nunknowns 400 retained 0 free 400\n".as_slice(),
        ),
        (400, 2, b"fault model too many unknowns\n".as_slice()),
    ] {
        let text = with_points(alloc, &[HEADER, WORKPLANES, GROUP_2], kind)?;
        let mut folder = MemFolder::new(alloc);
        folder.hold("m.slvs", &text)?;
        let (status, out) = ran(alloc, PLAIN, &mut folder);
        assert_eq!(rt; status, wanted, "{kind}");
        assert!(rt; out.taken().starts_with(begin), "{kind}");
    }
    Ok(())
}
