// Pieces of the texts of models.

/// The header line, and two empty lines.
pub(crate) const HEADER: &[u8] = b"\xB1\xB2\xB3SolveSpaceREVa\n\n\n";

/// Group 1 with the three reference workplanes.
pub(crate) const WORKPLANES: &[u8] =
    b"Group.h.v=1\nGroup.type=5000\nAddGroup\n\nRequest.h.v=1\nRequest.type=100\nRequest.group.v=1\nAddRequest\n\nRequest.h.v=2\nRequest.type=100\nRequest.group.v=1\nAddRequest\n\nRequest.h.v=3\nRequest.type=100\nRequest.group.v=1\nAddRequest\n\n";

/// Group 2, a drawing in space.
pub(crate) const GROUP_2: &[u8] = b"Group.h.v=2\nGroup.type=5000\nGroup.order=1\nAddGroup\n\n";

/// Datum points 4 and 5 in XY, in group 2.
pub(crate) const POINTS: &[u8] =
    b"Request.h.v=4\nRequest.type=101\nRequest.workplane.v=10000\nRequest.group.v=2\nAddRequest\n\nRequest.h.v=5\nRequest.type=101\nRequest.workplane.v=10000\nRequest.group.v=2\nAddRequest\n\n";

/// Datum point 4 alone.
pub(crate) const POINT: &[u8] =
    b"Request.h.v=4\nRequest.type=101\nRequest.workplane.v=10000\nRequest.group.v=2\nAddRequest\n\n";

/// Lines 4 and 5 in XY.
pub(crate) const LINES: &[u8] =
    b"Request.h.v=4\nRequest.type=200\nRequest.workplane.v=10000\nRequest.group.v=2\nAddRequest\n\nRequest.h.v=5\nRequest.type=200\nRequest.workplane.v=10000\nRequest.group.v=2\nAddRequest\n\n";

/// Line 4 alone.
pub(crate) const LINE: &[u8] =
    b"Request.h.v=4\nRequest.type=200\nRequest.workplane.v=10000\nRequest.group.v=2\nAddRequest\n\n";

/// Circle 4 in XY.
pub(crate) const CIRCLE: &[u8] =
    b"Request.h.v=4\nRequest.type=400\nRequest.workplane.v=10000\nRequest.group.v=2\nAddRequest\n\n";

/// Arc 4 in XY.
pub(crate) const ARC: &[u8] =
    b"Request.h.v=4\nRequest.type=500\nRequest.workplane.v=10000\nRequest.group.v=2\nAddRequest\n\n";

/// Point 5's first number, behind this.
pub(crate) const X: &[u8] = b"Param.h.v.=50010\nParam.val=";

/// Its second number, behind this.
pub(crate) const Y: &[u8] = b"\nAddParam\n\nParam.h.v.=50011\nParam.val=";

/// How far point 4, which isn't stored, is from point 5, behind this.
pub(crate) const APART: &[u8] =
    b"\nAddParam\n\nConstraint.h.v=1\nConstraint.type=30\nConstraint.group.v=2\nConstraint.workplane.v=10000\nConstraint.ptA.v=40000\nConstraint.ptB.v=50000\nConstraint.valA=";

/// The same distance again, behind this.
pub(crate) const AGAIN: &[u8] =
    b"Constraint.h.v=2\nConstraint.type=30\nConstraint.group.v=2\nConstraint.workplane.v=10000\nConstraint.ptA.v=40000\nConstraint.ptB.v=50000\nConstraint.valA=";

/// The end of a constraint, behind its value.
pub(crate) const CLOSED: &[u8] = b"\nAddConstraint\n";

/// The angle of the lines, behind this.
pub(crate) const ANGLE: &[u8] =
    b"Constraint.h.v=1\nConstraint.type=120\nConstraint.group.v=2\nConstraint.workplane.v=10000\nConstraint.entityA.v=40000\nConstraint.entityB.v=50000\nConstraint.valA=";

/// The circle's diameter, behind this.
pub(crate) const DIAMETER: &[u8] =
    b"Constraint.h.v=1\nConstraint.type=90\nConstraint.group.v=2\nConstraint.workplane.v=10000\nConstraint.entityA.v=40000\nConstraint.valA=";

/// Group 2 extruded by 5 along Z.
pub(crate) const EXTRUDED: &[u8] =
    b"Group.h.v=3\nGroup.type=5100\nGroup.order=2\nGroup.opA.v=2\nGroup.subtype=7000\nGroup.predef.entityB.v=10000\nAddGroup\n\nParam.h.v.=80030002\nParam.val=5\nAddParam\n\n";

/// Group 2 as a linked part, 10 along X.
pub(crate) const LINKED: &[u8] =
    b"Group.h.v=2\nGroup.type=5300\nGroup.order=1\nGroup.impFileRel=part.slvs\nAddGroup\n\nParam.h.v.=80020000\nParam.val=10\nAddParam\n\nParam.h.v.=80020003\nParam.val=1\nAddParam\n\n";

/// A part: one point at (1, 2, 3).
pub(crate) const PART: &[u8] =
    b"\xB1\xB2\xB3SolveSpaceREVa\n\n\nEntity.h.v=40000\nEntity.type=2000\nEntity.actPoint.x=1\nEntity.actPoint.y=2\nEntity.actPoint.z=3\nAddEntity\n";

/// The parameters of the reference workplanes, as they are written.
pub(crate) const REFERENCE_PARAMETERS: &[u8] =
    b"Param.h.v.=00010010\nParam.val=0.00000000000000000000\nAddParam\n\nParam.h.v.=00010011\nParam.val=0.00000000000000000000\nAddParam\n\nParam.h.v.=00010012\nParam.val=0.00000000000000000000\nAddParam\n\nParam.h.v.=00010020\nParam.val=1.00000000000000000000\nAddParam\n\nParam.h.v.=00010021\nParam.val=0.00000000000000000000\nAddParam\n\nParam.h.v.=00010022\nParam.val=0.00000000000000000000\nAddParam\n\nParam.h.v.=00010023\nParam.val=0.00000000000000000000\nAddParam\n\nParam.h.v.=00020010\nParam.val=0.00000000000000000000\nAddParam\n\nParam.h.v.=00020011\nParam.val=0.00000000000000000000\nAddParam\n\nParam.h.v.=00020012\nParam.val=0.00000000000000000000\nAddParam\n\nParam.h.v.=00020020\nParam.val=0.50000000000000000000\nAddParam\n\nParam.h.v.=00020021\nParam.val=0.50000000000000000000\nAddParam\n\nParam.h.v.=00020022\nParam.val=0.50000000000000000000\nAddParam\n\nParam.h.v.=00020023\nParam.val=0.50000000000000000000\nAddParam\n\nParam.h.v.=00030010\nParam.val=0.00000000000000000000\nAddParam\n\nParam.h.v.=00030011\nParam.val=0.00000000000000000000\nAddParam\n\nParam.h.v.=00030012\nParam.val=0.00000000000000000000\nAddParam\n\nParam.h.v.=00030020\nParam.val=0.50000000000000000000\nAddParam\n\nParam.h.v.=00030021\nParam.val=-0.50000000000000000000\nAddParam\n\nParam.h.v.=00030022\nParam.val=-0.50000000000000000000\nAddParam\n\nParam.h.v.=00030023\nParam.val=-0.50000000000000000000\nAddParam\n\n";

/// The entities of the reference workplanes, as they are written.
pub(crate) const REFERENCE_ENTITIES: &[u8] =
    b"Entity.h.v=00010000\nEntity.type=10000\nEntity.construction=0\nEntity.point[0].v=00010001\nEntity.normal.v=00010020\nEntity.actVisible=1\nAddEntity\n\nEntity.h.v=00010001\nEntity.type=2000\nEntity.construction=0\nEntity.actVisible=1\nAddEntity\n\nEntity.h.v=00010020\nEntity.type=3000\nEntity.construction=0\nEntity.actNormal.w=1.00000000000000000000\nEntity.actVisible=1\nAddEntity\n\nEntity.h.v=00020000\nEntity.type=10000\nEntity.construction=0\nEntity.point[0].v=00020001\nEntity.normal.v=00020020\nEntity.actVisible=1\nAddEntity\n\nEntity.h.v=00020001\nEntity.type=2000\nEntity.construction=0\nEntity.actVisible=1\nAddEntity\n\nEntity.h.v=00020020\nEntity.type=3000\nEntity.construction=0\nEntity.actNormal.w=0.50000000000000000000\nEntity.actNormal.vx=0.50000000000000000000\nEntity.actNormal.vy=0.50000000000000000000\nEntity.actNormal.vz=0.50000000000000000000\nEntity.actVisible=1\nAddEntity\n\nEntity.h.v=00030000\nEntity.type=10000\nEntity.construction=0\nEntity.point[0].v=00030001\nEntity.normal.v=00030020\nEntity.actVisible=1\nAddEntity\n\nEntity.h.v=00030001\nEntity.type=2000\nEntity.construction=0\nEntity.actVisible=1\nAddEntity\n\nEntity.h.v=00030020\nEntity.type=3000\nEntity.construction=0\nEntity.actNormal.w=0.50000000000000000000\nEntity.actNormal.vx=-0.50000000000000000000\nEntity.actNormal.vy=-0.50000000000000000000\nEntity.actNormal.vz=-0.50000000000000000000\nEntity.actVisible=1\nAddEntity\n\n";
