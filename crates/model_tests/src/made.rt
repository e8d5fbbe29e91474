// What requests make, and copies of groups.

use sk_entity::{request_entities, request_params};
use sk_num::{Grid, Items, Text};
use sk_types::{
    EntityId, Group, GroupId, GroupKind, RemapEntry, Request, RequestId, request_kind,
    unknown_params,
};
use std::test::Fail;

#[test]
fn a_group_is_copied_whole(rt: HostRuntime) -> Result<(), Fail> {
    let alloc = rt.alloc();
    let none = EntityId(0);
    let entry = RemapEntry {
        number: 3,
        source: EntityId(0x40000),
        copy: 1001,
    };
    let group = Group::<36> {
        id: GroupId(3),
        kind: GroupKind::Extrude,
        order: 2,
        active: none,
        source: GroupId(2),
        copies: 0,
        two_sided: true,
        skip_first: false,
        by_lines: false,
        quaternion: [Grid::zero(); 4],
        origin: none,
        entity_b: EntityId(0x10000),
        entity_c: none,
        swap_uv: false,
        negate_u: false,
        negate_v: true,
        scale: Grid::zero(),
        remap: Items::of(vec![in alloc; entry]?),
        part: Text::of(String::from_str(alloc, "part.slvs")?),
    };
    let copy = group.copy(alloc)?;
    assert_eq!(rt; copy.remap.as_slice(), group.remap.as_slice());
    assert_eq!(rt; copy.part.as_str(), "part.slvs");
    assert_eq!(rt;
        (copy.source, copy.two_sided, copy.negate_v),
        (GroupId(2), true, true)
    );
    let unknowns = unknown_params(alloc, &[], &[], &group)?;
    assert_eq!(rt; unknowns.len(), 3);
    Ok(())
}

#[test]
fn a_cubic_has_its_points_and_no_normal(rt: HostRuntime) -> Result<(), Fail> {
    let alloc = rt.alloc();
    let cubic = Request {
        id: RequestId(4),
        kind: request_kind::CUBIC,
        group: GroupId(2),
        workplane: EntityId(0x0001_0000),
        construction: true,
        extra: 1,
    };
    let mut found = Vec::new(alloc);
    for entity in request_entities::<36>(alloc, &cubic)?.iter() {
        found.push((entity.id.0, entity.kind, entity.construction))?;
    }
    let wanted = [
        (0x40000, 12000, true),
        (0x40001, 2001, false),
        (0x40002, 2001, false),
        (0x40003, 2001, false),
        (0x40004, 2001, false),
        (0x40005, 2001, false),
    ];
    assert_eq!(rt; found.as_slice(), wanted.as_slice());
    let params = request_params(alloc, &cubic)?;
    assert_eq!(rt; params.len(), 10);
    Ok(())
}
