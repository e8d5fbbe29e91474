// Outlines of models.

use sk_chain::{order_groups, outline};
use sk_files::MemFolder;
use sk_link::read_parts;
use sk_model::{Model, ModelFault};
use sk_records::Book;
use sk_types::{EntityId, GroupId, entity_at};
use std::alloc::Global;
use std::test::Fail;

// Group 1 with its workplanes, groups 3 and 2 after it in their order, and a point in group 2.
const SAMPLE: &[u8] =
    b"\xB1\xB2\xB3SolveSpaceREVa\nGroup.h.v=00000003\nGroup.type=5000\nGroup.order=2\nAddGroup\nGroup.h.v=00000002\nGroup.type=5000\nGroup.order=1\nAddGroup\nGroup.h.v=00000001\nGroup.type=5000\nGroup.order=7\nAddGroup\nRequest.h.v=00000001\nRequest.type=100\nRequest.group.v=00000001\nAddRequest\nRequest.h.v=00000002\nRequest.type=100\nRequest.group.v=00000001\nAddRequest\nRequest.h.v=00000003\nRequest.type=100\nRequest.group.v=00000001\nAddRequest\nRequest.h.v=00000004\nRequest.type=101\nRequest.workplane.v=00010000\nRequest.group.v=00000002\nAddRequest\n";

#[tactic(auto, using(sk_num::specs::Scale::scale_facts))]
fn sample(alloc: Global) -> Result<Result<Model<36>, ModelFault>, Fail> {
    let book = match Book::read(alloc, Vec::from_slice(alloc, SAMPLE)?) {
        Ok(book) => Some(book),
        Err(_) => None,
    };
    Ok(Model::from_book(alloc, book.ok_or("the text doesn't read")?))
}

#[test]
#[tactic(auto, using(sk_num::specs::Scale::scale_facts))]
fn an_outline_has_order_and_entities(rt: HostRuntime) -> Result<(), Fail> {
    let alloc = rt.alloc();
    let mut model = sample(alloc)?.expect(&rt, "no fault");
    let order = order_groups(alloc, &model)?;
    assert_eq!(rt;
        order.as_slice(),
        [GroupId(1), GroupId(2), GroupId(3)].as_slice()
    );
    let mut folder = MemFolder::new(alloc);
    let parts = read_parts(alloc, &[], &mut folder).expect(&rt, "no part");
    let outlined = outline(alloc, &mut model, &parts).expect(&rt, "no fault");
    let entities = outlined.entities.as_slice();
    assert!(rt; entities.len() == 10);
    let point = entity_at(entities, EntityId(0x40000)).ok_or("no point")?;
    assert_eq!(rt; (point.kind, point.group), (2001, GroupId(2)));
    Ok(())
}
