// Models that are made, and models at their limits.

use sk_chain::outline;
use sk_files::MemFolder;
use sk_gen::make_model;
use sk_link::read_parts;
use sk_model::{Model, ModelFault, What};
use sk_records::Book;
use std::alloc::{AllocError, Global};
use std::test::Fail;

// Group 1 with its workplanes, and group 2, a drawing in space.
const START: &[u8] =
    b"\xB1\xB2\xB3SolveSpaceREVa\nGroup.h.v=1\nGroup.type=5000\nAddGroup\nGroup.h.v=2\nGroup.type=5000\nGroup.order=2\nAddGroup\nRequest.h.v=1\nRequest.type=100\nRequest.group.v=1\nAddRequest\nRequest.h.v=2\nRequest.type=100\nRequest.group.v=1\nAddRequest\nRequest.h.v=3\nRequest.type=100\nRequest.group.v=1\nAddRequest\n";

const SPACE: &str = "";

const PLANE: &str = "Request.workplane.v=10000\n";

// Datum points of group 2, with these numbers, in space or in a workplane.
fn put_points(
    alloc: Global,
    text: &mut Vec<u8>,
    first: u32,
    behind: u32,
    workplane: &str,
) -> Result<(), AllocError> {
    for number in first..behind {
        let record = format!(in alloc;
            "Request.h.v={number}\nRequest.type=101\n{workplane}Request.group.v=2\nAddRequest\n"
        )?;
        text.extend_from_slice(record.as_bytes())?;
    }
    Ok(())
}

// Distances 0 between points 101 and 102 of group 2.
fn put_distances(alloc: Global, text: &mut Vec<u8>, count: u32) -> Result<(), AllocError> {
    for number in 1..=count {
        let record = format!(in alloc;
            "Constraint.h.v={number}\nConstraint.type=30\nConstraint.group.v=2\nConstraint.ptA.v=1010000\nConstraint.ptB.v=1020000\nAddConstraint\n"
        )?;
        text.extend_from_slice(record.as_bytes())?;
    }
    Ok(())
}

// A translation of group 2.
fn put_translation(
    alloc: Global,
    text: &mut Vec<u8>,
    group: u32,
    copies: u32,
) -> Result<(), AllocError> {
    let record = format!(in alloc;
        "Group.h.v={group}\nGroup.type=5201\nGroup.subtype=7000\nGroup.order={group}\nGroup.opA.v=2\nGroup.valA={copies}.0\nAddGroup\n"
    )?;
    text.extend_from_slice(record.as_bytes())
}

// How many entities the outline of a text has, or why it has none.
#[tactic(auto, using(sk_num::specs::Scale::scale_facts))]
fn outlined(alloc: Global, text: Vec<u8>) -> Result<Result<usize, ModelFault>, Fail> {
    let Ok(book) = Book::read(alloc, text) else {
        return Err("the text doesn't read".into());
    };
    let mut model = match Model::<36>::from_book(alloc, book) {
        Ok(model) => model,
        Err(fault) => return Ok(Err(fault)),
    };
    let mut folder = MemFolder::new(alloc);
    let Ok(parts) = read_parts(alloc, &[], &mut folder) else {
        return Err("there is no part to read".into());
    };
    match outline(alloc, &mut model, &parts) {
        Ok(outline) => Ok(Ok(outline.entities.as_slice().len())),
        Err(fault) => Ok(Err(fault)),
    }
}

#[test]
fn each_made_model_is_outlined(rt: HostRuntime) -> Result<(), Fail> {
    let alloc = rt.alloc();
    for lines in 1..=90 {
        let Ok(text) = make_model(alloc, lines) else {
            return Err("the model isn't made".into());
        };
        let entities = outlined(alloc, text)?;
        assert_eq!(rt; entities, Ok(40 + 39 * lines as usize));
    }
    Ok(())
}

#[test]
fn a_group_has_400_unknowns_at_most(rt: HostRuntime) -> Result<(), Fail> {
    let alloc = rt.alloc();
    let mut text = Vec::from_slice(alloc, START)?;
    put_points(alloc, &mut text, 101, 300, PLANE)?;
    let mut more = Vec::from_slice(alloc, &text)?;
    put_points(alloc, &mut text, 300, 301, PLANE)?;
    put_points(alloc, &mut more, 300, 301, SPACE)?;
    assert_eq!(rt; outlined(alloc, text)?, Ok(209));
    assert_eq!(rt;
        outlined(alloc, more)?,
        Err(ModelFault::TooMany(What::Unknowns))
    );
    Ok(())
}

#[test]
fn a_group_has_400_rows_at_most(rt: HostRuntime) -> Result<(), Fail> {
    let alloc = rt.alloc();
    let mut text = Vec::from_slice(alloc, START)?;
    put_points(alloc, &mut text, 101, 103, PLANE)?;
    let mut more = Vec::from_slice(alloc, &text)?;
    put_distances(alloc, &mut text, 400)?;
    put_distances(alloc, &mut more, 401)?;
    assert_eq!(rt; outlined(alloc, text)?, Ok(11));
    assert_eq!(rt;
        outlined(alloc, more)?,
        Err(ModelFault::TooMany(What::Rows))
    );
    Ok(())
}

// Group 2 has 198 points, which have 65,340 copies in 330 places.
#[test]
fn a_group_numbers_65535_copies_at_most(rt: HostRuntime) -> Result<(), Fail> {
    let alloc = rt.alloc();
    let mut text = Vec::from_slice(alloc, START)?;
    put_points(alloc, &mut text, 101, 299, PLANE)?;
    let mut more = Vec::from_slice(alloc, &text)?;
    put_translation(alloc, &mut text, 3, 330)?;
    put_translation(alloc, &mut more, 3, 331)?;
    assert_eq!(rt; outlined(alloc, text)?, Ok(65_547));
    assert_eq!(rt;
        outlined(alloc, more)?,
        Err(ModelFault::TooMany(What::Remap))
    );
    Ok(())
}

// Group 1 has 9 entities, group 2 has 198, and the translations have 1,009 copies of each.
#[test]
fn a_model_has_200000_entities_at_most(rt: HostRuntime) -> Result<(), Fail> {
    let alloc = rt.alloc();
    let mut text = Vec::from_slice(alloc, START)?;
    put_points(alloc, &mut text, 101, 299, PLANE)?;
    for group in 3..6u32 {
        put_translation(alloc, &mut text, group, 330)?;
    }
    put_translation(alloc, &mut text, 6, 19)?;
    let mut more = Vec::from_slice(alloc, &text)?;
    put_translation(alloc, &mut more, 7, 1)?;
    assert_eq!(rt; outlined(alloc, text)?, Ok(199_989));
    assert_eq!(rt;
        outlined(alloc, more)?,
        Err(ModelFault::TooMany(What::Entities))
    );
    Ok(())
}
