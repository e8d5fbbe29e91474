// Books of small texts: what is read, looked up, changed and written.
ghost use Rattle.std.specs.Prelude.{◌≡◌, IfOk};
ghost use Rattle.sk_records.specs.Written.{bytes_of};

use sk_records::{Book, ChangeList, Kind, ReadFault, RecId};
use std::alloc::{AllocError, Global};
use std::test::Fail;

/// A group, a parameter, a request and a constraint, line by line.
const MODEL: [&[u8]; 22] = [
    b"\xB1\xB2\xB3SolveSpaceREVa",
    b"",
    b"",
    b"Group.h.v=00000001",
    b"Group.type=5000",
    b"Group.remap={",
    b"    1 00040000 0",
    b"}",
    b"AddGroup",
    b"",
    b"Param.h.v.=00040010",
    b"Param.val=3.5",
    b"AddParam",
    b"",
    b"Request.h.v=00000005",
    b"Request.type=101",
    b"AddRequest",
    b"",
    b"Constraint.h.v=00000001",
    b"Constraint.valA=5.0",
    b"Constraint.valA=5.5",
    b"AddConstraint",
];

// The lines up to this one, each with this end, and another line in the place of one of them, counted from 1.
fn text_of(
    alloc: Global,
    count: usize,
    end: &[u8],
    number: usize,
    changed: &[u8],
) -> Result<Vec<u8>, AllocError> {
    let mut text = Vec::new(alloc);
    for (place, line) in MODEL.iter().take(count).enumerate() {
        if place.wrapping_add(1) == number {
            text.extend_from_slice(changed)?;
        } else {
            text.extend_from_slice(line)?;
        }
        text.extend_from_slice(end)?;
    }
    Ok(text)
}

fn whole(alloc: Global) -> Result<Vec<u8>, AllocError> {
    text_of(alloc, 22, b"\n", 0, b"")
}

// Why a text isn't read; None where it is, and then it is written as it was read.
fn fault_of(alloc: Global, text: &[u8]) -> Result<Option<ReadFault>, AllocError> {
    match Book::read(alloc, Vec::from_slice(alloc, text)?) {
        Ok(book) => {
            let mut out = Vec::new(alloc);
            book.write(alloc, &mut out)?;
            if out.as_slice() == text {
                Ok(None)
            } else {
                Ok(Some(ReadFault::NoMemory))
            }
        }
        Err(fault) => Ok(Some(fault)),
    }
}

#[test]
fn a_text_is_written_as_it_was_read_or_has_its_first_fault(rt: HostRuntime) -> Result<(), Fail> {
    let alloc = rt.alloc();
    let changed: [(&str, usize, &[u8], Option<ReadFault>); 9] = [
        ("no change", 0, b"", None),
        (
            "another header",
            1,
            b"SolveSpaceREVa",
            Some(ReadFault::BadHeader),
        ),
        (
            "a value of another kind",
            5,
            b"Param.val=1",
            Some(ReadFault::BadLine(5)),
        ),
        (
            "a record that isn't closed",
            14,
            b"Param.val=1",
            Some(ReadFault::BadLine(15)),
        ),
        (
            "an unknown line",
            14,
            b"Sketch",
            Some(ReadFault::BadLine(14)),
        ),
        (
            "an entry with no blank",
            7,
            b"1 00040000 0",
            Some(ReadFault::BadLine(7)),
        ),
        ("an empty entry", 7, b"", Some(ReadFault::BadLine(7))),
        (
            "a list that isn't shut",
            8,
            b"    2 00050000 0",
            Some(ReadFault::BadLine(9)),
        ),
        ("a stored surface", 14, b"Surface 00000001", None),
    ];
    for (name, number, line, want) in changed {
        let text = text_of(alloc, 22, b"\n", number, line)?;
        assert!(rt; fault_of(alloc, &text)? == want, "{name}");
        let text = text_of(alloc, 22, b"\r\n", number, line)?;
        assert!(rt;
            fault_of(alloc, &text)? == want,
            "{name}, with carriage returns"
        );
    }
    Ok(())
}

#[test]
fn a_text_that_is_cut_has_the_fault_of_what_is_open(rt: HostRuntime) -> Result<(), Fail> {
    let alloc = rt.alloc();
    for count in 0..MODEL.len() {
        let want = match count {
            0 => Some(ReadFault::BadHeader),
            4 | 5 | 8 => Some(ReadFault::OpenRecord(4)),
            6 | 7 => Some(ReadFault::OpenMap(6)),
            11 | 12 => Some(ReadFault::OpenRecord(11)),
            15 | 16 => Some(ReadFault::OpenRecord(15)),
            19 | 20 | 21 => Some(ReadFault::OpenRecord(19)),
            _ => None,
        };
        let text = text_of(alloc, count, b"\n", 0, b"")?;
        assert!(rt; fault_of(alloc, &text)? == want, "after line {count}");
        let without_end = &text[..text.len().saturating_sub(1)];
        assert!(rt; fault_of(alloc, without_end)? == want, "in line {count}");
    }
    Ok(())
}

// The book of the whole text; its reading is tried above.
fn model(alloc: Global) -> Result<Book, AllocError> {
    match Book::read(alloc, whole(alloc)?) {
        Ok(book) => Ok(book),
        Err(_) => Err(AllocError),
    }
}

// The bytes of a book.
fn bytes(alloc: Global, book: &Book) -> Result<Vec<u8>, AllocError>
    ensures { IfOk result (λ out. out.items ≡ bytes_of book.now) }
{
    let mut out = Vec::new(alloc);
    book.write(alloc, &mut out)?;
    Ok(out)
}

// Sets the distance of the first constraint, where there is one.
fn set_distance(book: &mut Book) -> Result<(), AllocError> {
    let constraint = RecId {
        kind: Kind::Constraint,
        place: 0,
    };
    if book.count(Kind::Constraint) > 0 {
        book.set_value(constraint, b"Constraint.valA", b"6")?;
    }
    Ok(())
}

// Sets the remap list of the first group, where there is one.
fn set_remap(book: &mut Book) -> Result<(), AllocError> {
    let group = RecId {
        kind: Kind::Group,
        place: 0,
    };
    if book.count(Kind::Group) > 0 {
        book.set_map(group, b"Group.remap={\n    9 00090000 1\n}\n")?;
    }
    Ok(())
}

#[test]
fn values_are_those_of_the_last_line(rt: HostRuntime) -> Result<(), Fail> {
    let alloc = rt.alloc();
    let book = model(alloc)?;
    let constraint = RecId {
        kind: Kind::Constraint,
        place: 0,
    };
    assert_eq!(rt; book.count(Kind::Constraint), 1);
    assert!(rt; book.value(constraint, b"Constraint.valA") == Some(b"5.5".as_slice()));
    assert!(rt; book.line_of(constraint, b"Constraint.valA") == Some(21));
    let keys: [&[u8]; 2] = [b"Constraint.valB", b"Constraint.valA"];
    let mut found = [Some(7), None];
    book.find(constraint, &keys, &mut found);
    assert!(rt; found == [None, Some(2)]);
    Ok(())
}

// Adds request 9.
fn add_request(book: &mut Book) -> Result<(), AllocError> {
    let _rec = book.add_record(Kind::Request, b"Request.h.v=00000009\nAddRequest\n")?;
    Ok(())
}

// Takes the last request away, where there is one.
fn drop_request(book: &mut Book) {
    let count = book.count(Kind::Request);
    if count > 0 {
        let last = RecId {
            kind: Kind::Request,
            place: count - 1,
        };
        book.drop_record(last);
    }
}

// Makes the entity records anew: entity 9 alone.
fn set_entity(book: &mut Book) -> Result<(), AllocError> {
    book.set_entities(b"Entity.h.v=00000009\nAddEntity\n\n")
}

// Sets the distance of the first constraint twice, where there is one, and adds constraint 9, all at once.
fn change_constraints(alloc: Global, book: &mut Book) -> Result<(), AllocError> {
    let mut changes = ChangeList::new(alloc, Kind::Constraint);
    if book.count(Kind::Constraint) > 0 {
        changes.set_value(0, b"Constraint.valA", b"7")?;
        changes.set_value(0, b"Constraint.valA", b"6")?;
        book.change(&changes, b"Constraint.h.v=00000009\nAddConstraint\n\n")?;
    }
    Ok(())
}

// Sets the remap list of the first group at once, where there is one.
fn change_groups(alloc: Global, book: &mut Book) -> Result<(), AllocError> {
    let mut changes = ChangeList::new(alloc, Kind::Group);
    if book.count(Kind::Group) > 0 {
        changes.set_map(0, b"Group.remap={\n    9 00090000 1\n}\n")?;
        book.change(&changes, b"")?;
    }
    Ok(())
}

// Copies the book, and reads again what is written of the copy.
fn read_again(alloc: Global, book: &mut Book) -> Result<(), AllocError> {
    let copied = book.copy(alloc)?;
    copied.law_text();
    *book = Book::again(alloc, bytes(alloc, &copied)?)?;
    Ok(())
}

#[derive(Clone, Copy)]
enum Change {
    AddRequest,
    DropRequest,
    SetEntity,
    SetRemap,
    SetDistance,
    ChangeConstraints,
    ChangeGroups,
    ReadAgain,
}

fn apply(alloc: Global, book: &mut Book, change: Change) -> Result<(), AllocError> {
    match change {
        Change::AddRequest => add_request(book),
        Change::DropRequest => {
            drop_request(book);
            Ok(())
        }
        Change::SetEntity => set_entity(book),
        Change::SetRemap => set_remap(book),
        Change::SetDistance => set_distance(book),
        Change::ChangeConstraints => change_constraints(alloc, book),
        Change::ChangeGroups => change_groups(alloc, book),
        Change::ReadAgain => read_again(alloc, book),
    }
}

const HEAD: &[u8] = b"\xB1\xB2\xB3SolveSpaceREVa\n";

const GROUP: &[u8] = b"Group.h.v=00000001\nAddGroup\n";

const GROUP_UNENDED: &[u8] = b"Group.h.v=00000001\nAddGroup";

const LISTS_HEAD: &[u8] = b"Group.h.v=00000001\n";

const LISTS: &[u8] =
    b"Group.remap={\n    1 00040000 0\n}\nGroup.type=1\nGroup.remap={\n}\nAddGroup\n";

const ONE_LIST: &[u8] = b"Group.remap={\n    9 00090000 1\n}\nGroup.type=1\nAddGroup\n";

const REQUEST: &[u8] = b"Request.h.v=00000005\nAddRequest\n";

const NEW_REQUEST: &[u8] = b"Request.h.v=00000009\nAddRequest\n";

const ENTITY: &[u8] = b"Entity.h.v=00000001\nAddEntity\n";

const NEW_ENTITY: &[u8] = b"Entity.h.v=00000009\nAddEntity\n";

const STYLE: &[u8] = b"Style.h.v=00000001\nAddStyle\n";

const BLANK: &[u8] = b"\n";

fn joined(alloc: Global, parts: &[&[u8]]) -> Result<Vec<u8>, AllocError> {
    let mut text = Vec::new(alloc);
    for part in parts {
        text.extend_from_slice(part)?;
    }
    Ok(text)
}

// A text after some changes.
fn changed(alloc: Global, parts: &[&[u8]], changes: &[Change]) -> Result<Vec<u8>, AllocError> {
    let mut book = match Book::read(alloc, joined(alloc, parts)?) {
        Ok(book) => book,
        Err(_) => return Err(AllocError),
    };
    for change in changes {
        apply(alloc, &mut book, *change)?;
    }
    bytes(alloc, &book)
}

// Its name, a text, the changes that are made, and the text that is then written.
type Case = (
    &'static str,
    &'static [&'static [u8]],
    &'static [Change],
    &'static [&'static [u8]],
);

const CASES: [Case; 12] = [
    (
        "added where the last went before two empty lines",
        &[HEAD, REQUEST, REQUEST, BLANK, BLANK, STYLE],
        &[Change::DropRequest, Change::AddRequest],
        &[HEAD, REQUEST, BLANK, NEW_REQUEST, BLANK, STYLE],
    ),
    (
        "added where all of the kind went",
        &[HEAD, GROUP, BLANK, STYLE, REQUEST],
        &[Change::DropRequest, Change::AddRequest],
        &[HEAD, GROUP, BLANK, NEW_REQUEST, BLANK, STYLE],
    ),
    (
        "added behind the header",
        &[HEAD, BLANK, STYLE],
        &[Change::AddRequest],
        &[HEAD, NEW_REQUEST, BLANK, BLANK, STYLE],
    ),
    (
        "added behind a line without an end",
        &[HEAD, GROUP_UNENDED],
        &[Change::AddRequest],
        &[HEAD, GROUP, NEW_REQUEST, BLANK],
    ),
    (
        "entity records in two places",
        &[
            HEAD, GROUP, ENTITY, BLANK, STYLE, ENTITY, ENTITY, BLANK, BLANK,
        ],
        &[Change::SetEntity],
        &[HEAD, GROUP, NEW_ENTITY, BLANK, STYLE, BLANK],
    ),
    (
        "entity records twice",
        &[HEAD, ENTITY, STYLE],
        &[Change::SetEntity, Change::SetEntity],
        &[HEAD, NEW_ENTITY, BLANK, STYLE],
    ),
    (
        "no entity record",
        &[HEAD, GROUP, BLANK, STYLE],
        &[Change::SetEntity],
        &[HEAD, GROUP, BLANK, NEW_ENTITY, BLANK, STYLE],
    ),
    (
        "no entity record, behind a line without an end",
        &[HEAD, STYLE, GROUP_UNENDED],
        &[Change::SetEntity, Change::AddRequest],
        &[HEAD, STYLE, GROUP, NEW_REQUEST, BLANK, NEW_ENTITY, BLANK],
    ),
    (
        "two remap lists",
        &[HEAD, LISTS_HEAD, LISTS, STYLE],
        &[Change::SetRemap],
        &[HEAD, LISTS_HEAD, ONE_LIST, STYLE],
    ),
    (
        "two remap lists, at once",
        &[HEAD, LISTS_HEAD, LISTS, STYLE],
        &[Change::ChangeGroups, Change::ReadAgain],
        &[HEAD, LISTS_HEAD, ONE_LIST, STYLE],
    ),
    (
        "values and a record at once, behind a line without an end",
        &[HEAD, b"Constraint.valA=5\nAddConstraint"],
        &[Change::ChangeConstraints, Change::ReadAgain],
        &[
            HEAD,
            b"Constraint.valA=6\nAddConstraint\n",
            b"Constraint.h.v=00000009\nAddConstraint\n",
            BLANK,
        ],
    ),
    (
        "carriage returns",
        &[
            b"\xB1\xB2\xB3SolveSpaceREVa\r\nRequest.h.v=1\r\nAddRequest\r\n\r\nConstraint.valA=5\r\nAddConstraint\r\n",
        ],
        &[Change::SetDistance, Change::DropRequest, Change::SetEntity],
        &[
            b"\xB1\xB2\xB3SolveSpaceREVa\r\n",
            NEW_ENTITY,
            BLANK,
            b"Constraint.valA=6\r\nAddConstraint\r\n",
        ],
    ),
];

#[test]
fn records_go_and_come_where_the_text_then_stands(rt: HostRuntime) -> Result<(), Fail> {
    let alloc = rt.alloc();
    for (name, before, changes, after) in CASES {
        assert!(rt;
            changed(alloc, before, changes)? == joined(alloc, after)?,
            "{name}"
        );
    }
    Ok(())
}
