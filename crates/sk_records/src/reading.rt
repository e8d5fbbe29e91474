// Lines become items, or give the first fault.
ghost use Rattle.std.specs.Prelude.{◌≡◌, ◌<◌, ◌+◌, ◌++◌, ◌^◌, ◌∷◌, [], List, ℕ, length, drop, map, Some, None, IsSome, IfOk, OnOk};
ghost use Rattle.std.specs.List.{All};
ghost use Rattle.sk_text.specs.Lines.{PlacedLine, line_at, line_bytes, lines_in, AreLines};
ghost use Rattle.sk_records.specs.Kinds.{same_kind};
ghost use Rattle.sk_records.specs.Blocks as blocks;
ghost use Rattle.sk_records.specs.Reading.{row_at, outside, inside, within, step, read_from, Outside};
ghost use Rattle.sk_records.specs.Holding.Held.{rows_at, blocks_at, IsWithin, ItemWithin, RowWithin, line_at as line_held, row_at as row_held};
ghost use Rattle.sk_records.specs.Holding.Moves.{Moves, IsEnd, IsRead, state_of, OpenWithin, IsBelow, IsLine, IsPartFrom};
ghost use Rattle.sk_records.specs.declared.items.Item.{Item};

use crate::NoMemory;
use crate::classes::{LineClass, class_of, is_entry, is_shut};
use crate::faults::ReadFault;
use crate::items::{Item, Record, push_line};
use crate::kinds::Kind;
use crate::rows::{Role, Row, Span};
use sk_text::LineIter;
use std::alloc::Global;

// How many lines a short list of them has at most.
const FEW: usize = 64;

/// A record that isn't closed yet: its first line's number, and the number of the line that opened its current list.
#[derive(Drop)]
pub(crate) struct Open {
    pub(crate) kind: Kind,
    pub(crate) first: usize,
    pub(crate) rows: Vec<Row>,
    pub(crate) list: Option<usize>,
}

// A line number, as faults carry it.
fn as_line(number: usize) -> u32
    requires { number < 2 ^ 32 }
    ensures { result ≡ number }
{
    number as u32
}

// A line of a record, with its number.
fn row(text: &[u8], span: Span, role: Role, number: usize) -> Row
    requires within { IsWithin text.now span }
    requires few { number < 2 ^ 28 }
    requires some { 0 < number }
    ensures line { row_held text.now result ≡ row_at number role (line_held text.now span) }
    ensures within { RowWithin text.now result }
{
    let within = span.end as usize <= text.len();
    prove!(within);
    Row::of(span, role, number as u32)
}

// A line outside of records.
fn outside(
    alloc: Global,
    text: &[u8],
    items: &mut Vec<Item>,
    span: Span,
    number: usize,
    class: LineClass,
) -> Result<Option<Open>, ReadFault>
    requires few { number < 2 ^ 28 }
    requires some { 0 < number }
    requires line { IsLine text.now span }
    requires all { All (ItemWithin text.now) items.old.items }
    ensures moves { Moves text.now items.old.items items.new.items number (outside number (line_held text.now span) class) result }
    ensures within { All (ItemWithin text.now) items.new.items }
    ensures current { IfOk result (OpenWithin text.now) }
    ensures below { IfOk result (IsBelow (number + 1)) }
{
    match class {
        LineClass::Empty | LineClass::Surface => {
            push_line(text, items, span)?;
            Ok(None)
        }
        LineClass::Value(kind) => {
            let mut rows = Vec::new(alloc);
            rows.push(row(text, span, Role::Plain, number))?;
            Ok(Some(Open {
                kind,
                first: number,
                rows,
                list: None,
            }))
        }
        _ => Err(ReadFault::BadLine(as_line(number))),
    }
}

// The same lines, with no more room than they need. A short list is copied, since the room that it leaves serves the next one;
// a long one would for a while be held twice.
fn exact(rows: Vec<Row>) -> Result<Vec<Row>, NoMemory>
    ensures { IfOk result (λ v. v.items ≡ rows.items) }
{
    if rows.len() <= FEW {
        return Vec::from_slice(*rows.allocator(), &rows);
    }
    let mut rows = rows;
    rows.shrink_to_fit();
    Ok(rows)
}

// A record is closed.
fn close(text: &[u8], items: &mut Vec<Item>, current: Open, span: Span) -> Result<(), NoMemory>
    requires line { IsWithin text.now span }
    requires rows { All (RowWithin text.now) current.rows.items }
    requires all { All (ItemWithin text.now) items.old.items }
    ensures ok { OnOk result (blocks_at text.now items.new.items ≡ blocks_at text.now items.old.items ++ blocks.Record (record { kind = current.kind; rows = rows_at text.now current.rows.items; close = line_held text.now span }) ∷ []) }
    ensures within { All (ItemWithin text.now) items.new.items }
{
    let within = span.end as usize <= text.len();
    prove!(within);
    let Open { kind, rows, .. } = current;
    let rows = exact(rows)?;
    items.push(Item::Held(Record {
        kind,
        rows,
        close: span,
    }))?;
    Ok(())
}

// A line in a record, outside of its lists.
fn inside(
    text: &[u8],
    items: &mut Vec<Item>,
    current: Open,
    span: Span,
    number: usize,
    class: LineClass,
) -> Result<Option<Open>, ReadFault>
    requires few { number < 2 ^ 28 }
    requires some { 0 < number }
    requires line { IsWithin text.now span }
    requires closed { current.list ≡ None }
    requires below { current.first < number }
    requires rows { All (RowWithin text.now) current.rows.items }
    requires all { All (ItemWithin text.now) items.old.items }
    ensures moves { Moves text.now items.old.items items.new.items number (inside number current.kind current.first (rows_at text.now current.rows.items) (line_held text.now span) class) result }
    ensures within { All (ItemWithin text.now) items.new.items }
    ensures current { IfOk result (OpenWithin text.now) }
    ensures below { IfOk result (IsBelow (number + 1)) }
{
    let mut current = current;
    match class {
        LineClass::Empty => current.rows.push(row(text, span, Role::Plain, number))?,
        LineClass::Value(kind) if kind.is(current.kind) => {
            current.rows.push(row(text, span, Role::Plain, number))?;
        }
        LineClass::Opens if current.kind.is(Kind::Group) => {
            current.rows.push(row(text, span, Role::Brace, number))?;
            current.list = Some(number);
        }
        LineClass::Closes(kind) if kind.is(current.kind) => {
            close(text, items, current, span)?;
            return Ok(None);
        }
        _ => return Err(ReadFault::BadLine(as_line(number))),
    }
    Ok(Some(current))
}

// A line in a list of a record that the line `at` opened.
fn within(
    text: &[u8],
    current: Open,
    at: usize,
    span: Span,
    number: usize,
) -> Result<Option<Open>, ReadFault>
    requires few { number < 2 ^ 28 }
    requires some { 0 < number }
    requires line { IsWithin text.now span }
    requires list { current.list ≡ Some at }
    requires first { current.first < number }
    requires below { at < number }
    requires rows { All (RowWithin text.now) current.rows.items }
    ensures moves { (old : List Item) → Moves text.now old old number (within number current.kind current.first at (rows_at text.now current.rows.items) (line_held text.now span)) result }
    ensures current { IfOk result (OpenWithin text.now) }
    ensures below { IfOk result (IsBelow (number + 1)) }
{
    let mut current = current;
    let body = span.body(text);
    if is_shut(body) {
        current.rows.push(row(text, span, Role::Brace, number))?;
        current.list = None;
        Ok(Some(current))
    } else if is_entry(body) {
        current.rows.push(row(text, span, Role::Entry, number))?;
        Ok(Some(current))
    } else {
        Err(ReadFault::BadLine(as_line(number)))
    }
}

// One more line.
fn step(
    alloc: Global,
    text: &[u8],
    items: &mut Vec<Item>,
    current: Option<Open>,
    span: Span,
    number: usize,
) -> Result<Option<Open>, ReadFault>
    requires few { number < 2 ^ 28 }
    requires some { 0 < number }
    requires line { IsLine text.now span }
    requires current { OpenWithin text.now current }
    requires below { IsBelow number current }
    requires all { All (ItemWithin text.now) items.old.items }
    ensures moves { Moves text.now items.old.items items.new.items number (step number (state_of text.now current) (line_held text.now span)) result }
    ensures within { All (ItemWithin text.now) items.new.items }
    ensures current { IfOk result (OpenWithin text.now) }
    ensures below { IfOk result (IsBelow (number + 1)) }
{
    match current {
        None => outside(alloc, text, items, span, number, class_of(span.body(text))),
        Some(current) => match current.list {
            Some(at) => within(text, current, at, span, number),
            None => inside(
                text,
                items,
                current,
                span,
                number,
                class_of(span.body(text)),
            ),
        },
    }
}

// Whether a text may end here.
fn at_end(current: &Option<Open>) -> Result<(), ReadFault>
    requires few { IsBelow (2 ^ 28) current.now }
    ensures { (text : List ℕ) → IsEnd (state_of text current.now) result }
{
    match current {
        None => Ok(()),
        Some(current) => match current.list {
            Some(at) => Err(ReadFault::OpenMap(as_line(at))),
            None => Err(ReadFault::OpenRecord(as_line(current.first))),
        },
    }
}

/// The items of a text's lines from line `number` on, or the first fault. The lines begin at `base` in the text.
pub(crate) fn read_lines(
    alloc: Global,
    text: &[u8],
    base: usize,
    lines: LineIter,
    first: usize,
) -> Result<Vec<Item>, ReadFault>
    requires parts { All (IsPartFrom text.now base) lines }
    requires lines { AreLines (map line_at lines) }
    requires places { length text.now < 2 ^ 32 }
    requires few { first + length lines < 2 ^ 28 }
    requires some { 0 < first }
    ensures read { IsRead text.now result (read_from first Outside (map line_at lines.entry)) }
    ensures within { IfOk result (λ items. All (ItemWithin text.now) items.items) }
{
    let mut items = Vec::new(alloc);
    let mut current = None;
    let mut number = first;
    for line in lines {
        let start = base + line.at;
        let body_end = start + line.body.len();
        let end = body_end + line.end.len();
        let span = Span {
            start: start as u32,
            body_end: body_end as u32,
            end: end as u32,
        };
        match step(alloc, text, &mut items, current, span, number) {
            Ok(next) => current = next,
            Err(fault) => return Err(fault),
        }
        number += 1;
    }
    match at_end(&current) {
        Ok(()) => Ok(items),
        Err(fault) => Err(fault),
    }
}
