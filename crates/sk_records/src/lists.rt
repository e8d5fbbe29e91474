// Remap lists among the lines of a record.
ghost use Rattle.std.specs.Prelude.{◌≡◌, ◌≤◌, ◌++◌, List, ℕ, length, map, IfOk, OnOk, OnErr, vec_len};
ghost use Rattle.std.specs.List.{All};
ghost use Rattle.sk_records.specs.Holding.Changes.{is_plain_row, with_list};
ghost use Rattle.sk_records.specs.Given.{given_list, list_role};
ghost use Rattle.sk_records.specs.Holding.Held.{rows_at, RowWithin};
ghost use Rattle.sk_records.specs.Holding.Grown.{IsGrown};

use crate::NoMemory;
use crate::classes::{is_opening, is_shut};
use crate::rows::{LAST_PLACE, Role, Row, Span};
use sk_text::lines;
use std::alloc::Global;

// What a line of a whole list is.
fn list_role(body: &[u8]) -> Role
    ensures { result ≡ list_role body.now }
{
    if is_opening(body) || is_shut(body) {
        Role::Brace
    } else {
        Role::Entry
    }
}

/// Puts the lines of a whole list behind the text, and gives them as lines of a record.
pub(crate) fn push_list(text: &mut Vec<u8>, given: &[u8]) -> Result<Vec<Row>, NoMemory>
    ensures rows { IfOk result (λ rows. rows_at text.new.items rows.items ≡ given_list given.now) }
    ensures within { IfOk result (λ rows. All (RowWithin text.new.items) rows.items) }
    ensures grown { IsGrown text.old.items text.new.items }
{
    let base = text.len();
    text.extend_from_slice(given)?;
    if text.len() > LAST_PLACE {
        return Err(NoMemory);
    }
    let mut rows = Vec::new(*text.allocator());
    for line in lines(given) {
        let start = base + line.at;
        let body_end = start + line.body.len();
        let end = body_end + line.end.len();
        let span = Span {
            start: start as u32,
            body_end: body_end as u32,
            end: end as u32,
        };
        rows.push(Row::of(span, list_role(line.body), 0))?;
    }
    Ok(rows)
}

// Whether a line is of no remap list.
fn is_plain(row: Row) -> bool
    ensures { result ≡ is_plain_row row }
{
    match row.mark.role() {
        Role::Plain => true,
        Role::Brace | Role::Entry => false,
    }
}

/// The lines of a record with a new list in the place of the first, and no further one.
pub(crate) fn with_list(alloc: Global, rows: &[Row], new: &[Row]) -> Result<Vec<Row>, NoMemory>
    ensures { IfOk result (λ v. v.items ≡ with_list new.now rows.now) }
{
    let mut out = Vec::new(alloc);
    let mut put = false;
    for row in rows {
        if is_plain(*row) {
            out.push(*row)?;
        } else if !put {
            out.extend_from_slice(new)?;
            put = true;
        }
    }
    if !put {
        out.extend_from_slice(new)?;
    }
    Ok(out)
}
