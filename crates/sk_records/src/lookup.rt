// What is read from the lines of one record.
ghost use Rattle.std.specs.Prelude.{◌≡◌, List, ℕ, Option, length, map, if◌then◌else◌};
ghost use Rattle.std.specs.Borrow.{Bor};
ghost use Rattle.std.specs.Option.{option_copied};
ghost use Rattle.std.specs.List.{All};
ghost use Rattle.sk_records.specs.Rows.{last_value, last_number, last_place, value_at};
ghost use Rattle.sk_records.specs.Holding.Found.{key_at, noted};
ghost use Rattle.sk_records.specs.Holding.Held.{bytes_at, rows_at, RowWithin};
ghost use Rattle.sk_records.specs.Holding.Marks.{mark_role};

use crate::rows::{Role, Row};
use sk_text::split_key;

/// The value that a line has under a key, lent from the text.
pub(crate) fn value_in<'t>(text: &'t [u8], row: Row, key: &[u8]) -> Option<&'t [u8]>
    requires { RowWithin text.now row }
    ensures { option_copied result ≡ value_at key.now (mark_role row.mark) (bytes_at text.now row.start row.body_end) }
{
    match row.mark.role() {
        Role::Plain => match split_key(row.body(text)) {
            Some((before, after)) if before == key => Some(after),
            _ => None,
        },
        _ => None,
    }
}

/// The value of a key: that of the last line with it.
pub(crate) fn last_value<'t>(text: &'t [u8], rows: &[Row], key: &[u8]) -> Option<&'t [u8]>
    requires { All (RowWithin text.now) rows.now }
    ensures { option_copied result ≡ last_value key.now (rows_at text.now rows.now) }
{
    let mut found = None;
    for row in rows {
        if let Some(value) = value_in(text, *row, key) {
            found = Some(value);
        }
    }
    found
}

/// The number of the last line with a key, where it was read.
pub(crate) fn last_number(text: &[u8], rows: &[Row], key: &[u8]) -> Option<usize>
    requires { All (RowWithin text.now) rows.now }
    ensures { result ≡ last_number key.now (rows_at text.now rows.now) }
{
    let mut found = None;
    for row in rows {
        if value_in(text, *row, key).is_some() {
            found = row.read_number();
        }
    }
    found
}

/// The place of the last line with a key.
pub(crate) fn last_place(text: &[u8], rows: &[Row], key: &[u8]) -> Option<usize>
    requires { All (RowWithin text.now) rows.now }
    ensures { result ≡ last_place key.now (rows_at text.now rows.now) }
{
    let mut found = None;
    for (i, row) in rows.iter().enumerate() {
        if value_in(text, *row, key).is_some() {
            found = Some(i);
        }
    }
    found
}

// The key of a line, lent from the text.
fn key_in<'t>(text: &'t [u8], row: Row) -> Option<&'t [u8]>
    requires { RowWithin text.now row }
    ensures { option_copied result ≡ key_at (mark_role row.mark) (bytes_at text.now row.start row.body_end) }
{
    match row.mark.role() {
        Role::Plain => match split_key(row.body(text)) {
            Some((before, _)) => Some(before),
            None => None,
        },
        _ => None,
    }
}

fn clear(found: &mut [Option<usize>])
    ensures { found.new ≡ map (λ (o : Option ℕ). None) found.old }
{
    for i in 0..found.len() {
        found[i] = None;
    }
}

// A place, or what was found before.
fn place_or(here: bool, at: usize, before: Option<usize>) -> Option<usize>
    ensures { result ≡ (if here then Some at else before) }
{
    if here { Some(at) } else { before }
}

// Where a line has one of some keys, its place is noted.
fn note(key: &[u8], at: usize, keys: &[&[u8]], found: &mut [Option<usize>])
    requires { length found.old ≡ length keys.now }
    ensures { found.new ≡ noted key.now at keys.now found.old }
{
    for (i, wanted) in keys.iter().enumerate() {
        found[i] = place_or(key == *wanted, at, found[i]);
    }
}

/// The places of the last lines with some keys, each key's in its place: one pass over the lines.
pub(crate) fn last_places(text: &[u8], rows: &[Row], keys: &[&[u8]], found: &mut [Option<usize>])
    requires within { All (RowWithin text.now) rows.now }
    requires room { length found.old ≡ length keys.now }
    ensures { found.new ≡ map (λ (k : Bor (List ℕ)). last_place k.now (rows_at text.now rows.now)) keys.now }
{
    clear(found);
    for (i, row) in rows.iter().enumerate() {
        if let Some(key) = key_in(text, *row) {
            note(key, i, keys, found);
        }
    }
}

/// The value of a key, of whose last line the place is known.
pub(crate) fn value_on<'t>(
    text: &'t [u8],
    rows: &[Row],
    key: &[u8],
    line: Option<usize>,
) -> Option<&'t [u8]>
    requires within { All (RowWithin text.now) rows.now }
    requires found { line ≡ last_place key.now (rows_at text.now rows.now) }
    ensures { option_copied result ≡ last_value key.now (rows_at text.now rows.now) }
{
    match line {
        Some(at) => {
            let row = rows[at];
            value_in(text, row, key)
        }
        None => None,
    }
}
