// The lines of a record's remap lists, lent from a book.
ghost use Rattle.std.specs.Prelude.{◌≡◌, ◌≤◌, ◌∷◌, [], List, length, drop, IfSome, IfNone};
ghost use Rattle.std.specs.List.{All};
ghost use Rattle.sk_records.specs.Rows.{entries};
ghost use Rattle.sk_records.specs.MapRows.{entry_lines};
ghost use Rattle.sk_records.specs.Holding.Held.{rows_at, row_at, RowWithin};

use crate::rows::{Role, Row};
use std::marker::Model;

/// A line of a remap list: its number as it was read, None for a line that a call added, and its body.
#[derive(Clone, Copy)]
pub struct MapLine<'a> {
    pub line: Option<usize>,
    pub body: &'a [u8],
}

/// An iterator over the lines of a record's remap lists, in order. Contracts see it as the list of the lines that are left.
#[derive(Drop)]
pub struct MapLines<'a> {
    text: &'a [u8],
    rows: &'a [Row],
    at: usize,
}

impl<'a> Model for MapLines<'a> {
    ghost use Rattle.std.specs.Prelude.{List, drop};
    ghost use Rattle.sk_records.specs.MapRows.{EntryLine, entry_lines};
    ghost use Rattle.sk_records.specs.Holding.Walk.{IsWalk};
    ghost use Rattle.sk_records.specs.Holding.Held.{rows_at};

    ghost Value = { List EntryLine };

    ghost view = { λ s. entry_lines (rows_at s.text.now (drop s.at s.rows.now)) };

    ghost invariant = { λ s. IsWalk s.text.now s.rows.now s.at };
}

impl<'a> Iterator for MapLines<'a> {
    type Item = MapLine<'a>;

    ghost use Rattle.std.specs.Iterator.{YieldsFirstBy, item_count};
    ghost use Rattle.sk_records.specs.MapLent.{lent_entry};

    ghost next_gives = { YieldsFirstBy lent_entry (λ s. s) };

    ghost remaining = { item_count (λ s. s) };

    fn next(&mut self) -> Option<MapLine<'a>> {
        let (count, row) = next_entry(self.text, &self.rows[self.at..])?;
        self.at += count;
        Some(MapLine {
            line: row.read_number(),
            body: row.body(self.text),
        })
    }
}

/// The lines of the remap lists among the lines of a record.
pub(crate) fn map_lines<'a>(text: &'a [u8], rows: &'a [Row]) -> MapLines<'a>
    requires { All (RowWithin text.now) rows.now }
    ensures { result ≡ entry_lines (rows_at text.now rows.now) }
{
    MapLines { text, rows, at: 0 }
}

// The first entry, and how many lines stand up to it.
fn next_entry(text: &[u8], rows: &[Row]) -> Option<(usize, Row)>
    requires { All (RowWithin text.now) rows.now }
    ensures none { IfNone result (entries (rows_at text.now rows.now) ≡ []) }
    ensures next { IfSome result (λ p. entries (rows_at text.now rows.now) ≡ row_at text.now p.1 ∷ entries (rows_at text.now (drop p.0 rows.now))) }
    ensures count { IfSome result (λ p. p.0 ≤ length rows.now) }
    ensures within { IfSome result (λ p. RowWithin text.now p.1) }
{
    for (i, row) in rows.iter().enumerate() {
        if let Role::Entry = row.mark.role() {
            return Some((i + 1, *row));
        }
    }
    None
}
