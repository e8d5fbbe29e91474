// The values of one record.

ghost use Rattle.std.specs.Prelude.{◌≡◌, ◌<◌, length, map, unwrap_or};
ghost use Rattle.std.specs.Option.{option_copied};
ghost use Rattle.sk_num.specs.Scale.{IsScale};
ghost use Rattle.sk_records.specs.Answers.{rows_in};
ghost use Rattle.sk_records.specs.Blocks.{records};
ghost use Rattle.sk_records.specs.Rows.{last_number, last_place, last_value};
ghost use Rattle.sk_records.specs.MapRows.{entry_lines};
ghost use Rattle.sk_model.specs.Keys.{key_bytes, key_spot, keys_of};
ghost use Rattle.sk_model.specs.Fields.{handle_under, whole_under, quantity_under, flag_under, text_under};

use crate::faults::ModelFault;
use crate::keys::Key;
use sk_num::{Grid, read_handle, read_quantity, read_whole};
use sk_records::{Book, MapLines, RecId};
use std::marker::Model;

/// A record of a book, with the places of the lines that have its keys. Contracts see it as its kind and its lines.
#[derive(Drop)]
pub(crate) struct Fields<'b> {
    book: &'b Book,
    rec: RecId,
    found: &'b [Option<usize>],
}

impl<'b> Model for Fields<'b> {
    ghost use Rattle.std.specs.Prelude.{◌≡◌, ◌<◌, length, map};
    ghost use Rattle.sk_records.specs.Rows.{last_place};
    ghost use Rattle.sk_records.specs.Answers.{rows_in};
    ghost use Rattle.sk_records.specs.Blocks.{records};
    ghost use Rattle.sk_model.specs.Keys.{key_bytes, keys_of};
    ghost use Rattle.sk_model.specs.Fields.{RecordLines};

    ghost Value = { RecordLines };

    ghost view = { λ f. record { kind = f.rec.kind; rows = rows_in f.rec f.book.now } };

    ghost invariant = { λ f. (f.rec.place < length (records f.rec.kind f.book.now))
        × (f.found.now ≡ map (λ k. last_place (key_bytes k) (rows_in f.rec f.book.now)) (keys_of f.rec.kind)) };
}

impl<'b> Fields<'b> {
    /// The record's values, by the places of the last lines with its keys.
    pub(crate) fn of(book: &'b Book, rec: RecId, found: &'b [Option<usize>]) -> Fields<'b>
        requires exists { rec.place < length (records rec.kind book.now) }
        requires found { found.now ≡ map (λ k. last_place (key_bytes k) (rows_in rec book.now)) (keys_of rec.kind) }
        ensures { result ≡ record { kind = rec.kind; rows = rows_in rec book.now } }
    {
        Fields { book, rec, found }
    }

    // The value of the last line with a key.
    fn value(&self, key: Key) -> Option<&'b [u8]>
        requires kind { (key_spot key).kind ≡ self.now.kind }
        ensures { option_copied result ≡ last_value (key_bytes key) self.now.rows }
    {
        let line = self.found[key.place()];
        self.book.value_at(self.rec, key.bytes(), line)
    }

    fn number_at(&self, key: Key) -> ModelFault
        ensures { result ≡ ModelFault.NumberAt (unwrap_or (last_number (key_bytes key) self.now.rows) 0) }
    {
        ModelFault::NumberAt(self.book.line_of(self.rec, key.bytes()).unwrap_or(0))
    }

    /// The handle under a key; 0 where the record doesn't have the key.
    #[tactic(auto, unfolding(crate::specs::Fields::handle_under))]
    pub(crate) fn handle(&self, key: Key) -> Result<u32, ModelFault>
        requires kind { (key_spot key).kind ≡ self.now.kind }
        ensures { result ≡ handle_under key self.now.rows }
    {
        let Some(text) = self.value(key) else {
            return Ok(0);
        };
        match read_handle(text) {
            Ok(handle) => Ok(handle),
            Err(_) => Err(self.number_at(key)),
        }
    }

    /// The whole number under a key; 0 where the record doesn't have the key.
    #[tactic(auto, unfolding(crate::specs::Fields::whole_under))]
    pub(crate) fn whole(&self, key: Key) -> Result<i32, ModelFault>
        requires kind { (key_spot key).kind ≡ self.now.kind }
        ensures { result ≡ whole_under key self.now.rows }
    {
        let Some(text) = self.value(key) else {
            return Ok(0);
        };
        match read_whole(text) {
            Ok(number) => Ok(number),
            Err(_) => Err(self.number_at(key)),
        }
    }

    /// The quantity under a key, or what stands for an absent one.
    #[tactic(auto, unfolding(crate::specs::Fields::quantity_under))]
    pub(crate) fn quantity<const S: u32>(
        &self,
        key: Key,
        absent: Grid<S>,
    ) -> Result<Grid<S>, ModelFault>
        requires scale { IsScale S }
        requires kind { (key_spot key).kind ≡ self.now.kind }
        ensures { result ≡ quantity_under S absent.entry key self.now.rows }
    {
        let Some(text) = self.value(key) else {
            return Ok(absent);
        };
        match read_quantity(text) {
            Ok(quantity) => Ok(quantity),
            Err(_) => Err(self.number_at(key)),
        }
    }

    /// The truth value under a key; false where the record doesn't have the key.
    #[tactic(auto, unfolding(crate::specs::Fields::flag_under))]
    pub(crate) fn flag(&self, key: Key) -> Result<bool, ModelFault>
        requires kind { (key_spot key).kind ≡ self.now.kind }
        ensures { result ≡ flag_under key self.now.rows }
    {
        let number = self.whole(key)?;
        Ok(number != 0)
    }

    /// The text under a key; empty where the record doesn't have the key.
    #[tactic(auto, unfolding(crate::specs::Fields::text_under))]
    pub(crate) fn text(&self, key: Key) -> &'b [u8]
        requires kind { (key_spot key).kind ≡ self.now.kind }
        ensures { result.now ≡ text_under key self.now.rows }
    {
        match self.value(key) {
            Some(text) => text,
            None => &[],
        }
    }

    /// The lines of the remap lists.
    pub(crate) fn map_lines(&self) -> MapLines<'b>
        ensures { result ≡ entry_lines self.now.rows }
    {
        self.book.map_lines(self.rec)
    }
}
