// What is read under the keys of one record.

ghost use Rattle.std.specs.Prelude.{◌≡◌, ◌<◌, length, map, unwrap_or};
ghost use Rattle.std.specs.Option.{option_copied};
ghost use Rattle.sk_num.specs.Scale.{IsScale};
ghost use Rattle.sk_records.specs.Answers.{rows_in};
ghost use Rattle.sk_records.specs.Blocks.{records};
ghost use Rattle.sk_records.specs.Rows.{last_number, last_place, last_value};
ghost use Rattle.sk_link.specs.Keys.{key_bytes, all_keys};
ghost use Rattle.sk_link.specs.Fields.{handle_under, whole_under, quantity_under, flag_under};

use crate::fault::Refusal;
use crate::keys::Key;
use sk_num::{Grid, read_handle, read_quantity, read_whole};
use sk_records::{Book, RecId};
use std::marker::Model;

/// A record of a book, with the places of the lines that have the keys. Contracts see it as its lines.
#[derive(Drop)]
pub(crate) struct Fields<'b> {
    book: &'b Book,
    rec: RecId,
    found: &'b [Option<usize>],
}

impl<'b> Model for Fields<'b> {
    ghost use Rattle.std.specs.Prelude.{◌≡◌, ◌<◌, List, length, map};
    ghost use Rattle.sk_records.specs.Answers.{rows_in};
    ghost use Rattle.sk_records.specs.Blocks.{records};
    ghost use Rattle.sk_records.specs.Rows.{Row, last_place};
    ghost use Rattle.sk_link.specs.Keys.{key_bytes, all_keys};

    ghost Value = { List Row };

    ghost view = { λ f. rows_in f.rec f.book.now };

    ghost invariant = { λ f. (f.rec.place < length (records f.rec.kind f.book.now))
        × (f.found.now ≡ map (λ k. last_place (key_bytes k) (rows_in f.rec f.book.now)) all_keys) };
}

impl<'b> Fields<'b> {
    /// The lines of a record, by the places of the last ones with the keys.
    pub(crate) fn of(book: &'b Book, rec: RecId, found: &'b [Option<usize>]) -> Fields<'b>
        requires exists { rec.place < length (records rec.kind book.now) }
        requires found { found.now ≡ map (λ k. last_place (key_bytes k) (rows_in rec book.now)) all_keys }
        ensures { result ≡ rows_in rec book.now }
    {
        Fields { book, rec, found }
    }

    // The value of the last line with a key.
    fn value(&self, key: Key) -> Option<&'b [u8]>
        ensures { option_copied result ≡ last_value (key_bytes key) self.now }
    {
        let line = self.found[key.place()];
        self.book.value_at(self.rec, key.bytes(), line)
    }

    fn number_at(&self, key: Key) -> Refusal
        ensures { result ≡ Refusal.Number (unwrap_or (last_number (key_bytes key) self.now) 0) }
    {
        Refusal::Number(self.book.line_of(self.rec, key.bytes()).unwrap_or(0))
    }

    /// The handle under a key; 0 where the record doesn't have the key.
    #[tactic(auto, unfolding(crate::specs::Fields::handle_under))]
    pub(crate) fn handle(&self, key: Key) -> Result<u32, Refusal>
        ensures { result ≡ handle_under key self.now }
    {
        let Some(text) = self.value(key) else {
            return Ok(0);
        };
        match read_handle(text) {
            Ok(handle) => Ok(handle),
            Err(_) => Err(self.number_at(key)),
        }
    }

    /// The whole number under a key; 0 where the record doesn't have the key.
    #[tactic(auto, unfolding(crate::specs::Fields::whole_under))]
    pub(crate) fn whole(&self, key: Key) -> Result<i32, Refusal>
        ensures { result ≡ whole_under key self.now }
    {
        let Some(text) = self.value(key) else {
            return Ok(0);
        };
        match read_whole(text) {
            Ok(number) => Ok(number),
            Err(_) => Err(self.number_at(key)),
        }
    }

    /// The quantity under a key; 0 where the record doesn't have the key.
    #[tactic(auto, unfolding(crate::specs::Fields::quantity_under))]
    pub(crate) fn quantity<const S: u32>(&self, key: Key) -> Result<Grid<S>, Refusal>
        requires { IsScale S }
        ensures { result ≡ quantity_under S key self.now }
    {
        let Some(text) = self.value(key) else {
            return Ok(Grid::zero());
        };
        match read_quantity(text) {
            Ok(quantity) => Ok(quantity),
            Err(_) => Err(self.number_at(key)),
        }
    }

    /// The truth value under a key; false where the record doesn't have the key.
    #[tactic(auto, unfolding(crate::specs::Fields::flag_under))]
    pub(crate) fn flag(&self, key: Key) -> Result<bool, Refusal>
        ensures { result ≡ flag_under key self.now }
    {
        let number = self.whole(key)?;
        Ok(number != 0)
    }
}
