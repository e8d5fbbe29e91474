ghost use Rattle.std.specs.Prelude.{◌≡◌, ◌<◌, length, slice_set, IfOk, OnOk, OnErr, ◌++◌, ◌∷◌, [], string_bytes};

use crate::NoMemory;
use std::alloc::Global;
use std::marker::Model;

/// A `Vec` that contracts see as the list of its elements.
#[derive(Debug, Drop)]
pub struct Items<T> {
    items: Vec<T>,
}

impl<T> Model for Items<T> {
    ghost use Rattle.std.specs.Prelude.{List};
    ghost use Rattle.std.specs.Coded.{coded_list};

    ghost Value = { List T };

    ghost coded = { coded_list T.code };

    ghost view = { λ it. it.items.items };
}

impl<T> Items<T> {
    /// The elements of the vector.
    pub fn of(items: Vec<T>) -> Items<T>
        ensures { result ≡ items.items }
    {
        Items { items }
    }

    /// The elements, lent.
    pub fn as_slice(&self) -> &[T]
        ensures { result.now ≡ self.now }
    {
        self.items.as_slice()
    }

    /// The vector of the elements.
    pub fn into_vec(self) -> Vec<T>
        ensures { result.items ≡ self }
    {
        let Items { items } = self;
        items
    }
}

impl<T: Drop> Items<T> {
    /// Puts `x` into the place `at`, from 0.
    pub fn put(&mut self, at: usize, x: T)
        requires { at < length self.old }
        ensures { self.new ≡ slice_set self.old at x }
    {
        self.items[at] = x;
    }

    /// Puts `x` behind the last element.
    pub fn push(&mut self, x: T) -> Result<(), NoMemory>
        ensures pushed { OnOk result (self.new ≡ self.old ++ x ∷ []) }
        ensures kept { OnErr result (self.new ≡ self.old) }
    {
        self.items.push(x)?;
        Ok(())
    }
}

impl<T: Copy> Items<T> {
    /// The same elements in memory of their own.
    pub fn copy(&self, alloc: Global) -> Result<Items<T>, NoMemory>
        ensures { IfOk result (λ it. it ≡ self.now) }
    {
        let items = Vec::from_slice(alloc, self.items.as_slice())?;
        Ok(Items { items })
    }
}

/// A `String` that contracts see as its bytes.
#[derive(Debug, Drop)]
pub struct Text {
    text: String,
}

impl Model for Text {
    ghost use Rattle.std.specs.Prelude.{List, ℕ, string_bytes};

    ghost Value = { List ℕ };

    ghost view = { λ t. string_bytes t.text };
}

impl Text {
    /// The bytes of the string.
    pub fn of(text: String) -> Text
        ensures { result ≡ string_bytes text }
    {
        Text { text }
    }

    /// The text, lent.
    pub fn as_str(&self) -> &str
        ensures { result.now ≡ self.now }
    {
        self.text.as_str()
    }

    /// The same bytes in memory of their own.
    pub fn copy(&self, alloc: Global) -> Result<Text, NoMemory>
        ensures { IfOk result (λ t. t ≡ self.now) }
    {
        let text = String::from_str(alloc, self.text.as_str())?;
        Ok(Text { text })
    }
}
