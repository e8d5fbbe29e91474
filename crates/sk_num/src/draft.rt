// A short text in the making.

ghost use Rattle.std.specs.Prelude.{◌≡◌, ℕ, ◌+◌, ◌<◌, ◌≤◌, List, [], ◌∷◌, ◌++◌, length, take, slice_index};
ghost use Rattle.std.specs.Fmt.{decimal};
ghost use Rattle.sk_num.specs.Numerals.{padded};
ghost use Rattle.sk_num.specs.Drafts.{IsDraft};
ghost use Rattle.sk_num.specs.Decimals.{sign_text};

use std::marker::Model;

/// A text of at most 40 bytes that grows at its end; every byte behind it is 0.
#[derive(Debug, Drop)]
pub struct Draft {
    bytes: [u8; 40],
    len: u8,
}

impl Model for Draft {
    ghost use Rattle.std.specs.Prelude.{ℕ, List, take};
    ghost use Rattle.sk_num.specs.Drafts.{IsDraft};

    ghost Value = { List ℕ };

    ghost view = { λ d. take d.len d.bytes };

    ghost invariant = { λ d. IsDraft d.bytes d.len };
}

impl Draft {
    /// The empty text.
    pub fn new() -> Self
        ensures { result ≡ [] }
    {
        Draft {
            bytes: [0; 40],
            len: 0,
        }
    }

    /// Puts a byte at the end.
    pub fn push(&mut self, byte: u8)
        requires { length self.old < 40 }
        ensures { self.new ≡ self.old ++ byte ∷ [] }
    {
        self.bytes[usize::from(self.len)] = byte;
        self.len += 1;
    }

    /// Puts a minus at the end where the number is negative.
    pub fn push_sign(&mut self, negative: bool)
        requires { length self.old < 40 }
        ensures { self.new ≡ self.old ++ sign_text negative }
    {
        if negative {
            self.push(b'-');
        }
    }

    /// Puts the last `width` digits of `n` in the base at the end.
    #[tactic(auto, unfolding(crate::specs::Numerals::padded))]
    pub fn push_padded(&mut self, base: u128, width: u8, n: u128)
        requires least { 2 ≤ base }
        requires greatest { base ≤ 16 }
        requires room { length self.old + width ≤ 40 }
        ensures { self.new ≡ self.old ++ padded base width n }
    {
        if width == 0 {
            return;
        }
        self.push_padded(base, width - 1, n / base);
        let digit = (n % base) as u8;
        self.push(if digit < 10 {
            b'0' + digit
        } else {
            b'a' + (digit - 10)
        });
    }

    /// Puts the number in decimal digits at the end, without leading zeros.
    pub fn push_decimal(&mut self, n: u64)
        requires { length self.old + length (decimal n) ≤ 40 }
        ensures { self.new ≡ self.old ++ decimal n }
    {
        if n < 10 {
            self.push(b'0' + n as u8);
            return;
        }
        self.push_decimal(n / 10);
        self.push(b'0' + (n % 10) as u8);
    }

    /// The bytes, those behind the text being 0, and the text's length.
    pub fn into_parts(self) -> ([u8; 40], u8)
        ensures text { take result.1 result.0 ≡ self }
        ensures count { result.1 ≡ length self }
        ensures short { result.1 ≤ 40 }
        ensures rest { (k : ℕ) → result.1 ≤ k → slice_index result.0 k ≡ 0 }
    {
        let bytes = self.bytes;
        (bytes, self.len)
    }
}
