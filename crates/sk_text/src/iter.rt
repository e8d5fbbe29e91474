// The lines of a text, lent from it.
ghost use Rattle.std.specs.Prelude.{◌≡◌, ℕ, List, ◌+◌, ◌-◌, ◌≤◌, ◌<◌, ◌∷◌, length, drop, take, map, All};
ghost use Rattle.sk_text.specs.Lines.{lines_of, lines_in, line_at, joined, end_len, whole_lines, IsPart, AreLines};

use memchr::memchr;
use std::marker::Model;

/// A line of a text.
///
/// `at` is the index of its first byte. The end is `\n`, `\r\n`, or empty for a last line without one.
/// A carriage return that isn't directly before the line feed is part of the body.
#[derive(Clone, Copy)]
pub struct Line<'a> {
    pub at: usize,
    pub body: &'a [u8],
    pub end: &'a [u8],
}

/// An iterator over the lines of a text, in order. Contracts see it as the list of the lines that are left.
#[derive(Drop)]
pub struct LineIter<'a> {
    text: &'a [u8],
    at: usize,
}

impl<'a> Model for LineIter<'a> {
    ghost use Rattle.std.specs.Prelude.{List, drop, length, ◌≤◌};
    ghost use Rattle.sk_text.specs.Lines.{PlacedLine, placed_from, whole_lines};

    ghost Value = { List PlacedLine };

    ghost view = { λ s. placed_from s.at (whole_lines (drop s.at s.text.now)) };

    ghost invariant = { λ s. s.at ≤ length s.text.now };
}

// The length of a line's end.
#[tactic(auto, unfolding(crate::specs::Lines::end_len))]
fn end_of(line: &[u8]) -> usize
    ensures value { result ≡ end_len line.now }
    ensures within { result ≤ length line.now }
{
    match line {
        [.., b'\r', b'\n'] => 2,
        [.., b'\n'] => 1,
        _ => 0,
    }
}

// The length of the first line, with its end.
fn first_len(rest: &[u8]) -> usize
    requires { 0 < length rest.now }
    ensures within { result ≤ length rest.now }
    ensures moves { 0 < result }
    ensures first { whole_lines rest.now ≡ take result rest.now ∷ whole_lines (drop result rest.now) }
{
    match memchr(b'\n', rest) {
        Some(i) => i + 1,
        None => rest.len(),
    }
}

impl<'a> Iterator for LineIter<'a> {
    type Item = Line<'a>;

    ghost use Rattle.std.specs.Iterator.{YieldsFirstBy, item_count};
    ghost use Rattle.sk_text.specs.Lent.{placed_line};

    ghost next_gives = { YieldsFirstBy placed_line (λ s. s) };

    ghost remaining = { item_count (λ s. s) };

    fn next(&mut self) -> Option<Line<'a>> {
        let at = self.at;
        let rest = &self.text[at..];
        if rest.is_empty() {
            return None;
        }
        let len = first_len(rest);
        let line = &rest[..len];
        let (body, end) = line.split_at(len - end_of(line));
        self.at = at + len;
        Some(Line { at, body, end })
    }
}

/// The lines of a text, in order. The empty text has none.
///
/// Bodies and ends joined are the text, and each line stands at its place in it.
pub fn lines(text: &[u8]) -> LineIter<'_>
    ensures lines { result ≡ lines_of text.now }
    ensures whole { joined (map line_at result) ≡ text.now }
    ensures parts { All (IsPart text.now) result }
    // Each line but the last has an end, and no body holds a line feed.
    ensures ends { AreLines (map line_at result) }
    ensures unplaced { map line_at result ≡ lines_in text.now }
    ensures few { length result ≤ length text.now }
{
    LineIter { text, at: 0 }
}
