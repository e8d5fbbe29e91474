// What a line is.
ghost use Rattle.std.specs.Prelude.{◌≡◌};
ghost use Rattle.sk_records.specs.Classes.{class_of, closed_kind, value_kind, is_surface, is_value, starts, is_header, is_opening, is_shut, is_entry, after_run, after_part};
ghost use Rattle.sk_records.specs.Holding.Parts.{part_test};
ghost use Rattle.std.specs.Option.{option_copied};

use crate::kinds::Kind;

/// What a line outside of a remap list is. No call takes or gives it: contracts name it.
#[derive(Clone, Copy)]
pub enum LineClass {
    /// An empty line.
    Empty,
    /// A value line of a kind.
    Value(Kind),
    /// The line that opens a remap list.
    Opens,
    /// The line that closes a record.
    Closes(Kind),
    /// A stored surface line, which nothing reads.
    Surface,
    /// Any other line.
    Unknown,
}

/// Whether a line is the header, without which nothing is read.
pub(crate) fn is_header(body: &[u8]) -> bool
    ensures { result ≡ is_header body.now }
{
    body == b"\xB1\xB2\xB3SolveSpaceREVa".as_slice()
}

/// Whether a line opens a remap list.
pub(crate) fn is_opening(body: &[u8]) -> bool
    ensures { result ≡ is_opening body.now }
{
    body == b"Group.remap={".as_slice()
}

/// Whether a line shuts a remap list.
pub(crate) fn is_shut(body: &[u8]) -> bool
    ensures { result ≡ is_shut body.now }
{
    body == b"}".as_slice()
}

fn is_value(body: &[u8], prefix: &[u8]) -> bool
    ensures { result ≡ is_value prefix.now body.now }
{
    match body.strip_prefix(prefix) {
        Some(rest) => rest.contains(&b'='),
        None => false,
    }
}

fn starts(body: &[u8], word: &[u8]) -> bool
    ensures { result ≡ starts word.now body.now }
{
    body.strip_prefix(word).is_some()
}

// The kind whose record a line closes.
#[tactic(auto, unfolding(crate::specs::Classes::closed_kind))]
fn closed_kind(body: &[u8]) -> Option<Kind>
    ensures { result ≡ closed_kind body.now }
{
    if body == b"AddGroup".as_slice() {
        return Some(Kind::Group);
    }
    if body == b"AddParam".as_slice() {
        return Some(Kind::Param);
    }
    if body == b"AddRequest".as_slice() {
        return Some(Kind::Request);
    }
    if body == b"AddEntity".as_slice() {
        return Some(Kind::Entity);
    }
    if body == b"AddConstraint".as_slice() {
        return Some(Kind::Constraint);
    }
    if body == b"AddStyle".as_slice() {
        return Some(Kind::Style);
    }
    None
}

// The kind of a value line.
#[tactic(auto, unfolding(crate::specs::Classes::value_kind))]
fn value_kind(body: &[u8]) -> Option<Kind>
    ensures { result ≡ value_kind body.now }
{
    if is_value(body, b"Group.") {
        return Some(Kind::Group);
    }
    if is_value(body, b"Param.") {
        return Some(Kind::Param);
    }
    if is_value(body, b"Request.") {
        return Some(Kind::Request);
    }
    if is_value(body, b"Entity.") {
        return Some(Kind::Entity);
    }
    if is_value(body, b"Constraint.") {
        return Some(Kind::Constraint);
    }
    if is_value(body, b"Style.") {
        return Some(Kind::Style);
    }
    None
}

// Whether a line is a stored surface line.
#[tactic(auto, unfolding(crate::specs::Classes::is_surface))]
fn is_surface(body: &[u8]) -> bool
    ensures { result ≡ is_surface body.now }
{
    if starts(body, b"Triangle ") {
        return true;
    }
    if starts(body, b"Surface ") {
        return true;
    }
    if starts(body, b"SCtrl ") {
        return true;
    }
    if starts(body, b"TrimBy ") {
        return true;
    }
    if starts(body, b"Curve ") {
        return true;
    }
    if starts(body, b"CCtrl ") {
        return true;
    }
    if starts(body, b"CurvePt ") {
        return true;
    }
    if body == b"AddSurface".as_slice() {
        return true;
    }
    body == b"AddCurve".as_slice()
}

/// What a line outside of a remap list is.
#[tactic(auto, unfolding(crate::specs::Classes::class_of))]
pub(crate) fn class_of(body: &[u8]) -> LineClass
    ensures { result ≡ class_of body.now }
{
    if body.is_empty() {
        return LineClass::Empty;
    }
    if is_opening(body) {
        return LineClass::Opens;
    }
    if let Some(kind) = closed_kind(body) {
        return LineClass::Closes(kind);
    }
    if let Some(kind) = value_kind(body) {
        return LineClass::Value(kind);
    }
    if is_surface(body) {
        return LineClass::Surface;
    }
    LineClass::Unknown
}

// A part of a remap list's entry.
#[derive(Clone, Copy)]
enum Part {
    Spaces,
    Digits,
    HexDigits,
}

// Whether a byte may stand in a part.
fn has_byte(part: Part, byte: u8) -> bool
    ensures { result ≡ part_test part byte }
{
    match part {
        Part::Spaces => byte == b' ',
        Part::Digits => matches!(byte, b'0'..=b'9'),
        Part::HexDigits => matches!(byte, b'0'..=b'9' | b'a'..=b'f' | b'A'..=b'F'),
    }
}

// What is left behind the bytes of a part at the front.
fn after_run(part: Part, body: &[u8]) -> &[u8]
    ensures { result.now ≡ after_run (part_test part) body.now }
{
    for (i, byte) in body.iter().enumerate() {
        if !has_byte(part, *byte) {
            return &body[i..];
        }
    }
    &[]
}

// The same, where at least one byte is of the part.
fn after_part(part: Part, body: &[u8]) -> Option<&[u8]>
    ensures { option_copied result ≡ after_part (part_test part) body.now }
{
    match body {
        [first, rest @ ..] if has_byte(part, *first) => Some(after_run(part, rest)),
        _ => None,
    }
}

/// Whether a line is an entry of a remap list.
#[tactic(auto, unfolding(crate::specs::Classes::is_entry))]
pub(crate) fn is_entry(body: &[u8]) -> bool
    ensures { result ≡ is_entry body.now }
{
    let Some(rest) = after_part(Part::Spaces, body) else {
        return false;
    };
    let Some(rest) = after_part(Part::Digits, rest) else {
        return false;
    };
    let Some(rest) = after_part(Part::Spaces, rest) else {
        return false;
    };
    let Some(rest) = after_part(Part::HexDigits, rest) else {
        return false;
    };
    let Some(rest) = after_part(Part::Spaces, rest) else {
        return false;
    };
    let Some(rest) = after_part(Part::Digits, rest) else {
        return false;
    };
    rest.is_empty()
}
