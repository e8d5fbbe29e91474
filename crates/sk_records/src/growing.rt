// Lines that calls put behind the held text.
ghost use Rattle.std.specs.Prelude.{◌≡◌, ◌≤◌, ◌+◌, ◌++◌, ◌∷◌, [], List, length, IfOk, OnOk, vec_len};
ghost use Rattle.sk_records.specs.Rows.{value_body};
ghost use Rattle.sk_records.specs.Holding.Held.{bytes_at, line_at, IsWithin, RowWithin};
ghost use Rattle.sk_records.specs.Holding.Marks.{mark_end};
ghost use Rattle.sk_records.specs.Holding.Grown.{IsGrown};

use crate::NoMemory;
use crate::rows::{LAST_PLACE, Row, Span};

// Puts `key=value` behind the text.
fn push_body(text: &mut Vec<u8>, key: &[u8], value: &[u8]) -> Result<(), NoMemory>
    ensures ok { OnOk result (text.new.items ≡ text.old.items ++ value_body key.now value.now) }
    ensures grown { IsGrown text.old.items text.new.items }
{
    text.extend_from_slice(key)?;
    text.push(b'=')?;
    text.extend_from_slice(value)
}

/// Puts the line `key=value` behind the text, with the end of a line that stands in it.
pub(crate) fn push_changed(
    text: &mut Vec<u8>,
    key: &[u8],
    value: &[u8],
    old: Row,
) -> Result<Span, NoMemory>
    requires within { RowWithin text.old.items old }
    ensures line { IfOk result (λ s. line_at text.new.items s ≡ record { body = value_body key.now value.now; ending = bytes_at text.old.items old.body_end (old.body_end + mark_end old.mark) }) }
    ensures within { IfOk result (IsWithin text.new.items) }
    ensures grown { IsGrown text.old.items text.new.items }
{
    let start = text.len();
    push_body(text, key, value)?;
    let body_end = text.len();
    text.extend_from_within(old.body_end as usize..old.end())?;
    let end = text.len();
    if end > LAST_PLACE {
        return Err(NoMemory);
    }
    Ok(Span {
        start: start as u32,
        body_end: body_end as u32,
        end: end as u32,
    })
}

/// Puts the line `key=value` behind the text, ended by a line feed.
pub(crate) fn push_added(text: &mut Vec<u8>, key: &[u8], value: &[u8]) -> Result<Span, NoMemory>
    ensures line { IfOk result (λ s. line_at text.new.items s ≡ record { body = value_body key.now value.now; ending = 10 ∷ [] }) }
    ensures within { IfOk result (IsWithin text.new.items) }
    ensures grown { IsGrown text.old.items text.new.items }
{
    let start = text.len();
    push_body(text, key, value)?;
    let body_end = text.len();
    text.push(b'\n')?;
    let end = text.len();
    if end > LAST_PLACE {
        return Err(NoMemory);
    }
    Ok(Span {
        start: start as u32,
        body_end: body_end as u32,
        end: end as u32,
    })
}
