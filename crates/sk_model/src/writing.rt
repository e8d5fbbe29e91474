// The lines that changes write.

ghost use Rattle.std.specs.Prelude.{◌≡◌, ◌++◌, ◌∷◌, [], OnOk, IfOk, Ok};
ghost use Rattle.std.specs.Fmt.{decimal};
ghost use Rattle.sk_num.specs.Scale.{IsScale};
ghost use Rattle.sk_num.specs.Spelling.{quantity_of, quantity_text};
ghost use Rattle.sk_text.specs.Lines.{line_bytes};
ghost use Rattle.sk_records.specs.Blocks.{with_tails};
ghost use Rattle.sk_records.specs.Written.{bytes_of};
ghost use Rattle.sk_model.specs.Changes.{fed_line, entry_text, param_record};
ghost use Rattle.sk_model.specs.WrittenLines.{pair_bytes, IsEntryText, IsListText};

use crate::NoMemory;
use crate::keys::Key;
use itoa::Buffer;
use sk_num::{Grid, handle_text, quantity_text};
use sk_types::RemapEntry;
use std::alloc::Global;

/// Appends a line `key=value`.
pub(crate) fn push_value(out: &mut Vec<u8>, key: &[u8], value: &[u8]) -> Result<(), NoMemory>
    ensures { OnOk result (out.new.items ≡ out.old.items ++ pair_bytes ((key.now, value.now) ∷ [])) }
{
    out.extend_from_slice(key)?;
    out.push(b'=')?;
    out.extend_from_slice(value)?;
    out.push(b'\n')?;
    Ok(())
}

/// Appends the record that is added for a parameter, and its tail.
pub(crate) fn push_param<const S: u32>(
    out: &mut Vec<u8>,
    id: u32,
    value: Grid<S>,
) -> Result<(), NoMemory>
    requires { IsScale S }
    ensures lines { OnOk result (out.new.items ≡ out.old.items ++ bytes_of (with_tails (param_record S id value.entry ∷ []))) }
    ensures reads { OnOk result (quantity_of S (quantity_text S value.entry) ≡ Ok value.entry) }
{
    push_value(out, Key::ParamHandle.bytes(), &handle_text(id))?;
    let text = quantity_text(value);
    push_value(
        out,
        Key::ParamValue.bytes(),
        &text.bytes[..usize::from(text.len)],
    )?;
    out.extend_from_slice(b"AddParam\n\n")?;
    Ok(())
}

// Appends a number in decimal.
fn push_decimal(out: &mut Vec<u8>, n: u16) -> Result<(), NoMemory>
    ensures { OnOk result (out.new.items ≡ out.old.items ++ decimal n) }
{
    out.extend_from_slice(Buffer::new().format(n).as_bytes())?;
    Ok(())
}

// Appends the line of an entry: its number, the entity that is copied, and which copy of it.
fn push_entry(out: &mut Vec<u8>, number: u16, source: u32, copy: u16) -> Result<(), NoMemory>
    ensures line { OnOk result (out.new.items ≡ out.old.items ++ line_bytes (fed_line (entry_text (record { number = number; source = record { 0 = source }; copy = copy })))) }
    ensures form { OnOk result (IsEntryText (record { number = number; source = record { 0 = source }; copy = copy })) }
{
    out.extend_from_slice(b"    ")?;
    push_decimal(out, number)?;
    out.push(b' ')?;
    out.extend_from_slice(&handle_text(source))?;
    out.push(b' ')?;
    push_decimal(out, copy)?;
    out.push(b'\n')?;
    Ok(())
}

/// A remap list, whole.
pub(crate) fn list_text(alloc: Global, list: &[RemapEntry]) -> Result<Vec<u8>, NoMemory>
    ensures { IfOk result (λ lines. IsListText list.now lines.items) }
{
    let mut lines = Vec::from_slice(alloc, b"Group.remap={\n")?;
    for entry in list {
        push_entry(&mut lines, entry.number, entry.source.0, entry.copy)?;
    }
    lines.extend_from_slice(b"}\n")?;
    Ok(lines)
}
