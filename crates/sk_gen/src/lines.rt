// The lines of records.
ghost use Rattle.std.specs.Prelude.{◌≡◌, ◌++◌, ◌≤◌, OnOk, codes};
ghost use Rattle.sk_gen.specs.Lines.{handle_line, whole_line, quantity_line, close};

use crate::NoMemory;
use itoa::Buffer;
use sk_num::{Grid, handle_text, quantity_text};

/// Puts a key with a handle.
#[tactic(auto, unfolding(crate::specs::Lines::handle_line))]
pub(crate) fn put_handle(out: &mut Vec<u8>, key: &str, handle: u32) -> Result<(), NoMemory>
    ensures { OnOk result (out.new.items ≡ out.old.items ++ handle_line key.now handle) }
{
    out.extend_from_slice(key.as_bytes())?;
    out.push(b'=')?;
    out.extend_from_slice(&handle_text(handle))?;
    out.push(b'\n')?;
    Ok(())
}

/// Puts a key with a whole number.
#[tactic(auto, unfolding(crate::specs::Lines::whole_line))]
pub(crate) fn put_whole(out: &mut Vec<u8>, key: &str, number: u16) -> Result<(), NoMemory>
    ensures { OnOk result (out.new.items ≡ out.old.items ++ whole_line key.now number) }
{
    out.extend_from_slice(key.as_bytes())?;
    out.push(b'=')?;
    out.extend_from_slice(Buffer::new().format(number).as_bytes())?;
    out.push(b'\n')?;
    Ok(())
}

/// Puts a key with a quantity, which is a whole number.
#[tactic(auto, using(sk_num::specs::Scale::scale_facts), unfolding(crate::specs::Lines::quantity_line))]
pub(crate) fn put_quantity(out: &mut Vec<u8>, key: &str, number: u16) -> Result<(), NoMemory>
    requires { number ≤ 1000 }
    ensures { OnOk result (out.new.items ≡ out.old.items ++ quantity_line key.now number) }
{
    let text = quantity_text(Grid::<36>::whole(number as i16));
    out.extend_from_slice(key.as_bytes())?;
    out.push(b'=')?;
    out.extend_from_slice(&text.bytes[..usize::from(text.len)])?;
    out.push(b'\n')?;
    Ok(())
}

/// Puts the line that closes a record, and the empty line behind it.
#[tactic(auto, unfolding(crate::specs::Lines::close))]
pub(crate) fn put_close(out: &mut Vec<u8>, word: &str) -> Result<(), NoMemory>
    ensures { OnOk result (out.new.items ≡ out.old.items ++ close word.now) }
{
    out.extend_from_slice(word.as_bytes())?;
    out.extend_from_slice(b"\n\n")?;
    Ok(())
}
