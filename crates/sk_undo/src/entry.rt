ghost use Rattle.std.specs.Prelude.{◌≡◌, ◌≤◌, ◌+◌, ◌-◌, List, ℕ, length, IfOk};
ghost use Rattle.sk_undo.specs.Changes.{entry_between, earlier_text, later_text, between, replaced};

use crate::NoMemory;
use crate::agreed::{back_of, front_of};
use sk_num::Items;
use sk_types::GroupId;
use std::alloc::Global;

/// A change of a text, as the stretch that it changed.
#[derive(Debug, Drop)]
pub struct Entry {
    /// The groups that the change regenerated.
    pub dirty: Items<GroupId>,
    /// The greatest number of bytes in which both texts agree from their start.
    pub front: usize,
    /// The greatest number of bytes in which they agree from their end, behind the front of each.
    pub back: usize,
    /// What the earlier text has between them.
    pub earlier: Items<u8>,
    /// What the later text has between them.
    pub later: Items<u8>,
}

/// The bytes between so many at the front and so many at the back.
fn stretch(alloc: Global, text: &[u8], front: usize, back: usize) -> Result<Items<u8>, NoMemory>
    requires { front + back ≤ length text.now }
    ensures { IfOk result (λ bytes. bytes ≡ between front back text.now) }
{
    let bytes = Vec::from_slice(alloc, &text[front..text.len() - back])?;
    Ok(Items::of(bytes))
}

/// A text with another stretch between its front and its back. A front or back that is longer than the text is the whole.
fn with_stretch(
    alloc: Global,
    text: &[u8],
    front: usize,
    back: usize,
    middle: &[u8],
) -> Result<Vec<u8>, NoMemory>
    ensures { IfOk result (λ made. made.items ≡ replaced front back middle.now text.now) }
{
    let mut made = Vec::new(alloc);
    made.extend_from_slice(&text[..front.min(text.len())])?;
    made.extend_from_slice(middle)?;
    made.extend_from_slice(&text[text.len().saturating_sub(back)..])?;
    Ok(made)
}

impl Entry {
    /// The change from one text to another.
    pub fn between(
        alloc: Global,
        dirty: &[GroupId],
        earlier: &[u8],
        later: &[u8],
    ) -> Result<Entry, NoMemory>
        ensures { IfOk result (λ e. e ≡ entry_between dirty.now earlier.now later.now) }
    {
        let front = front_of(earlier, later);
        let back = back_of(&earlier[front..], &later[front..]);
        Ok(Entry {
            dirty: Items::of(Vec::from_slice(alloc, dirty)?),
            front,
            back,
            earlier: stretch(alloc, earlier, front, back)?,
            later: stretch(alloc, later, front, back)?,
        })
    }

    /// The earlier text, from the later one.
    pub fn earlier_text(&self, alloc: Global, later: &[u8]) -> Result<Vec<u8>, NoMemory>
        ensures text { IfOk result (λ t. t.items ≡ earlier_text self.now later.now) }
        ensures earlier { IfOk result (λ t. (earlier : List ℕ) → self.now ≡ entry_between self.now.dirty earlier later.now → t.items ≡ earlier) }
    {
        with_stretch(alloc, later, self.front, self.back, self.earlier.as_slice())
    }

    /// The later text, from the earlier one.
    pub fn later_text(&self, alloc: Global, earlier: &[u8]) -> Result<Vec<u8>, NoMemory>
        ensures text { IfOk result (λ t. t.items ≡ later_text self.now earlier.now) }
        ensures later { IfOk result (λ t. (later : List ℕ) → self.now ≡ entry_between self.now.dirty earlier.now later → t.items ≡ later) }
    {
        with_stretch(alloc, earlier, self.front, self.back, self.later.as_slice())
    }
}
