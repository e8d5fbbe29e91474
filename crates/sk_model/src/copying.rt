// Copies of a model's lists.

ghost use Rattle.std.specs.Prelude.{◌≡◌, IfOk};

use crate::NoMemory;
use sk_types::Group;
use std::alloc::Global;

/// Equal groups.
pub(crate) fn copy_groups<const S: u32>(
    alloc: Global,
    groups: &[Group<S>],
) -> Result<Vec<Group<S>>, NoMemory>
    ensures { IfOk result (λ v. v.items ≡ groups.now) }
{
    let mut copies = Vec::new(alloc);
    for group in groups {
        copies.push(group.copy(alloc)?)?;
    }
    Ok(copies)
}
