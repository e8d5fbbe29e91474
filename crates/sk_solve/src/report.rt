// How the groups of a model come out.

ghost use Rattle.std.specs.Prelude.{◌≡◌, IfOk};

use crate::NoMemory;
use crate::result::GroupResult;
use sk_num::Items;
use sk_types::{GroupId, ParamId};
use std::alloc::Global;

/// How a group comes out.
#[derive(Debug, Drop)]
pub struct Listed<const S: u32> {
    /// The group.
    pub group: GroupId,
    /// Its own parameters that no constraint fixes, in rising handle order.
    pub params: Items<ParamId>,
    /// The verdict, the kept point with a number for each of these parameters, and the certificate.
    pub result: GroupResult<S>,
}

impl<const S: u32> Listed<S> {
    /// An equal member in memory of its own.
    pub fn copy(&self, alloc: Global) -> Result<Listed<S>, NoMemory>
        ensures { IfOk result (λ l. l ≡ self.now) }
    {
        Ok(Listed {
            group: self.group,
            params: self.params.copy(alloc)?,
            result: self.result.copy(alloc)?,
        })
    }
}

/// How the groups of a model come out: all but group 1, in group order.
#[derive(Debug, Drop)]
pub struct Report<const S: u32> {
    /// The groups.
    pub groups: Items<Listed<S>>,
}

fn copy_listed<const S: u32>(
    alloc: Global,
    groups: &[Listed<S>],
) -> Result<Vec<Listed<S>>, NoMemory>
    ensures { IfOk result (λ v. v.items ≡ groups.now) }
{
    let mut copies = Vec::new(alloc);
    for listed in groups {
        copies.push(listed.copy(alloc)?)?;
    }
    Ok(copies)
}

impl<const S: u32> Report<S> {
    /// An equal report in memory of its own.
    pub fn copy(&self, alloc: Global) -> Result<Report<S>, NoMemory>
        ensures { IfOk result (λ r. r ≡ self.now) }
    {
        Ok(Report {
            groups: Items::of(copy_listed(alloc, self.groups.as_slice())?),
        })
    }
}
