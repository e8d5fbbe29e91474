// Groups in their order.

ghost use Rattle.std.specs.Prelude.{◌≡◌, ◌==◌, IfOk, not, length, map, nat_eq};
ghost use Rattle.std.specs.List.{IsDistinct};
ghost use Rattle.sk_chain.specs.Order.{group_order};
ghost use Rattle.sk_chain.specs.Known.{AreGroups, place_handle};

use crate::NoMemory;
use sk_types::{Group, GroupId};
use std::alloc::Global;
use std::collections::BTreeSet;

// What groups are ordered by: group 1 first, then the order, then the handle.
fn rank<const S: u32>(group: &Group<S>) -> (bool, i32, u32)
    ensures { result ≡ (not (group.now.id.0 == 1), group.now.order, group.now.id.0) }
{
    (group.id.0 != 1, group.order, group.id.0)
}

/// The handles of groups in their order.
pub(crate) fn order_of<const S: u32>(
    alloc: Global,
    groups: &[Group<S>],
) -> Result<Vec<GroupId>, NoMemory>
    requires { AreGroups groups.now }
    ensures order { IfOk result (λ v. v.items ≡ group_order groups.now) }
    ensures distinct { IfOk result (λ v. IsDistinct nat_eq (map place_handle v.items)) }
    ensures length { IfOk result (λ v. length v.items ≡ length groups.now) }
{
    let mut ranks = BTreeSet::new(alloc);
    for group in groups {
        ranks.insert(rank(group))?;
    }
    let mut order = Vec::new(alloc);
    for (_, _, id) in ranks.iter() {
        order.push(GroupId(*id))?;
    }
    Ok(order)
}
