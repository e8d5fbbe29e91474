// Look-ups of groups by handle.

ghost use Rattle.std.specs.Prelude.{◌≡◌, IfOk, nat_eq, map};
ghost use Rattle.std.specs.List.{IsDistinct};
ghost use Rattle.std.specs.Option.{option_copied};
ghost use Rattle.sk_chain.specs.Lookups.{group_at, place_in};
ghost use Rattle.sk_chain.specs.Known.{place_handle};

use crate::NoMemory;
use indexmap::IndexSet;
use sk_types::{Group, GroupId};
use std::alloc::Global;

/// The groups with their places.
pub(crate) fn places_of(alloc: Global, order: &[GroupId]) -> Result<IndexSet<GroupId>, NoMemory>
    requires { IsDistinct nat_eq (map place_handle order.now) }
    ensures places { IfOk result (λ places. places.keys ≡ order.now) }
    ensures distinct { IfOk result (λ places. IsDistinct nat_eq (map place_handle places.keys)) }
{
    let mut places = IndexSet::new(alloc);
    for group in order {
        places.insert(*group)?;
    }
    Ok(places)
}

/// The place of a group, from 0; None where it isn't there.
pub(crate) fn place_in(places: &IndexSet<GroupId>, group: GroupId) -> Option<usize>
    ensures { result ≡ place_in group.0 places.now.keys }
{
    places.get_index_of(&group)
}

/// The group with a handle; None where there is none.
pub fn group_at<const S: u32>(groups: &[Group<S>], id: GroupId) -> Option<&Group<S>>
    ensures { option_copied result ≡ group_at id.0 groups.now }
{
    for group in groups {
        if id.0 == group.id.0 {
            return Some(group);
        }
    }
    None
}
