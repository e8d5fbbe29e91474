// The groups that are made so far.

ghost use Rattle.std.specs.Prelude.{◌≡◌, nat_lt, length, option_map};
ghost use Rattle.sk_types.specs.Lookups.{entity_at, Rise};
ghost use Rattle.sk_chain.specs.Made.{all_made, is_made, made_in};
ghost use Rattle.sk_chain.specs.Known.{AllRise};

use sk_num::Items;
use sk_types::{Entity, EntityId, GroupId, RemapEntry, entity_at};

// The most entities of all groups.
const ENTITIES: usize = 200_000;

/// What a group makes: its remap list, extended, and its entities by rising handle.
#[derive(Drop)]
pub(crate) struct Made<const S: u32> {
    pub(crate) group: GroupId,
    pub(crate) list: Items<RemapEntry>,
    pub(crate) entities: Items<Entity<S>>,
}

/// Whether a group is one of those that are made.
pub(crate) fn is_made<const S: u32>(made: &[Made<S>], group: GroupId) -> bool
    ensures { result ≡ is_made group.0 made.now }
{
    for one in made {
        if group.0 == one.group.0 {
            return true;
        }
    }
    false
}

/// The entities of a group that is made; none of any other group.
#[tactic(auto, using(crate::proofs::Folds::made_in_rises))]
pub(crate) fn made_in<const S: u32>(made: &[Made<S>], group: GroupId) -> &[Entity<S>]
    requires { AllRise made.now }
    ensures entities { result.now ≡ made_in group.0 made.now }
    ensures rise { Rise result.now }
{
    for one in made {
        if group.0 == one.group.0 {
            return one.entities.as_slice();
        }
    }
    &[]
}

/// The kind of an entity that is made; None where it isn't.
pub(crate) fn kind_in<const S: u32>(made: &[Made<S>], id: EntityId) -> Option<u16>
    requires { AllRise made.now }
    ensures { result ≡ option_map (λ e. e.kind) (entity_at id.0 (all_made made.now)) }
{
    for one in made {
        match entity_at(one.entities.as_slice(), id) {
            Some(entity) => return Some(entity.kind),
            None => {}
        }
    }
    None
}

/// Whether these groups have more than 200,000 entities.
pub(crate) fn are_many<const S: u32>(made: &[Made<S>]) -> bool
    ensures { result ≡ nat_lt 200000 (length (all_made made.now)) }
{
    let mut count = 0;
    for one in made {
        let more = one.entities.as_slice().len();
        if more > ENTITIES - count {
            return true;
        }
        count += more;
    }
    false
}
