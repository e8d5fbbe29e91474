// Entities in rising handle order.

ghost use Rattle.std.specs.Prelude.{◌≡◌, OnOk};
ghost use Rattle.sk_copy.specs.Order.{by_handle};

use crate::NoMemory;
use sk_types::Entity;

/// Puts entities in rising handle order.
pub(crate) fn put_in_order<const S: u32>(entities: &mut Vec<Entity<S>>) -> Result<(), NoMemory>
    ensures { OnOk result (entities.new.items ≡ by_handle entities.old.items) }
{
    let handle = |entity: &Entity<S>| -> u32
        ensures { result ≡ entity.now.id.0 }
    { entity.id.0 };
    entities.sort_by_key(handle)
}
