// The values of an entity's record.

ghost use Rattle.std.specs.Prelude.{◌≡◌};
ghost use Rattle.sk_num.specs.Scale.{IsScale};
ghost use Rattle.sk_link.specs.Stored.{entity_keys};

use crate::fault::Refusal;
use crate::fields::Fields;
use crate::keys::Key;
use sk_num::Grid;
use sk_types::EntityId;

/// The values of an entity's record that are read.
#[derive(Drop)]
pub(crate) struct EntityKeys<const S: u32> {
    pub(crate) id: u32,
    pub(crate) kind: i32,
    pub(crate) construction: bool,
    /// The points that it names.
    pub(crate) points: [EntityId; 3],
    pub(crate) normal: u32,
    pub(crate) distance: u32,
    /// Where a point stands: x, y, z, and 0.
    pub(crate) place: [Grid<S>; 4],
    /// How a normal is turned: w, x, y, z.
    pub(crate) turn: [Grid<S>; 4],
    /// How long a distance is, and 0 three times.
    pub(crate) length: [Grid<S>; 4],
}

impl<const S: u32> EntityKeys<S> {
    /// Reads the values in the order of the keys, to the first that doesn't read.
    #[tactic(auto, unfolding(crate::specs::Stored::entity_keys))]
    pub(crate) fn read(fields: &Fields<'_>) -> Result<EntityKeys<S>, Refusal>
        requires { IsScale S }
        ensures { result ≡ entity_keys S fields.now }
    {
        let zero = Grid::zero();
        let id = fields.handle(Key::Handle)?;
        let kind = fields.whole(Key::Number)?;
        let construction = fields.flag(Key::Construction)?;
        let first = fields.handle(Key::FirstPoint)?;
        let second = fields.handle(Key::SecondPoint)?;
        let third = fields.handle(Key::ThirdPoint)?;
        let normal = fields.handle(Key::Normal)?;
        let distance = fields.handle(Key::Distance)?;
        let x = fields.quantity(Key::PlaceX)?;
        let y = fields.quantity(Key::PlaceY)?;
        let z = fields.quantity(Key::PlaceZ)?;
        let w = fields.quantity(Key::TurnW)?;
        let vx = fields.quantity(Key::TurnX)?;
        let vy = fields.quantity(Key::TurnY)?;
        let vz = fields.quantity(Key::TurnZ)?;
        let length = fields.quantity(Key::Length)?;
        Ok(EntityKeys {
            id,
            kind,
            construction,
            points: [EntityId(first), EntityId(second), EntityId(third)],
            normal,
            distance,
            place: [x, y, z, zero],
            turn: [w, vx, vy, vz],
            length: [length, zero, zero, zero],
        })
    }
}
