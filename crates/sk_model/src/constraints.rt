// Constraints.

ghost use Rattle.std.specs.Prelude.{◌≡◌, IfOk, false};
ghost use Rattle.sk_num.specs.Scale.{IsScale};
ghost use Rattle.sk_records.specs.declared.kinds.Kind.TheVariants as record_kind;
ghost use Rattle.sk_model.specs.Chain.{seen_in};
ghost use Rattle.sk_model.specs.Constraints.{constraint_of, has_bad_value};

use crate::faults::{ModelFault, Reason};
use crate::fields::Fields;
use crate::keys::Key;
use indexmap::IndexSet;
use sk_num::Grid;
use sk_types::{
    Constraint, ConstraintId, EntityId, GroupId, Standing, constraint_kind as kind,
    constraint_standing,
};

/// A constraint, over the handles of earlier ones, or its first fault.
#[tactic(auto, unfolding(crate::specs::Constraints::constraint_of))]
pub(crate) fn constraint_of<const S: u32>(
    seen: &IndexSet<u32>,
    fields: &Fields<'_>,
) -> Result<Constraint<S>, ModelFault>
    requires scale { IsScale S }
    requires kind { fields.now.kind ≡ record_kind.Constraint }
    ensures value { result ≡ constraint_of S seen.now.keys fields.now.rows }
    ensures new { IfOk result (λ x. seen_in x.id.0 seen.now.keys ≡ false) }
{
    let id = fields.handle(Key::ConstraintHandle)?;
    let kind = fields.whole(Key::ConstraintType)?;
    let group = fields.handle(Key::ConstraintGroup)?;
    let workplane = fields.handle(Key::ConstraintWorkplane)?;
    let value = fields.quantity(Key::ConstraintValue, Grid::zero())?;
    let p = fields.handle(Key::ConstraintPointA)?;
    let q = fields.handle(Key::ConstraintPointB)?;
    let a = fields.handle(Key::ConstraintEntityA)?;
    let b = fields.handle(Key::ConstraintEntityB)?;
    let c = fields.handle(Key::ConstraintEntityC)?;
    let d = fields.handle(Key::ConstraintEntityD)?;
    let other = fields.flag(Key::ConstraintOther)?;
    let other2 = fields.flag(Key::ConstraintOther2)?;
    let reference = fields.flag(Key::ConstraintReference)?;
    if id == 0 || id > 65535 {
        return Err(ModelFault::BadValue(id));
    }
    if seen.contains(&id) {
        return Err(ModelFault::DuplicateHandle(id));
    }
    match constraint_standing(kind) {
        Standing::Accepted => {}
        Standing::LeftOut => return Err(ModelFault::LeftOut(id, Reason::Constraint)),
        Standing::Unknown => return Err(ModelFault::UnknownKind(id, kind)),
    }
    let number = kind.unsigned_abs() as u16;
    if has_bad_value(number, value, workplane) {
        return Err(ModelFault::BadValue(id));
    }
    Ok(Constraint {
        id: ConstraintId(id),
        kind: number,
        group: GroupId(group),
        workplane: EntityId(workplane),
        value,
        points: [EntityId(p), EntityId(q)],
        entities: [EntityId(a), EntityId(b), EntityId(c), EntityId(d)],
        other,
        other2,
        reference,
    })
}

// Whether a constraint's dimension or workplane is refused.
#[tactic(auto, unfolding(crate::specs::Constraints::has_bad_value))]
fn has_bad_value<const S: u32>(number: u16, value: Grid<S>, workplane: u32) -> bool
    requires { IsScale S }
    ensures { result ≡ has_bad_value S number value.entry workplane }
{
    match number {
        kind::POINT_POINT_DISTANCE | kind::LENGTH_RATIO | kind::DIAMETER => value.units() < 0,
        kind::ANGLE => {
            let most = 360 * u128::from(Grid::<S>::one().units().unsigned_abs());
            u128::from(value.units().unsigned_abs()) > most
        }
        kind::SYMMETRIC_HORIZONTAL | kind::SYMMETRIC_VERTICAL | kind::SYMMETRIC_LINE => workplane
            == 0,
        kind::HORIZONTAL | kind::VERTICAL | kind::CURVE_CURVE_TANGENT => workplane == 0,
        _ => false,
    }
}
