// Requests.

ghost use Rattle.std.specs.Prelude.{◌≡◌, IfOk, false};
ghost use Rattle.sk_records.specs.declared.kinds.Kind.TheVariants as record_kind;
ghost use Rattle.sk_model.specs.Chain.{seen_in};
ghost use Rattle.sk_model.specs.Requests.{request_of};

use crate::faults::{ModelFault, Reason};
use crate::fields::Fields;
use crate::keys::Key;
use indexmap::IndexSet;
use sk_types::{EntityId, GroupId, Request, RequestId, Standing, request_kind, request_standing};

// A cubic has at most so many points beyond its four.
const MOST_EXTRA: i32 = 8;

/// A request, over the handles of earlier ones, or its first fault.
#[tactic(auto, unfolding(crate::specs::Requests::request_of))]
pub(crate) fn request_of(seen: &IndexSet<u32>, fields: &Fields<'_>) -> Result<Request, ModelFault>
    requires kind { fields.now.kind ≡ record_kind.Request }
    ensures value { result ≡ request_of seen.now.keys fields.now.rows }
    ensures new { IfOk result (λ x. seen_in x.id.0 seen.now.keys ≡ false) }
{
    let id = fields.handle(Key::RequestHandle)?;
    let kind = fields.whole(Key::RequestType)?;
    let workplane = fields.handle(Key::RequestWorkplane)?;
    let group = fields.handle(Key::RequestGroup)?;
    let construction = fields.flag(Key::RequestConstruction)?;
    let extra = fields.whole(Key::RequestExtraPoints)?;
    if id == 0 || id > 32767 {
        return Err(ModelFault::BadValue(id));
    }
    if seen.contains(&id) {
        return Err(ModelFault::DuplicateHandle(id));
    }
    match request_standing(kind) {
        Standing::Accepted => {}
        Standing::LeftOut => return Err(ModelFault::LeftOut(id, Reason::Request)),
        Standing::Unknown => return Err(ModelFault::UnknownKind(id, kind)),
    }
    if kind == i32::from(request_kind::ARC) && workplane == 0 {
        return Err(ModelFault::LeftOut(id, Reason::SpaceArc));
    }
    if kind == i32::from(request_kind::WORKPLANE) && workplane != 0 {
        return Err(ModelFault::LeftOut(id, Reason::NestedWorkplane));
    }
    if extra < 0 || extra > MOST_EXTRA {
        return Err(ModelFault::BadValue(id));
    }
    Ok(Request {
        id: RequestId(id),
        kind: kind.unsigned_abs() as u16,
        group: GroupId(group),
        workplane: EntityId(workplane),
        construction,
        extra: extra.unsigned_abs() as u8,
    })
}
