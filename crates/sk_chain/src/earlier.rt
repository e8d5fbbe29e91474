// What groups name of groups that are made.

ghost use Rattle.std.specs.Prelude.{◌≡◌, ◌==◌};
ghost use Rattle.std.specs.List.{find};
ghost use Rattle.std.specs.Option.{option_map};
ghost use Rattle.sk_types.specs.Handles.{maker_of};
ghost use Rattle.sk_chain.specs.Made.{earlier_fault, group_by, lines_fault, moved_fault, names_fault, plane_fault, source_fault, unmade_fault};
ghost use Rattle.sk_chain.specs.Known.{AllRise};

use crate::lookups::group_at;
use crate::made::{Made, is_made, kind_in};
use sk_model::ModelFault;
use sk_types::{EntityId, Group, GroupId, GroupKind, Maker, PartKind, Request, RequestId};

// The group of a request.
fn group_of_request(requests: &[Request], id: RequestId) -> Option<GroupId>
    ensures { result ≡ option_map (λ q. q.group) (find (λ q. id.0 == q.id.0) requests.now) }
{
    for request in requests {
        if id.0 == request.id.0 {
            return Some(request.group);
        }
    }
    None
}

// The group that an entity would belong to: its maker's, if that is there.
fn group_by<const S: u32>(
    requests: &[Request],
    groups: &[Group<S>],
    target: EntityId,
) -> Option<GroupId>
    ensures { result ≡ group_by requests.now groups.now (maker_of target.0) }
{
    match target.maker() {
        Maker::OfRequest(request, _) => group_of_request(requests, request),
        Maker::OfGroup(group, _) => match group_at(groups, group) {
            Some(found) => Some(found.id),
            None => None,
        },
    }
}

// Why an entity isn't made: its group is to come, or there is no such entity.
fn unmade_fault<const S: u32>(
    requests: &[Request],
    groups: &[Group<S>],
    made: &[Made<S>],
    group: GroupId,
    target: EntityId,
) -> ModelFault
    ensures { result ≡ unmade_fault made.now group target (group_by requests.now groups.now (maker_of target.0)) }
{
    match group_by(requests, groups, target) {
        Some(by) => if is_made(made, by) {
            ModelFault::NoSuch(group.0, target.0)
        } else {
            ModelFault::Ahead(group.0, target.0)
        },
        None => ModelFault::NoSuch(group.0, target.0),
    }
}

// Why a group is refused for an entity that it names, if it is.
fn earlier_fault<const S: u32>(
    requests: &[Request],
    groups: &[Group<S>],
    made: &[Made<S>],
    group: &Group<S>,
    target: EntityId,
    part: PartKind,
) -> Option<ModelFault>
    requires { AllRise made.now }
    ensures { result ≡ earlier_fault requests.now groups.now made.now group.now target part }
{
    let Some(kind) = kind_in(made, target) else {
        return Some(unmade_fault(requests, groups, made, group.id, target));
    };
    if !part.takes(kind) {
        return Some(ModelFault::BadValue(group.id.0));
    }
    None
}

// Why a group is refused for its source, if it is.
fn source_fault<const S: u32>(
    groups: &[Group<S>],
    made: &[Made<S>],
    group: &Group<S>,
) -> Option<ModelFault>
    ensures { result ≡ source_fault groups.now made.now group.now }
{
    if is_made(made, group.source) {
        return None;
    }
    match group_at(groups, group.source) {
        Some(_) => Some(ModelFault::Ahead(group.id.0, group.source.0)),
        None => Some(ModelFault::NoSuch(group.id.0, group.source.0)),
    }
}

// Why an extrusion or a translation is refused for its source or its workplane, if it is.
fn moved_fault<const S: u32>(
    requests: &[Request],
    groups: &[Group<S>],
    made: &[Made<S>],
    group: &Group<S>,
) -> Option<ModelFault>
    requires { AllRise made.now }
    ensures { result ≡ moved_fault requests.now groups.now made.now group.now }
{
    if let Some(fault) = source_fault(groups, made, group) {
        return Some(fault);
    }
    if group.entity_b.0 == 0 {
        return None;
    }
    earlier_fault(
        requests,
        groups,
        made,
        group,
        group.entity_b,
        PartKind::Workplane,
    )
}

// Why a drawing is refused for the two lines that give its frame, if it is.
fn lines_fault<const S: u32>(
    requests: &[Request],
    groups: &[Group<S>],
    made: &[Made<S>],
    group: &Group<S>,
) -> Option<ModelFault>
    requires { AllRise made.now }
    ensures { result ≡ lines_fault requests.now groups.now made.now group.now }
{
    let line = PartKind::Line;
    if let Some(fault) = earlier_fault(requests, groups, made, group, group.entity_b, line) {
        return Some(fault);
    }
    earlier_fault(requests, groups, made, group, group.entity_c, line)
}

// Why a drawing in a workplane is refused for its origin or its lines, if it is.
fn plane_fault<const S: u32>(
    requests: &[Request],
    groups: &[Group<S>],
    made: &[Made<S>],
    group: &Group<S>,
) -> Option<ModelFault>
    requires { AllRise made.now }
    ensures { result ≡ plane_fault requests.now groups.now made.now group.now }
{
    let point = PartKind::Point;
    if let Some(fault) = earlier_fault(requests, groups, made, group, group.origin, point) {
        return Some(fault);
    }
    if !group.by_lines {
        return None;
    }
    lines_fault(requests, groups, made, group)
}

/// Why a group is refused for what it names, if it is: things of groups that are made.
#[tactic(auto, unfolding(crate::specs::Made::names_fault))]
pub(crate) fn names_fault<const S: u32>(
    requests: &[Request],
    groups: &[Group<S>],
    made: &[Made<S>],
    group: &Group<S>,
) -> Option<ModelFault>
    requires { AllRise made.now }
    ensures { result ≡ names_fault requests.now groups.now made.now group.now }
{
    match group.kind {
        GroupKind::Space | GroupKind::Linked => None,
        GroupKind::Plane => plane_fault(requests, groups, made, group),
        GroupKind::Extrude | GroupKind::Translate => moved_fault(requests, groups, made, group),
    }
}
