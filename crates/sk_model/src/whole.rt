// What holds of all records together.

ghost use Rattle.std.specs.Prelude.{◌≡◌};
ghost use Rattle.sk_model.specs.Typed.{whole_fault, missing_of, stray_request, stray_constraint, count_linked, is_first_group, is_reference};
ghost use Rattle.std.specs.List.{list_any};

use crate::faults::{ModelFault, Reason, What};
use sk_types::{Constraint, Group, GroupKind, Request, request_kind};

// The most groups, and the most that are linked.
const GROUPS: usize = 1000;

const LINKS: usize = 16;

/// The first fault of all records together: the reference group and workplanes, what else stands in
/// group 1, then the counts.
#[tactic(auto, unfolding(crate::specs::Typed::whole_fault))]
pub(crate) fn whole_fault<const S: u32>(
    groups: &[Group<S>],
    requests: &[Request],
    constraints: &[Constraint<S>],
) -> Option<ModelFault>
    ensures { result ≡ whole_fault S groups.now requests.now constraints.now }
{
    if !has_first_group(groups) {
        return Some(ModelFault::NoSuch(1, 1));
    }
    if let Some(number) = missing_of(&[1, 2, 3], requests) {
        return Some(ModelFault::NoSuch(1, number));
    }
    if let Some(fault) = stray_request(requests) {
        return Some(fault);
    }
    if let Some(fault) = stray_constraint(constraints) {
        return Some(fault);
    }
    if groups.len() > GROUPS {
        return Some(ModelFault::TooMany(What::Groups));
    }
    if count_linked(groups) > LINKS {
        return Some(ModelFault::TooMany(What::Links));
    }
    None
}

// Whether group 1 stands and is a drawing in space.
fn has_first_group<const S: u32>(groups: &[Group<S>]) -> bool
    ensures { result ≡ list_any (λ g. is_first_group g) groups.now }
{
    for group in groups {
        if group.id.0 == 1 && matches!(group.kind, GroupKind::Space) {
            return true;
        }
    }
    false
}

// Whether a reference workplane has the number.
fn has_reference(requests: &[Request], number: u32) -> bool
    ensures { result ≡ list_any (is_reference number) requests.now }
{
    for request in requests {
        if request.id.0 == number
            && request.kind == request_kind::WORKPLANE
            && request.group.0 == 1
        {
            return true;
        }
    }
    false
}

// The first of the numbers that no reference workplane has.
fn missing_of(numbers: &[u32], requests: &[Request]) -> Option<u32>
    ensures { result ≡ missing_of numbers.now requests.now }
{
    for number in numbers {
        if !has_reference(requests, *number) {
            return Some(*number);
        }
    }
    None
}

// The first request in group 1 that isn't a reference.
fn stray_request(requests: &[Request]) -> Option<ModelFault>
    ensures { result ≡ stray_request requests.now }
{
    for request in requests {
        if request.group.0 == 1 && request.id.0 > 3 {
            return Some(ModelFault::LeftOut(request.id.0, Reason::References));
        }
    }
    None
}

// The first constraint in group 1.
fn stray_constraint<const S: u32>(constraints: &[Constraint<S>]) -> Option<ModelFault>
    ensures { result ≡ stray_constraint constraints.now }
{
    for constraint in constraints {
        if constraint.group.0 == 1 {
            return Some(ModelFault::LeftOut(constraint.id.0, Reason::References));
        }
    }
    None
}

// How many groups are linked.
fn count_linked<const S: u32>(groups: &[Group<S>]) -> usize
    ensures { result ≡ count_linked groups.now }
{
    let mut count = 0;
    for group in groups {
        if matches!(group.kind, GroupKind::Linked) {
            count += 1;
        }
    }
    count
}
