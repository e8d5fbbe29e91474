// The keys that are read.

ghost use Rattle.std.specs.Prelude.{◌≡◌, ℕ, List, map, IfOk};
ghost use Rattle.std.specs.Borrow.{Bor};
ghost use Rattle.sk_model.specs.Keys.{key_bytes, keys_of, key_spot};

use crate::NoMemory;
use sk_records::Kind;
use std::alloc::Global;

/// A key of a record that is read, named for what stands under it.
#[derive(Clone, Copy)]
pub(crate) enum Key {
    GroupHandle,
    GroupType,
    GroupOrder,
    GroupActive,
    GroupSource,
    GroupValue,
    GroupSubtype,
    GroupSkipFirst,
    GroupW,
    GroupX,
    GroupY,
    GroupZ,
    GroupOrigin,
    GroupEntityB,
    GroupEntityC,
    GroupSwapUv,
    GroupNegateU,
    GroupNegateV,
    GroupRelaxed,
    GroupAllReference,
    GroupScale,
    GroupFile,
    GroupRelativeFile,
    ParamHandle,
    ParamValue,
    RequestHandle,
    RequestType,
    RequestWorkplane,
    RequestGroup,
    RequestConstruction,
    RequestExtraPoints,
    ConstraintHandle,
    ConstraintType,
    ConstraintGroup,
    ConstraintWorkplane,
    ConstraintValue,
    ConstraintPointA,
    ConstraintPointB,
    ConstraintEntityA,
    ConstraintEntityB,
    ConstraintEntityC,
    ConstraintEntityD,
    ConstraintOther,
    ConstraintOther2,
    ConstraintReference,
}

impl Key {
    /// The key as it stands in a text.
    #[tactic(auto, unfolding(crate::specs::Keys::key_bytes))]
    pub(crate) fn bytes(self) -> &'static [u8]
        ensures { result.now ≡ key_bytes self }
    {
        match self {
            Key::GroupHandle => b"Group.h.v",
            Key::GroupType => b"Group.type",
            Key::GroupOrder => b"Group.order",
            Key::GroupActive => b"Group.activeWrkpl.v",
            Key::GroupSource => b"Group.opA.v",
            Key::GroupValue => b"Group.valA",
            Key::GroupSubtype => b"Group.subtype",
            Key::GroupSkipFirst => b"Group.skipFirst",
            Key::GroupW => b"Group.predef.q.w",
            Key::GroupX => b"Group.predef.q.vx",
            Key::GroupY => b"Group.predef.q.vy",
            Key::GroupZ => b"Group.predef.q.vz",
            Key::GroupOrigin => b"Group.predef.origin.v",
            Key::GroupEntityB => b"Group.predef.entityB.v",
            Key::GroupEntityC => b"Group.predef.entityC.v",
            Key::GroupSwapUv => b"Group.predef.swapUV",
            Key::GroupNegateU => b"Group.predef.negateU",
            Key::GroupNegateV => b"Group.predef.negateV",
            Key::GroupRelaxed => b"Group.relaxConstraints",
            Key::GroupAllReference => b"Group.allDimsReference",
            Key::GroupScale => b"Group.scale",
            Key::GroupFile => b"Group.impFile",
            Key::GroupRelativeFile => b"Group.impFileRel",
            Key::ParamHandle => b"Param.h.v.",
            Key::ParamValue => b"Param.val",
            Key::RequestHandle => b"Request.h.v",
            Key::RequestType => b"Request.type",
            Key::RequestWorkplane => b"Request.workplane.v",
            Key::RequestGroup => b"Request.group.v",
            Key::RequestConstruction => b"Request.construction",
            Key::RequestExtraPoints => b"Request.extraPoints",
            Key::ConstraintHandle => b"Constraint.h.v",
            Key::ConstraintType => b"Constraint.type",
            Key::ConstraintGroup => b"Constraint.group.v",
            Key::ConstraintWorkplane => b"Constraint.workplane.v",
            Key::ConstraintValue => b"Constraint.valA",
            Key::ConstraintPointA => b"Constraint.ptA.v",
            Key::ConstraintPointB => b"Constraint.ptB.v",
            Key::ConstraintEntityA => b"Constraint.entityA.v",
            Key::ConstraintEntityB => b"Constraint.entityB.v",
            Key::ConstraintEntityC => b"Constraint.entityC.v",
            Key::ConstraintEntityD => b"Constraint.entityD.v",
            Key::ConstraintOther => b"Constraint.other",
            Key::ConstraintOther2 => b"Constraint.other2",
            Key::ConstraintReference => b"Constraint.reference",
        }
    }

    /// The key's place among those of its kind of record.
    pub(crate) fn place(self) -> usize
        ensures { result ≡ (key_spot self).place }
    {
        match self {
            Key::GroupHandle | Key::ParamHandle | Key::RequestHandle | Key::ConstraintHandle => 0,
            Key::GroupType | Key::ParamValue | Key::RequestType | Key::ConstraintType => 1,
            Key::GroupOrder | Key::RequestWorkplane | Key::ConstraintGroup => 2,
            Key::GroupActive | Key::RequestGroup | Key::ConstraintWorkplane => 3,
            Key::GroupSource | Key::RequestConstruction | Key::ConstraintValue => 4,
            Key::GroupValue | Key::RequestExtraPoints | Key::ConstraintPointA => 5,
            Key::GroupSubtype | Key::ConstraintPointB => 6,
            Key::GroupSkipFirst | Key::ConstraintEntityA => 7,
            Key::GroupW | Key::ConstraintEntityB => 8,
            Key::GroupX | Key::ConstraintEntityC => 9,
            Key::GroupY | Key::ConstraintEntityD => 10,
            Key::GroupZ | Key::ConstraintOther => 11,
            Key::GroupOrigin | Key::ConstraintOther2 => 12,
            Key::GroupEntityB | Key::ConstraintReference => 13,
            Key::GroupEntityC => 14,
            Key::GroupSwapUv => 15,
            Key::GroupNegateU => 16,
            Key::GroupNegateV => 17,
            Key::GroupRelaxed => 18,
            Key::GroupAllReference => 19,
            Key::GroupScale => 20,
            Key::GroupFile => 21,
            Key::GroupRelativeFile => 22,
        }
    }
}

/// The keys of a kind of record that are read, in their order.
pub(crate) fn keys_of(kind: Kind) -> &'static [Key]
    ensures { result.now ≡ keys_of kind }
{
    match kind {
        Kind::Group => &[
            Key::GroupHandle,
            Key::GroupType,
            Key::GroupOrder,
            Key::GroupActive,
            Key::GroupSource,
            Key::GroupValue,
            Key::GroupSubtype,
            Key::GroupSkipFirst,
            Key::GroupW,
            Key::GroupX,
            Key::GroupY,
            Key::GroupZ,
            Key::GroupOrigin,
            Key::GroupEntityB,
            Key::GroupEntityC,
            Key::GroupSwapUv,
            Key::GroupNegateU,
            Key::GroupNegateV,
            Key::GroupRelaxed,
            Key::GroupAllReference,
            Key::GroupScale,
            Key::GroupFile,
            Key::GroupRelativeFile,
        ],
        Kind::Param => &[Key::ParamHandle, Key::ParamValue],
        Kind::Request => &[
            Key::RequestHandle,
            Key::RequestType,
            Key::RequestWorkplane,
            Key::RequestGroup,
            Key::RequestConstruction,
            Key::RequestExtraPoints,
        ],
        Kind::Constraint => &[
            Key::ConstraintHandle,
            Key::ConstraintType,
            Key::ConstraintGroup,
            Key::ConstraintWorkplane,
            Key::ConstraintValue,
            Key::ConstraintPointA,
            Key::ConstraintPointB,
            Key::ConstraintEntityA,
            Key::ConstraintEntityB,
            Key::ConstraintEntityC,
            Key::ConstraintEntityD,
            Key::ConstraintOther,
            Key::ConstraintOther2,
            Key::ConstraintReference,
        ],
        Kind::Entity | Kind::Style => &[],
    }
}

/// The keys of a kind of record as they stand in a text.
pub(crate) fn key_table(alloc: Global, kind: Kind) -> Result<Vec<&'static [u8]>, NoMemory>
    ensures { IfOk result (λ v. map (λ (k : Bor (List ℕ)). k.now) v.items ≡ map key_bytes (keys_of kind)) }
{
    let mut table = Vec::new(alloc);
    for key in keys_of(kind) {
        table.push(key.bytes())?;
    }
    Ok(table)
}
