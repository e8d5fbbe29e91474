// What a model is refused for.

ghost use Rattle.std.specs.Prelude.{◌≡◌};
ghost use Rattle.sk_model.specs.declared.faults.ModelFault.TheVariants.{NoMemory};

use crate::NoMemory;
use std::alloc::AllocFailed;

/// Why a thing is left out.
#[derive(Clone, Copy, Debug, PartialEq, Eq)]
pub enum Reason {
    /// A kind of group that isn't built.
    Group,
    /// A kind of request that isn't built.
    Request,
    /// A kind of constraint that isn't built.
    Constraint,
    /// A group whose constraints are relaxed.
    Relaxed,
    /// A group whose dimensions are all references.
    ReferenceDims,
    /// A request or a constraint in group 1, which has the three reference workplanes alone.
    References,
    /// A linked part whose scale isn't above 0.
    Scale,
    /// An arc in space.
    SpaceArc,
    /// A workplane that is drawn in a workplane.
    NestedWorkplane,
}

/// What there is too much of.
#[derive(Clone, Copy, Debug, PartialEq, Eq)]
pub enum What {
    /// Groups: more than 1,000.
    Groups,
    /// Linked groups: more than 16.
    Links,
    /// Entities of all groups.
    Entities,
    /// Numbers of one group's copies.
    Remap,
    /// Unknowns of one group.
    Unknowns,
    /// Rows of one group.
    Rows,
}

/// The first fault of a model.
#[derive(Clone, Copy, Debug, PartialEq, Eq)]
pub enum ModelFault {
    /// The value on this line, from 1, doesn't read; 0 for a line that a call added.
    NumberAt(usize),
    /// An earlier record of the kind has the handle.
    DuplicateHandle(u32),
    /// The thing has a number that no kind has.
    UnknownKind(u32, i32),
    /// The thing is of a form that isn't built.
    LeftOut(u32, Reason),
    /// The thing names another that isn't there.
    NoSuch(u32, u32),
    /// The thing names another that is made later.
    Ahead(u32, u32),
    /// The thing has a handle or a value out of range.
    BadValue(u32),
    /// There are too many things of a sort.
    TooMany(What),
    /// Memory is wanting.
    NoMemory,
}

impl From<NoMemory> for ModelFault {
    ghost from_gives = { λ _ e. e ≡ NoMemory };

    fn from(_error: NoMemory) -> ModelFault {
        ModelFault::NoMemory
    }
}

impl<T: Drop> From<AllocFailed<T>> for ModelFault {
    ghost from_gives = { λ _ e. e ≡ NoMemory };

    fn from(_failed: AllocFailed<T>) -> ModelFault {
        ModelFault::NoMemory
    }
}
