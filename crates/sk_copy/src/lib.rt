//! The entities of drawings in a workplane, and the copies that extrusions, translations and linked parts make, with the
//! remap lists that number them.
#![tactic(auto)]

ghost use Rattle.std.specs.Prelude.{◌≡◌};
ghost use Rattle.sk_copy.specs.Laws.{ExtendedLaw, MadeLaw, WantedLaw};

pub mod copy_number;
mod extrude;
mod fault;
mod group_copies;
mod linked;
mod lists;
mod numbers;
mod order;
mod planes;
mod translate;
mod wanted;

pub use fault::CopyFault;
pub use group_copies::copies;
pub use planes::plane_entities;
pub use std::alloc::AllocError as NoMemory;

/// What holds of remap lists that are extended.
pub fn law_extended()
    ensures { ExtendedLaw }
{}

/// The copies that a group has are numbered in rising handle of what is copied, then by the copy's number.
pub fn law_wanted()
    ensures { WantedLaw }
{}

/// The entities that a group makes by a list in which numbers and copies stand apart are items of the group with distinct
/// handles, in rising order.
pub fn law_made()
    ensures { MadeLaw }
{}
