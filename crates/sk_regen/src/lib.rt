//! Regeneration of a model: group after group is solved over the numbers that the earlier ones left.
#![tactic(auto)]

ghost use Rattle.sk_regen.specs.CertifiedLaws.{ComesOutLaw};
ghost use Rattle.sk_regen.specs.FoldLaws.{FoldAgainLaw, OverLaw, DirtyLaw, UndoneLaw};
ghost use Rattle.sk_regen.specs.Likeness.{LikenessLaw};
ghost use Rattle.sk_regen.specs.SoundLaws.{FullLaw, ReadLaw, SoundLaw, RegenLaw, ModelLaw, SessionLaw};

mod blank;
mod fold;
mod frames;
mod ground;
mod numbers;
mod parameters;
mod references;
mod solving;
mod starts;
mod state;
mod systems;

pub use fold::{Regenerated, all_groups, into_regenerated, regenerate};
pub use state::{Left, State};
pub use std::alloc::AllocError as NoMemory;

/// Regeneration over the values that it kept comes out the same.
pub fn law_fold_again()
    ensures { FoldAgainLaw }
{}

/// Regeneration over a list is full regeneration, where the other groups stand as it leaves them.
pub fn law_over()
    ensures { OverLaw }
{}

/// Over the dirty set of an edit, the other groups do stand so.
pub fn law_dirty()
    ensures { DirtyLaw }
{}

/// What is the same after an edit, is the same before it.
pub fn law_undone()
    ensures { UndoneLaw }
{}

/// What the report says of each group that is regenerated.
pub fn law_comes_out()
    ensures { ComesOutLaw }
{}

/// Regeneration over the list of all groups is full regeneration.
pub fn law_full()
    ensures { FullLaw }
{}

/// Parts that were read from what a folder gave are as regeneration needs them.
pub fn law_read()
    ensures { ReadLaw }
{}

/// What stands below regeneration is sound, for every text that is accepted.
pub fn law_sound()
    ensures { SoundLaw }
{}

/// Regeneration of a regenerated text gives that text and the same report.
pub fn law_regen()
    ensures { RegenLaw }
{}

/// The same of the blocks of a model, without reading again.
pub fn law_model()
    ensures { ModelLaw }
{}

/// What a session holds between its calls.
pub fn law_session()
    ensures { SessionLaw }
{}

/// Models that are alike outside a list give each group outside it the same result.
pub fn law_likeness()
    ensures { LikenessLaw }
{}
