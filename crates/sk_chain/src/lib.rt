//! The order of a model's groups, the outline of its entities with every reference checked, and what depends on what.
#![tactic(auto)]

ghost use Rattle.std.specs.Prelude.{◌≡◌};
ghost use Rattle.sk_chain.specs.Laws.{AgainLaw, OutlineLaw, ParamsLaw};

mod chain;
mod dependence;
mod dirty;
mod earlier;
mod lookups;
mod made;
mod making;
mod named;
mod order;
mod sizes;

pub use chain::{order_groups, outline, outlined};
pub use dependence::depends;
pub use dirty::dirty_set;
pub use lookups::group_at;
pub use std::alloc::AllocError as NoMemory;

/// What holds of every outline, and of the remap lists beside it.
pub fn law_outline()
    ensures { OutlineLaw }
{}

/// An outline doesn't look at parameters.
pub fn law_params()
    ensures { ParamsLaw }
{}

/// A model whose lists are extended has the same outline, and no list grows again.
pub fn law_again()
    ensures { AgainLaw }
{}
