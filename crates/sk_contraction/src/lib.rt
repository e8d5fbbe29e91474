//! The contraction theorem over whole numbers.
//!
//! It speaks of no interval, no elimination and no search: of a system whose slopes, multiplied by some matrix, lie near the
//! unit matrix all over a box. `specs/Contracting` has the premises, `specs/Contraction` the proof. The function does
//! nothing when it runs: its contract is the law.
#![tactic(auto)]

ghost use Rattle.sk_contraction.specs.Laws.{ContractionLaw};

/// A box that contracts holds a point with small residuals, and any two such points are close.
pub fn contraction_law()
    ensures { ContractionLaw }
{}
