// Laws of trees. A function here does nothing when it runs: its contract is the law.

ghost use Rattle.sk_geom.specs.RangeLaws.{RangeLaw};
ghost use Rattle.sk_geom.specs.WholeLaws.{TimesLaw};

/// Each place in a tree of an entity is that of an unknown of its source, and no cosine stands in it.
pub fn range_law()
    ensures { RangeLaw }
{}

/// Whole numbers up to 2^18 either way are exact, so those of moved points are.
pub fn times_law()
    ensures { TimesLaw }
{}
