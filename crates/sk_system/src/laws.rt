// Laws of systems. The functions here do nothing when they run: each contract is a law.

ghost use Rattle.sk_system.specs.LookupLaws.{LookupsLaw, SameLookupsLaw};
ghost use Rattle.sk_system.specs.OutlineLaws.{OutlinesLaw};
ghost use Rattle.sk_system.specs.SizeLaws.{SizesLaw};

/// The system of a known group has as many unknowns and rows as the outline counts, at each point where it is.
pub fn sizes_law()
    ensures { SizesLaw }
{}

/// Numbers of earlier groups and of parameters that are the same wherever they are read give the same system, and so the same
/// rows and numbers at each point. What is read are the entities and parameters that the group, its entities and its
/// constraints name, and those that these name in turn; the values of unknown parameters aren't.
pub fn lookups_law()
    ensures { LookupsLaw }
{}

/// So numbers that are the same at every handle give the same system.
pub fn same_lookups_law()
    ensures { SameLookupsLaw }
{}

/// Two outlines that are alike where the group reads them, and numbers that are alike there, give the same system. What is read
/// are the entities that the group, its entities and its constraints need, and those that these name in turn.
pub fn outlines_law()
    ensures { OutlinesLaw }
{}
