ghost use Rattle.sk_solve.specs.SearchLaws.{SearchLaw};

/// What holds of every search: what it keeps, that it keeps it again, and where no visited point passes.
pub fn search_law()
    ensures { SearchLaw }
{}
