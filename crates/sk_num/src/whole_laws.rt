// Laws of whole numbers, on which the exact arithmetic of the crates above stands. A function here
// does nothing when it runs: its contract is the law.

ghost use Rattle.sk_num.specs.WholeLaws.{ProductLaws, OrderLaws, DivisionLaws, SumLaws};

/// Products of whole numbers: grouping, sums, differences and signs.
pub fn product_laws()
    ensures { ProductLaws }
{}

/// Products and the order of whole numbers.
pub fn order_laws()
    ensures { OrderLaws }
{}

/// Quotients: rounded down, rounded up, and rounded to the nearest with halves away from zero.
pub fn division_laws()
    ensures { DivisionLaws }
{}

/// Finite sums of whole numbers, and the greatest of finitely many natural numbers.
pub fn sum_laws()
    ensures { SumLaws }
{}
