use sk_num::Grid;

/// A polynomial in unknowns and cosines, which are named by their place in the lists of a system,
/// with numbers of type `G`. Contracts see the polynomial that it spells, not where it lies in memory.
#[derive(Debug, Drop)]
pub enum Expr<G> {
    /// A number.
    Num(G),
    /// The cosine in this place.
    Cos(u16),
    /// The unknown in this place.
    Var(u16),
    /// A sum.
    Add(Box<Expr<G>>, Box<Expr<G>>),
    /// A difference.
    Sub(Box<Expr<G>>, Box<Expr<G>>),
    /// A product.
    Mul(Box<Expr<G>>, Box<Expr<G>>),
}

/// A polynomial over grid numbers.
pub type Tree<const S: u32> = Expr<Grid<S>>;

impl<G> Default for Expr<G> {
    /// The unknown 0, which stands where a list keeps room.
    fn default() -> Expr<G> {
        Expr::Var(0)
    }
}
