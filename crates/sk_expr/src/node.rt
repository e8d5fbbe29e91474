/// A node of a tape. An operand is the place of an earlier node.
#[derive(Clone, Copy, Debug, PartialEq, Eq, Hash)]
pub enum Node<G> {
    /// A number.
    Num(G),
    /// A cosine.
    Cos(u16),
    /// An unknown.
    Var(u16),
    /// A sum.
    Add(u32, u32),
    /// A difference.
    Sub(u32, u32),
    /// A product.
    Mul(u32, u32),
}
