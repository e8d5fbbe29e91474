ghost use Rattle.std.specs.Prelude.{◌≡◌, ◌<◌, true, length, get_or, All, IfOk, IfErr, Some, None, if◌then◌else◌};
ghost use Rattle.sk_num.specs.Scale.{IsScale};
ghost use Rattle.sk_num.specs.Each.{each_some};
ghost use Rattle.sk_expr.specs.SpanValue.{value_by, span_value};
ghost use Rattle.sk_expr.specs.Tapes.{HasOperandsBelow, AreEarlier, IsTape, plain_tape, row_tree};
ghost use Rattle.sk_expr.specs.Marks.{AreMarks, is_marked};
ghost use Rattle.sk_expr.specs.NodeValues.{Knows, node_value};
ghost use Rattle.sk_expr.specs.Enclosing.{EnclosesValues};
ghost use Rattle.sk_expr.specs.declared.fault.VisitFault.TheVariants.{PastLimit};

use crate::NoMemory;
use crate::fault::VisitFault;
use crate::node::Node;
use crate::tape::Tape;
use sk_num::{Grid, Kernel, OfGrid, Span};
use std::alloc::Global;

/// The value of a node over those of the earlier ones.
fn node_value<const S: u32, K: Kernel<S>>(
    node: &Node<Grid<S>>,
    earlier: &[Option<K>],
    unknowns: &[K],
    cosines: &[K],
) -> Option<K>
    requires scale { IsScale S }
    requires below { HasOperandsBelow (length earlier.now) node.now }
    ensures { result ≡ node_value K.of K.sum_of K.difference_of K.product_of unknowns.now cosines.now earlier.now node.now }
{
    match node {
        Node::Num(g) => Some(K::of_grid(*g)),
        Node::Cos(at) => match cosines.get(*at as usize) {
            Some(x) => Some(x.same()),
            None => None,
        },
        Node::Var(at) => match unknowns.get(*at as usize) {
            Some(x) => Some(x.same()),
            None => None,
        },
        Node::Add(a, b) => match (&earlier[*a as usize], &earlier[*b as usize]) {
            (Some(x), Some(y)) => x.add(y),
            _ => None,
        },
        Node::Sub(a, b) => match (&earlier[*a as usize], &earlier[*b as usize]) {
            (Some(x), Some(y)) => x.sub(y),
            _ => None,
        },
        Node::Mul(a, b) => match (&earlier[*a as usize], &earlier[*b as usize]) {
            (Some(x), Some(y)) => x.mul(y),
            _ => None,
        },
    }
}

fn marked_value<const S: u32, K: Kernel<S>>(
    is_marked: bool,
    node: &Node<Grid<S>>,
    earlier: &[Option<K>],
    unknowns: &[K],
    cosines: &[K],
) -> Option<K>
    requires scale { IsScale S }
    requires below { HasOperandsBelow (length earlier.now) node.now }
    ensures { is_marked ≡ true → result ≡ node_value K.of K.sum_of K.difference_of K.product_of unknowns.now cosines.now earlier.now node.now }
{
    if is_marked {
        node_value::<S, K>(node, earlier, unknowns, cosines)
    } else {
        None
    }
}

/// The value of each marked node, None where a number of it passes the limit. Each is evaluated once.
pub(crate) fn node_values<const S: u32, K: Kernel<S>>(
    alloc: Global,
    nodes: &[Node<Grid<S>>],
    marks: &[bool],
    unknowns: &[K],
    cosines: &[K],
) -> Result<Vec<Option<K>>, NoMemory>
    requires scale { IsScale S }
    requires earlier { AreEarlier nodes.now }
    requires marks { AreMarks nodes.now marks.now }
    ensures { IfOk result (λ v.
        Knows nodes.now marks.now (value_by K.of K.sum_of K.difference_of K.product_of unknowns.now cosines.now) None (length nodes.now) v.items) }
{
    let mut values = Vec::with_capacity(alloc, nodes.len())?;
    for (i, node) in nodes.iter().enumerate() {
        let value = marked_value::<S, K>(marks[i], node, &values, unknowns, cosines);
        values.push(value)?;
    }
    Ok(values)
}

impl<const S: u32> Tape<S> {
    /// What is held for a row's own node.
    fn of_row(&self, values: &[Option<Span<S>>], row: u16) -> Option<Span<S>>
        requires form { IsTape (plain_tape self.now) }
        requires row_in { row < length self.now.roots }
        requires each { length values.now ≡ length self.now.nodes }
        ensures { result ≡ get_or values.now (get_or self.now.roots row 0) None }
    {
        values[self.place(row)]
    }

    #[tactic(auto, unfolding(crate::specs::SpanValue::span_value))]
    fn row_values(
        &self,
        alloc: Global,
        unknowns: &[Span<S>],
        cosines: &[Span<S>],
        rows: &[u16],
    ) -> Result<Vec<Span<S>>, VisitFault>
        requires scale { IsScale S }
        requires form { IsTape (plain_tape self.now) }
        requires rows_in { All (λ r. r < length self.now.roots) rows.now }
        ensures value { IfOk result (λ v.
            each_some (λ r. span_value S unknowns.now cosines.now (row_tree (plain_tape self.now) r)) rows.now ≡ Some v.items) }
        ensures past { IfErr result (λ e. e ≡ PastLimit →
            each_some (λ r. span_value S unknowns.now cosines.now (row_tree (plain_tape self.now) r)) rows.now ≡ None) }
    {
        let marks = self.marks(alloc, rows)?;
        let nodes = node_values::<S, Span<S>>(
            alloc,
            self.nodes.as_slice(),
            &marks,
            unknowns,
            cosines,
        )?;
        let mut values = Vec::with_capacity(alloc, rows.len())?;
        for row in rows {
            match self.of_row(&nodes, *row) {
                Some(value) => values.push(value)?,
                None => return Err(VisitFault::PastLimit),
            }
        }
        Ok(values)
    }

    /// The span of each listed row over spans of the unknowns and cosines. PastLimit comes exactly where a number of a
    /// listed row passes the limit; an unknown or cosine that isn't listed counts as past it. Each span encloses the exact
    /// value of its row at every point of the box. The nodes under the listed rows are evaluated once each.
    pub fn values(
        &self,
        alloc: Global,
        unknowns: &[Span<S>],
        cosines: &[Span<S>],
        rows: &[u16],
    ) -> Result<Vec<Span<S>>, VisitFault>
        requires scale { IsScale S }
        requires form { IsTape (plain_tape self.now) }
        requires rows_in { All (λ r. r < length self.now.roots) rows.now }
        ensures value { IfOk result (λ v.
            each_some (λ r. span_value S unknowns.now cosines.now (row_tree (plain_tape self.now) r)) rows.now ≡ Some v.items) }
        ensures past { IfErr result (λ e. e ≡ PastLimit →
            each_some (λ r. span_value S unknowns.now cosines.now (row_tree (plain_tape self.now) r)) rows.now ≡ None) }
        ensures encloses { IfOk result (λ v.
            EnclosesValues S unknowns.now cosines.now (row_tree (plain_tape self.now)) rows.now v.items) }
    {
        self.row_values(alloc, unknowns, cosines, rows)
    }
}
