ghost use Rattle.std.specs.Prelude.{◌≡◌, ◌<◌, true, length, get_or, slice_set, All, IfOk};
ghost use Rattle.sk_expr.specs.Tapes.{AreEarlier, HasOperandsBelow, IsTape, plain_tape};
ghost use Rattle.sk_expr.specs.Marks.{AreMarks, is_marked, with_operands};
ghost use Rattle.sk_expr.specs.NodeLaws.{Grows};

use crate::NoMemory;
use crate::node::Node;
use crate::tape::Tape;
use sk_num::Grid;
use std::alloc::Global;

fn mark_both(marks: &mut [bool], a: u32, b: u32)
    requires a_in { a < length marks.old }
    requires b_in { b < length marks.old }
    ensures { marks.new ≡ slice_set (slice_set marks.old a true) b true }
{
    marks[a as usize] = true;
    marks[b as usize] = true;
}

/// Marks the operands of a node.
fn mark_operands<const S: u32>(marks: &mut [bool], node: &Node<Grid<S>>)
    requires { HasOperandsBelow (length marks.old) node.now }
    ensures { marks.new ≡ with_operands marks.old node.now }
{
    match node {
        Node::Num(_) | Node::Cos(_) | Node::Var(_) => {}
        Node::Add(a, b) | Node::Sub(a, b) | Node::Mul(a, b) => mark_both(marks, *a, *b),
    }
}

/// Marks the nodes under those that are marked.
fn mark_under<const S: u32>(marks: &mut [bool], nodes: &[Node<Grid<S>>])
    requires earlier { AreEarlier nodes.now }
    requires long { length marks.old ≡ length nodes.now }
    ensures marks { AreMarks nodes.now marks.new }
    ensures grown { Grows marks.old marks.new }
{
    for i in (0..nodes.len()).rev() {
        if marks[i] {
            mark_operands(marks, &nodes[i]);
        }
    }
}

impl<const S: u32> Tape<S> {
    /// Marks the nodes under the listed rows, which are those to evaluate.
    pub(crate) fn marks(&self, alloc: Global, rows: &[u16]) -> Result<Vec<bool>, NoMemory>
        requires form { IsTape (plain_tape self.now) }
        requires rows_in { All (λ r. r < length self.now.roots) rows.now }
        ensures marks { IfOk result (λ v. AreMarks self.now.nodes v.items) }
        ensures rows { IfOk result (λ v. All (λ r. is_marked v.items (get_or self.now.roots r 0) ≡ true) rows.now) }
    {
        let nodes = self.nodes.as_slice();
        let mut marks = vec![in alloc; false; nodes.len()]?;
        for row in rows {
            marks[self.place(*row)] = true;
        }
        mark_under(&mut marks, nodes);
        Ok(marks)
    }
}
