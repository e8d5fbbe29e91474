ghost use Rattle.std.specs.Prelude.{◌≡◌, ◌<◌, ◌≤◌, ◌+◌, ◌^◌, length, map, get_or, IfOk, OnOk};
ghost use Rattle.std.specs.List.{sum_by};
ghost use Rattle.sk_expr.specs.Poly.{nodes_in};
ghost use Rattle.sk_expr.specs.Trees.{poly_of};
ghost use Rattle.sk_expr.specs.Rows.{row_poly};
ghost use Rattle.sk_expr.specs.Tapes.{put, put_tree, tape_of, plain_tape, IsTape, root_trees, part, part_end, parts_to};

use crate::NoMemory;
use crate::expr::Expr;
use crate::node::Node;
use crate::row::Row;
use indexmap::IndexSet;
use sk_num::{Grid, Items};
use std::alloc::Global;

/// The rows of a system as nodes, of which no two are equal: an expression that occurs often stands
/// once. The rows are added in order; in a row the left operand comes first, then the right one,
/// then the node itself.
#[derive(Debug, Drop)]
pub struct Tape<const S: u32> {
    /// The nodes. An operand is the place of an earlier node.
    pub nodes: Items<Node<Grid<S>>>,
    /// The place of each row's own node.
    pub roots: Items<u32>,
    /// How many nodes stood before each row was added.
    pub starts: Items<u32>,
}

fn put<const S: u32>(
    nodes: &mut IndexSet<Node<Grid<S>>>,
    node: Node<Grid<S>>,
) -> Result<u32, NoMemory>
    requires { length nodes.old.keys < 2 ^ 31 }
    ensures nodes { OnOk result (nodes.new.keys ≡ (put nodes.old.keys node.entry).nodes) }
    ensures place { IfOk result (λ p. p ≡ (put nodes.old.keys node.entry).place) }
    ensures length { OnOk result (length nodes.new.keys ≤ length nodes.old.keys + 1) }
{
    let (place, _) = nodes.insert_full(node)?;
    Ok(place as u32)
}

fn put_tree<const S: u32>(
    nodes: &mut IndexSet<Node<Grid<S>>>,
    tree: &Expr<Grid<S>>,
) -> Result<u32, NoMemory>
    requires { length nodes.old.keys + nodes_in (poly_of tree.now) < 2 ^ 31 }
    ensures nodes { OnOk result (nodes.new.keys ≡ (put_tree nodes.old.keys (poly_of tree.now)).nodes) }
    ensures place { IfOk result (λ p. p ≡ (put_tree nodes.old.keys (poly_of tree.now)).place) }
    ensures length { OnOk result (length nodes.new.keys ≤ length nodes.old.keys + nodes_in (poly_of tree.now)) }
{
    match tree {
        Expr::Num(g) => put(nodes, Node::Num(*g)),
        Expr::Cos(at) => put(nodes, Node::Cos(*at)),
        Expr::Var(at) => put(nodes, Node::Var(*at)),
        Expr::Add(a, b) => {
            let a = put_tree(nodes, a)?;
            let b = put_tree(nodes, b)?;
            put(nodes, Node::Add(a, b))
        }
        Expr::Sub(a, b) => {
            let a = put_tree(nodes, a)?;
            let b = put_tree(nodes, b)?;
            put(nodes, Node::Sub(a, b))
        }
        Expr::Mul(a, b) => {
            let a = put_tree(nodes, a)?;
            let b = put_tree(nodes, b)?;
            put(nodes, Node::Mul(a, b))
        }
    }
}

fn put_rows<const S: u32>(alloc: Global, rows: &[Row<S>]) -> Result<Tape<S>, NoMemory>
    requires { sum_by (λ r. nodes_in (row_poly r)) rows.now < 2 ^ 31 }
    ensures { IfOk result (λ t. plain_tape t ≡ tape_of (map row_poly rows.now)) }
{
    let mut nodes = IndexSet::new(alloc);
    let mut roots = Vec::new(alloc);
    let mut starts = Vec::new(alloc);
    for row in rows {
        starts.push(nodes.len() as u32)?;
        let root = put_tree(&mut nodes, &row.tree)?;
        roots.push(root)?;
    }
    let nodes = Vec::from_slice(alloc, nodes.as_slice())?;
    Ok(Tape {
        nodes: Items::of(nodes),
        roots: Items::of(roots),
        starts: Items::of(starts),
    })
}

impl<const S: u32> Tape<S> {
    /// The tape of the rows, each row's own node being the root of its tree.
    pub fn from_rows(alloc: Global, rows: &[Row<S>]) -> Result<Tape<S>, NoMemory>
        requires { sum_by (λ r. nodes_in (row_poly r)) rows.now < 2 ^ 31 }
        ensures value { IfOk result (λ t. plain_tape t ≡ tape_of (map row_poly rows.now)) }
        ensures form { IfOk result (λ t. IsTape (plain_tape t)) }
        ensures trees { IfOk result (λ t. root_trees (plain_tape t) ≡ map row_poly rows.now) }
        ensures count { IfOk result (λ t. length t.roots ≡ length rows.now) }
    {
        put_rows(alloc, rows)
    }

    /// The place of a row's own node.
    pub fn root(&self, row: u16) -> u32
        requires { row < length self.now.roots }
        ensures { result ≡ get_or self.now.roots row 0 }
    {
        self.roots.as_slice()[row as usize]
    }

    /// The nodes that a row added, lent. The parts of all rows, joined in order, are all nodes.
    pub fn part(&self, row: u16) -> &[Node<Grid<S>>]
        requires form { IsTape (plain_tape self.now) }
        requires row_in { row < length self.now.roots }
        ensures part { result.now ≡ part (plain_tape self.now) row }
        ensures parts { parts_to (plain_tape self.now) (length self.now.roots) ≡ self.now.nodes }
    {
        let from = self.starts.as_slice()[row as usize] as usize;
        let to = self.part_end(row);
        &self.nodes.as_slice()[from..to]
    }

    fn part_end(&self, row: u16) -> usize
        requires form { IsTape (plain_tape self.now) }
        requires row_in { row < length self.now.roots }
        ensures value { result ≡ part_end (plain_tape self.now) row }
        ensures rising { get_or self.now.starts row 0 ≤ result }
        ensures within { result ≤ length self.now.nodes }
    {
        self.start_after(row)
    }

    fn start_after(&self, row: u16) -> usize
        ensures { result ≡ part_end (plain_tape self.now) row }
    {
        match self.starts.as_slice().get(row as usize + 1) {
            Some(start) => *start as usize,
            None => self.nodes.as_slice().len(),
        }
    }

    /// The place of a row's own node, which is one.
    pub(crate) fn place(&self, row: u16) -> usize
        requires form { IsTape (plain_tape self.now) }
        requires row_in { row < length self.now.roots }
        ensures value { result ≡ get_or self.now.roots row 0 }
        ensures within { result < length self.now.nodes }
    {
        self.root(row) as usize
    }
}
