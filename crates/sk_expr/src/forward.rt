ghost use Rattle.std.specs.Prelude.{◌≡◌, ◌≤◌, ◌<◌, ◌+◌, ◌^◌, ◌∷◌, [], true, false, pos, length, get_or, slice_get, IfOk, IfSome, MatchOption, None, option_map, if◌then◌else◌};
ghost use Rattle.sk_num.specs.Scale.{IsScale};
ghost use Rattle.sk_expr.specs.Tapes.{HasOperandsBelow, AreEarlier};
ghost use Rattle.sk_expr.specs.Marks.{AreMarks, is_marked};
ghost use Rattle.sk_expr.specs.NodeValues.{Knows, of_both};
ghost use Rattle.sk_num.specs.Ends.{point};
ghost use Rattle.sk_expr.specs.SpanValue.{dual_of};
ghost use Rattle.sk_expr.specs.AbsentSlope.{constant_dual};
ghost use Rattle.sk_expr.specs.ForwardSlopes.{plain_value, duals_in, operation_of, of_first, of_second, merged, node_duals};

use crate::NoMemory;
use crate::dual::Dual;
use crate::node::Node;
use sk_num::{Grid, Items, Kernel, Span};
use std::alloc::Global;

/// The operation of a node with two operands.
#[derive(Clone, Copy, Debug)]
pub(crate) enum Operation {
    Sum,
    Difference,
    Product,
}

/// A column, and the dual of a node there, None past the limit.
pub(crate) type Beside<const S: u32> = (u16, Option<Dual<S>>);

/// A value with the slope 0.
fn constant<const S: u32>(value: &Option<Span<S>>) -> Option<Dual<S>>
    ensures { result ≡ option_map constant_dual value.now }
{
    match value {
        Some(value) => Some(Dual::constant(*value)),
        None => None,
    }
}

fn applied<const S: u32>(
    operation: Operation,
    x: &Option<Dual<S>>,
    y: &Option<Dual<S>>,
) -> Option<Dual<S>>
    requires { IsScale S }
    ensures { result ≡ of_both (operation_of S operation) x.now y.now }
{
    let (Some(x), Some(y)) = (x, y) else {
        return None;
    };
    match operation {
        Operation::Sum => x.add(y),
        Operation::Difference => x.sub(y),
        Operation::Product => x.mul(y),
    }
}

/// The operation of a node, and the values of its operands.
#[derive(Clone, Copy)]
struct Merge<'a, const S: u32> {
    operation: Operation,
    first: &'a Option<Span<S>>,
    second: &'a Option<Span<S>>,
}

/// The columns that are left of both operands.
type Rest<'a, const S: u32> = (&'a [Beside<S>], &'a [Beside<S>]);

impl<const S: u32> Merge<'_, S> {
    fn of_first(&self, p: &Beside<S>) -> Beside<S>
        requires { IsScale S }
        ensures { result ≡ of_first (operation_of S self.now.operation) self.now.second.now p.now }
    {
        (p.0, applied(self.operation, &p.1, &constant(self.second)))
    }

    fn of_second(&self, q: &Beside<S>) -> Beside<S>
        requires { IsScale S }
        ensures { result ≡ of_second (operation_of S self.now.operation) self.now.first.now q.now }
    {
        (q.0, applied(self.operation, &constant(self.first), &q.1))
    }

    fn of_both(&self, p: &Beside<S>, q: &Beside<S>) -> Beside<S>
        requires { IsScale S }
        ensures { result ≡ (p.now.0, of_both (operation_of S self.now.operation) p.now.1 q.now.1) }
    {
        (p.0, applied(self.operation, &p.1, &q.1))
    }

    /// The next column, and what is left behind it.
    fn next<'b>(
        &self,
        first: &'b [Beside<S>],
        second: &'b [Beside<S>],
    ) -> Option<(Beside<S>, Rest<'b, S>)>
        requires { IsScale S }
        ensures next { MatchOption result
            (merged (operation_of S self.now.operation) self.now.first.now self.now.second.now first.now second.now ≡ [])
            (λ r. merged (operation_of S self.now.operation) self.now.first.now self.now.second.now first.now second.now
            ≡ r.0 ∷ merged (operation_of S self.now.operation) self.now.first.now self.now.second.now r.1.0.now r.1.1.now) }
        ensures fewer { IfSome result (λ r. length r.1.0.now + length r.1.1.now < length first.now + length second.now) }
    {
        match (first, second) {
            ([], []) => None,
            ([p, ps @ ..], []) => Some((self.of_first(p), (ps, second))),
            ([], [q, qs @ ..]) => Some((self.of_second(q), (first, qs))),
            ([p, ps @ ..], [q, qs @ ..]) => {
                if p.0 < q.0 {
                    Some((self.of_first(p), (ps, second)))
                } else if q.0 < p.0 {
                    Some((self.of_second(q), (first, qs)))
                } else {
                    Some((self.of_both(p, q), (ps, qs)))
                }
            }
        }
    }

    /// The duals of both operands merged, in rising columns.
    fn merged(
        &self,
        alloc: Global,
        first: &[Beside<S>],
        second: &[Beside<S>],
    ) -> Result<Items<Beside<S>>, NoMemory>
        requires { IsScale S }
        ensures { IfOk result (λ v. v ≡ merged (operation_of S self.now.operation) self.now.first.now self.now.second.now first.now second.now) }
    {
        let mut out = Vec::with_capacity(alloc, first.len() + second.len())?;
        let mut rest = (first, second);
        while let Some((pair, behind)) = self.next(rest.0, rest.1) {
            out.push(pair)?;
            rest = behind;
        }
        Ok(Items::of(out))
    }
}

fn joined<const S: u32>(
    alloc: Global,
    operation: Operation,
    values: &[Option<Span<S>>],
    earlier: &[Items<Beside<S>>],
    a: u32,
    b: u32,
) -> Result<Items<Beside<S>>, NoMemory>
    requires scale { IsScale S }
    requires a_in { a < length earlier.now }
    requires b_in { b < length earlier.now }
    requires as_many { length earlier.now ≤ length values.now }
    ensures { IfOk result (λ v. v ≡
        merged (operation_of S operation) (get_or values.now a None) (get_or values.now b None) (get_or earlier.now a []) (get_or earlier.now b [])) }
{
    let (a, b) = (a as usize, b as usize);
    let merge = Merge {
        operation,
        first: &values[a],
        second: &values[b],
    };
    merge.merged(alloc, earlier[a].as_slice(), earlier[b].as_slice())
}

/// An unknown in its own column, where that is listed.
fn own_column<const S: u32>(
    alloc: Global,
    place: u16,
    unknowns: &[Span<S>],
    listed: &[bool],
) -> Result<Items<Beside<S>>, NoMemory>
    requires { IsScale S }
    ensures { IfOk result (λ v. v ≡
        (if get_or listed.now place false then (place, option_map (λ x. dual_of x (point (pos (2 ^ S)))) (slice_get unknowns.now place)) ∷ [] else [])) }
{
    let mut own = Vec::new(alloc);
    if !is_listed(listed, place) {
        return Ok(Items::of(own));
    }
    let dual = match unknowns.get(place as usize) {
        Some(x) => Some(Dual::new(*x, Span::new(Grid::one(), Grid::one()))),
        None => None,
    };
    own.push((place, dual))?;
    Ok(Items::of(own))
}

fn is_listed(listed: &[bool], column: u16) -> bool
    ensures { result ≡ get_or listed.now column false }
{
    match listed.get(column as usize) {
        Some(is_listed) => *is_listed,
        None => false,
    }
}

/// The duals of a node over the values and duals of the earlier ones.
fn node_duals<const S: u32>(
    alloc: Global,
    node: &Node<Grid<S>>,
    values: &[Option<Span<S>>],
    earlier: &[Items<Beside<S>>],
    unknowns: &[Span<S>],
    listed: &[bool],
) -> Result<Items<Beside<S>>, NoMemory>
    requires scale { IsScale S }
    requires below { HasOperandsBelow (length earlier.now) node.now }
    requires as_many { length earlier.now ≤ length values.now }
    ensures { IfOk result (λ v. v ≡ node_duals S unknowns.now (λ c. get_or listed.now c false) values.now earlier.now node.now) }
{
    match node {
        Node::Num(_) | Node::Cos(_) => Ok(Items::of(Vec::new(alloc))),
        Node::Var(place) => own_column(alloc, *place, unknowns, listed),
        Node::Add(a, b) => joined(alloc, Operation::Sum, values, earlier, *a, *b),
        Node::Sub(a, b) => joined(alloc, Operation::Difference, values, earlier, *a, *b),
        Node::Mul(a, b) => joined(alloc, Operation::Product, values, earlier, *a, *b),
    }
}

fn marked_duals<const S: u32>(
    alloc: Global,
    is_marked: bool,
    node: &Node<Grid<S>>,
    values: &[Option<Span<S>>],
    earlier: &[Items<Beside<S>>],
    unknowns: &[Span<S>],
    listed: &[bool],
) -> Result<Items<Beside<S>>, NoMemory>
    requires scale { IsScale S }
    requires below { HasOperandsBelow (length earlier.now) node.now }
    requires as_many { length earlier.now ≤ length values.now }
    ensures { IfOk result (λ v. is_marked ≡ true → v ≡ node_duals S unknowns.now (λ c. get_or listed.now c false) values.now earlier.now node.now) }
{
    if is_marked {
        node_duals(alloc, node, values, earlier, unknowns, listed)
    } else {
        Ok(Items::of(Vec::new(alloc)))
    }
}

/// The duals of each marked node in the listed columns that occur in its tree.
pub(crate) fn all_duals<const S: u32>(
    alloc: Global,
    nodes: &[Node<Grid<S>>],
    marks: &[bool],
    values: &[Option<Span<S>>],
    unknowns: &[Span<S>],
    cosines: &[Span<S>],
    listed: &[bool],
) -> Result<Vec<Items<Beside<S>>>, NoMemory>
    requires scale { IsScale S }
    requires earlier { AreEarlier nodes.now }
    requires marks { AreMarks nodes.now marks.now }
    requires values { Knows nodes.now marks.now (plain_value S unknowns.now cosines.now) None (length nodes.now) values.now }
    ensures { IfOk result (λ v.
        Knows nodes.now marks.now (duals_in S unknowns.now cosines.now (λ c. get_or listed.now c false)) [] (length nodes.now) v.items) }
{
    let mut duals = Vec::with_capacity(alloc, nodes.len())?;
    for (i, node) in nodes.iter().enumerate() {
        let own = marked_duals(alloc, marks[i], node, values, &duals, unknowns, listed)?;
        duals.push(own)?;
    }
    Ok(duals)
}
