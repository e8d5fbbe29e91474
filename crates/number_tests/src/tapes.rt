ghost use Rattle.std.specs.Prelude.{◌≡◌, ◌<◌, ◌≤◌, ◌^◌, length, IfOk};
ghost use Rattle.sk_expr.specs.Poly.{unknown, minus, times};
ghost use Rattle.sk_expr.specs.Trees.{poly_of};
ghost use Rattle.sk_expr.specs.Rows.{row_poly};
ghost use Rattle.sk_expr.specs.Tapes.{IsTape, plain_tape};
ghost use Rattle.sk_expr.specs.Examples.{distance};

use sk_expr::{Expr, Node, Row, RowKind, RowName, Tape, VisitFault, add, copy, mul, sub};
use sk_num::{Grid, Items, Span};
use std::alloc::{AllocError, Global};
use std::process::Abort;
use std::test::Fail;

type Tree = Expr<Grid<36>>;

fn squared_gap(alloc: Global, a: u16, b: u16) -> Result<Tree, AllocError>
    ensures { IfOk result (λ e. poly_of e ≡ times (minus (unknown a) (unknown b)) (minus (unknown a) (unknown b))) }
{
    let left = sub(alloc, Expr::Var(a), Expr::Var(b))?;
    let right = copy(alloc, &left)?;
    let square = mul(alloc, left, right)?;
    Ok(square)
}

/// Two points of a plane, that far apart.
fn distance_row(alloc: Global, value: Grid<36>) -> Result<Row<36>, AllocError>
    ensures { IfOk result (λ r. row_poly r ≡ distance value) }
{
    let u = squared_gap(alloc, 0, 2)?;
    let v = squared_gap(alloc, 1, 3)?;
    let squares = add(alloc, u, v)?;
    let wanted = mul(alloc, Expr::Num(value), Expr::Num(value))?;
    let tree = sub(alloc, squares, wanted)?;
    let name = RowName {
        kind: RowKind::OfConstraint,
        handle: 1,
        index: 0,
    };
    Ok(Row { name, tree })
}

/// The tape of that row, twice.
fn repeated(alloc: Global, value: Grid<36>) -> Result<Tape<36>, AllocError>
    ensures form { IfOk result (λ t. IsTape (plain_tape t)) }
    ensures rows { IfOk result (λ t. length t.roots ≡ 2) }
{
    let rows = [distance_row(alloc, value)?, distance_row(alloc, value)?];
    let tape = Tape::from_rows(alloc, &rows)?;
    Ok(tape)
}

/// A tape of one row: 0, then twice the node before at each place up to the last.
fn doubled(alloc: Global, last: u32) -> Result<Tape<36>, AllocError>
    requires small { last < 2 ^ 31 }
    requires large { 1 ≤ last }
    ensures form { IfOk result (λ t. IsTape (plain_tape t)) }
    ensures rows { IfOk result (λ t. length t.roots ≡ 1) }
{
    let mut nodes = Vec::new(alloc);
    nodes.push(Node::Var(0))?;
    nodes.push(Node::Sub(0, 0))?;
    for k in 2..last + 1 {
        nodes.push(Node::Add(k - 1, k - 1))?;
    }
    let roots = Vec::from_slice(alloc, &[last])?;
    let starts = Vec::from_slice(alloc, &[0])?;
    Ok(Tape {
        nodes: Items::of(nodes),
        roots: Items::of(roots),
        starts: Items::of(starts),
    })
}

/// The rows x x and y.
fn square_and_other(alloc: Global) -> Result<Tape<36>, AllocError>
    ensures form { IfOk result (λ t. IsTape (plain_tape t)) }
    ensures rows { IfOk result (λ t. length t.roots ≡ 2) }
{
    let name = RowName {
        kind: RowKind::OfGroup,
        handle: 1,
        index: 0,
    };
    let square = mul(alloc, Expr::Var(0), Expr::Var(0))?;
    let tree = Expr::Var(1);
    let rows = [Row { name, tree: square }, Row { name, tree }];
    let tape = Tape::from_rows(alloc, &rows)?;
    Ok(tape)
}

#[tactic(auto, using(sk_num::specs::Scale::scale_facts))]
fn number(whole: i16) -> Grid<36> {
    Grid::whole(whole)
}

#[tactic(auto, using(sk_num::specs::Scale::scale_facts))]
fn at(whole: i16) -> Span<36> {
    let end = Grid::whole(whole);
    Span::new(end, end)
}

#[test]
fn two_points_5_apart(rt: HostRuntime) -> Result<(), Fail> {
    let alloc = rt.alloc();
    let tape = repeated(alloc, number(5))?;
    let nodes = [
        Node::Var(0),
        Node::Var(2),
        Node::Sub(0, 1),
        Node::Mul(2, 2),
        Node::Var(1),
        Node::Var(3),
        Node::Sub(4, 5),
        Node::Mul(6, 6),
        Node::Add(3, 7),
        Node::Num(number(5)),
        Node::Mul(9, 9),
        Node::Sub(8, 10),
    ];
    assert_eq!(rt; tape.nodes.as_slice() == nodes.as_slice(), true);
    assert_eq!(rt; (tape.root(0), tape.part(0).len()), (11, 12));
    assert_eq!(rt; (tape.root(1), tape.part(1).len()), (11, 0));
    Ok(())
}

#[test]
#[tactic(auto, using(sk_num::specs::Scale::scale_facts))]
fn slopes_stand_in_the_listed_order(rt: HostRuntime) -> Result<(), Fail> {
    let alloc = rt.alloc();
    let tape = repeated(alloc, number(5))?;
    let point = [at(0), at(0), at(3), at(4), at(1)];
    let values = tape.values(alloc, &point, &[], &[1]).expect(&rt, "small");
    assert_eq!(rt; values.as_slice() == [at(0)].as_slice(), true);
    for (columns, want) in [([3, 4, 0], [8, -6]), ([0, 3, 4], [-6, 8])] {
        let slopes = tape
            .slopes(alloc, &point, &[], &[1], &columns)
            .expect(&rt, "small");
        assert_eq!(rt; slopes.len(), 1);
        assert_eq!(rt;
            slopes[0].spans.as_slice() == [at(want[0]), at(want[1])].as_slice(),
            true
        );
    }
    Ok(())
}

#[test]
#[tactic(auto, using(sk_num::specs::Scale::scale_facts))]
fn a_tree_of_2_to_the_60_leaves(rt: HostRuntime) -> Result<(), Fail> {
    let alloc = rt.alloc();
    let tape = doubled(alloc, 60)?;
    let zero = at(0);
    let values = tape.values(alloc, &[zero], &[], &[0]).expect(&rt, "zero");
    assert_eq!(rt; values.as_slice() == [zero].as_slice(), true);
    let slopes = tape
        .slopes(alloc, &[zero], &[], &[0], &[0])
        .expect(&rt, "zero");
    assert_eq!(rt; slopes.len(), 1);
    assert_eq!(rt; slopes[0].columns.as_slice(), [0].as_slice());
    assert_eq!(rt; slopes[0].spans.as_slice() == [zero].as_slice(), true);
    Ok(())
}

#[test]
#[tactic(auto, using(sk_num::specs::Scale::scale_facts))]
fn only_listed_rows_pass_the_limit(rt: HostRuntime) -> Result<(), Fail> {
    let alloc = rt.alloc();
    let tape = square_and_other(alloc)?;
    let point = [at(32767), at(7)];
    let past = Some(VisitFault::PastLimit);
    assert_eq!(rt; tape.values(alloc, &point, &[], &[0]).err(), past);
    assert_eq!(rt; tape.slopes(alloc, &point, &[], &[0], &[1]).err(), past);
    assert_eq!(rt; tape.values(alloc, &point, &[], &[1]).err(), None);
    assert_eq!(rt; tape.slopes(alloc, &point, &[], &[1], &[0, 1]).err(), None);
    Ok(())
}
