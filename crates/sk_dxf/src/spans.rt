// Sums and products of spans, None where a number on the way passes the limit; and the axes of quaternions.
#![tactic(auto)]

ghost use Rattle.std.specs.Prelude.{◌≡◌, ◌*◌, ◌^◌, pos, Some, option_map};
ghost use Rattle.sk_num.specs.Scale.{IsScale};
ghost use Rattle.sk_num.specs.Ends.{point, mid};
ghost use Rattle.sk_expr.specs.Poly.{number, times};
ghost use Rattle.sk_geom.specs.Quaternions.{quaternion_axes, twice};
ghost use Rattle.sk_geom.specs.Sources.{four_numbers};
ghost use Rattle.sk_dxf.specs.Spans.{span_sum, span_difference, span_product, span_dot, plain_span, plain_spans};

use sk_num::{Grid, Span};

/// A span, or None where a number on the way to it passes the limit.
pub(crate) type Checked<const S: u32> = Option<Span<S>>;

#[tactic(auto, unfolding(crate::specs::Spans::span_sum))]
fn sum<const S: u32>(a: Checked<S>, b: Checked<S>) -> Checked<S>
    ensures { result ≡ span_sum a.entry b.entry }
{
    let a = a?;
    let b = b?;
    a.add(&b)
}

#[tactic(auto, unfolding(crate::specs::Spans::span_difference))]
pub(crate) fn difference<const S: u32>(a: Checked<S>, b: Checked<S>) -> Checked<S>
    ensures { result ≡ span_difference a.entry b.entry }
{
    let a = a?;
    let b = b?;
    a.sub(&b)
}

#[tactic(auto, unfolding(crate::specs::Spans::span_product))]
fn product<const S: u32>(a: Checked<S>, b: Checked<S>) -> Checked<S>
    requires { IsScale S }
    ensures { result ≡ span_product S a.entry b.entry }
{
    let a = a?;
    let b = b?;
    a.mul(&b)
}

/// The span of one number.
pub(crate) fn exact<const S: u32>(g: Grid<S>) -> Checked<S>
    ensures { result ≡ Some (point g.entry) }
{
    Some(Span::new(g, g))
}

/// `a . b`, summed from the left.
#[tactic(auto, unfolding(crate::specs::Spans::span_dot))]
pub(crate) fn dot<const S: u32>(a: &[Checked<S>; 3], b: &[Checked<S>; 3]) -> Checked<S>
    requires { IsScale S }
    ensures { result ≡ span_dot S a.now b.now }
{
    let [ax, ay, az] = a;
    let [bx, by, bz] = b;
    let flat = sum(product(*ax, *bx), product(*ay, *by));
    sum(flat, product(*az, *bz))
}

/// The reading of a span: half the sum of its ends, rounded down.
pub(crate) fn reading<const S: u32>(a: Checked<S>) -> Option<Grid<S>>
    ensures { result ≡ option_map mid a.entry }
{
    let a = a?;
    Some(a.mid())
}

/// The number 2.
fn two<const S: u32>() -> Grid<S>
    requires { IsScale S }
    ensures { result ≡ pos (2 * 2 ^ S) }
{
    Grid::whole(2)
}

/// `a a`.
#[tactic(auto, unfolding(sk_expr::specs::SpanValue::span_value, crate::specs::Spans::plain_span, crate::specs::Spans::span_product))]
fn square<const S: u32>(a: Grid<S>) -> Checked<S>
    requires { IsScale S }
    ensures { result ≡ plain_span S (times (number a.entry) (number a.entry)) }
{
    product(exact(a), exact(a))
}

/// `2 a b`.
#[tactic(auto, unfolding(sk_expr::specs::SpanValue::span_value, crate::specs::Spans::plain_span, crate::specs::Spans::span_product))]
fn twice<const S: u32>(a: Grid<S>, b: Grid<S>) -> Checked<S>
    requires { IsScale S }
    ensures { result ≡ plain_span S (twice S (number a.entry) (number b.entry)) }
{
    let doubled = product(exact(two::<S>()), exact(a));
    product(doubled, exact(b))
}

/// The axis U of a quaternion.
pub(crate) fn axis_u<const S: u32>(q: &[Grid<S>; 4]) -> [Checked<S>; 3]
    requires { IsScale S }
    ensures { result ≡ plain_spans S (quaternion_axes S (four_numbers q.now)).u }
{
    let [w, x, y, z] = q;
    let along = sum(square(*w), square(*x));
    let along = difference(along, square(*y));
    [
        difference(along, square(*z)),
        sum(twice(*w, *z), twice(*x, *y)),
        difference(twice(*x, *z), twice(*w, *y)),
    ]
}

/// The axis V of a quaternion.
pub(crate) fn axis_v<const S: u32>(q: &[Grid<S>; 4]) -> [Checked<S>; 3]
    requires { IsScale S }
    ensures { result ≡ plain_spans S (quaternion_axes S (four_numbers q.now)).v }
{
    let [w, x, y, z] = q;
    let along = difference(square(*w), square(*x));
    let along = sum(along, square(*y));
    [
        difference(twice(*x, *y), twice(*w, *z)),
        difference(along, square(*z)),
        sum(twice(*w, *x), twice(*y, *z)),
    ]
}

/// The axis N of a quaternion.
pub(crate) fn axis_n<const S: u32>(q: &[Grid<S>; 4]) -> [Checked<S>; 3]
    requires { IsScale S }
    ensures { result ≡ plain_spans S (quaternion_axes S (four_numbers q.now)).n }
{
    let [w, x, y, z] = q;
    let along = difference(square(*w), square(*x));
    let along = difference(along, square(*y));
    [
        sum(twice(*x, *z), twice(*w, *y)),
        difference(twice(*y, *z), twice(*w, *x)),
        sum(along, square(*z)),
    ]
}
