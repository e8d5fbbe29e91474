// The plane of a drawing, with its axes at hand.

ghost use Rattle.std.specs.Prelude.{◌≡◌, ◌∷◌, [], option_map};
ghost use Rattle.sk_num.specs.Each.{each_some};
ghost use Rattle.sk_num.specs.Ends.{mid};
ghost use Rattle.sk_num.specs.Scale.{IsScale};
ghost use Rattle.sk_expr.specs.Vectors.{vector_difference};
ghost use Rattle.sk_geom.specs.Sources.{three_numbers};
ghost use Rattle.sk_dxf.specs.Plane.{coordinates, leaning, facing};
ghost use Rattle.sk_dxf.specs.Spans.{span_dot, plain_spans};

use crate::spans::{Checked, axis_n, axis_u, axis_v, difference, dot, exact, reading};
use sk_num::Grid;
use std::marker::Model;

/// A plane by the numbers at which its point and its normal stand; contracts see these. The axes are kept beside them.
#[derive(Drop)]
pub(crate) struct Plane<const S: u32> {
    origin: [Grid<S>; 4],
    normal: [Grid<S>; 4],
    u: [Checked<S>; 3],
    v: [Checked<S>; 3],
    n: [Checked<S>; 3],
}

impl<const S: u32> Model for Plane<S> {
    ghost use Rattle.std.specs.Prelude.{◌≡◌};
    ghost use Rattle.sk_geom.specs.Sources.{four_numbers};
    ghost use Rattle.sk_geom.specs.Quaternions.{quaternion_axes};
    ghost use Rattle.sk_dxf.specs.Plane.{PlaneNumbers};
    ghost use Rattle.sk_dxf.specs.Spans.{plain_spans};

    ghost Value = { PlaneNumbers };

    ghost view = { λ p. record { origin = p.origin; normal = p.normal } };

    ghost invariant = { λ p. let axes = quaternion_axes S (four_numbers p.normal) in
        (p.u ≡ plain_spans S axes.u) × (p.v ≡ plain_spans S axes.v) × (p.n ≡ plain_spans S axes.n) };
}

/// `p - o`, component by component.
#[tactic(auto, unfolding(sk_expr::specs::SpanValue::span_value, sk_expr::specs::Vectors::vector_difference, crate::specs::Spans::plain_span, crate::specs::Spans::plain_spans, crate::specs::Spans::span_difference))]
fn from_origin<const S: u32>(p: &[Grid<S>; 4], o: &[Grid<S>; 4]) -> [Checked<S>; 3]
    ensures { result ≡ plain_spans S (vector_difference (three_numbers p.now) (three_numbers o.now)) }
{
    let [px, py, pz, _] = p;
    let [ox, oy, oz, _] = o;
    [
        difference(exact(*px), exact(*ox)),
        difference(exact(*py), exact(*oy)),
        difference(exact(*pz), exact(*oz)),
    ]
}

/// The readings of a vector along two axes.
fn along_two<const S: u32>(
    d: &[Checked<S>; 3],
    u: &[Checked<S>; 3],
    v: &[Checked<S>; 3],
) -> Option<[Grid<S>; 2]>
    requires { IsScale S }
    ensures { result ≡ each_some (λ a. option_map mid (span_dot S d.now a)) (u.now ∷ v.now ∷ []) }
{
    let u = reading(dot(d, u))?;
    let v = reading(dot(d, v))?;
    Some([u, v])
}

/// The readings of a vector along three axes.
fn along_three<const S: u32>(
    d: &[Checked<S>; 3],
    u: &[Checked<S>; 3],
    v: &[Checked<S>; 3],
    n: &[Checked<S>; 3],
) -> Option<[Grid<S>; 3]>
    requires { IsScale S }
    ensures { result ≡ each_some (λ a. option_map mid (span_dot S d.now a)) (u.now ∷ v.now ∷ n.now ∷ []) }
{
    let u = reading(dot(d, u))?;
    let v = reading(dot(d, v))?;
    let n = reading(dot(d, n))?;
    Some([u, v, n])
}

impl<const S: u32> Plane<S> {
    /// The plane through a point, straight to a normal.
    pub(crate) fn new(origin: [Grid<S>; 4], normal: [Grid<S>; 4]) -> Plane<S>
        requires { IsScale S }
        ensures origin { result.origin ≡ origin.entry }
        ensures normal { result.normal ≡ normal.entry }
    {
        Plane {
            origin,
            normal,
            u: axis_u(&normal),
            v: axis_v(&normal),
            n: axis_n(&normal),
        }
    }

    /// The coordinates of a point, and its height over the plane; None where a reading passes the limit.
    pub(crate) fn coordinates(&self, p: &[Grid<S>; 4]) -> Option<[Grid<S>; 3]>
        requires { IsScale S }
        ensures { result ≡ coordinates S self.now p.now }
    {
        let d = from_origin(p, &self.origin);
        along_three(&d, &self.u, &self.v, &self.n)
    }

    /// How far a normal leans: its N along the axes U and V.
    pub(crate) fn leaning(&self, normal: &[Grid<S>; 4]) -> Option<[Grid<S>; 2]>
        requires { IsScale S }
        ensures { result ≡ leaning S self.now normal.now }
    {
        let n = axis_n(normal);
        along_two(&n, &self.u, &self.v)
    }

    /// How far a normal goes along the plane's.
    pub(crate) fn facing(&self, normal: &[Grid<S>; 4]) -> Option<Grid<S>>
        requires { IsScale S }
        ensures { result ≡ facing S self.now normal.now }
    {
        let n = axis_n(normal);
        reading(dot(&n, &self.n))
    }
}
