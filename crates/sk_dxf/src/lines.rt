// The text of shapes.
#![tactic(auto)]

ghost use Rattle.std.specs.Prelude.{◌≡◌, ◌++◌, ◌≤◌, OnOk};
ghost use Rattle.sk_num.specs.Scale.{IsScale};
ghost use Rattle.sk_dxf.specs.Lines.{quantity_lines, first_place, second_place, line_text, point_text, circle_text, vertex, bulged_vertex, arc_text, vertices, cubic_text, shape_text};

use crate::NoMemory;
use crate::shape::Shape;
use sk_cubic::curve_point;
use sk_num::{Grid, quantity_text};

const POLYLINE: &str = "0\nPOLYLINE\n8\n0\n66\n1\n70\n0\n";

const SEQUENCE_END: &str = "0\nSEQEND\n";

fn put(out: &mut Vec<u8>, text: &str) -> Result<(), NoMemory>
    ensures { OnOk result (out.new.items ≡ out.old.items ++ text.now) }
{
    out.extend_from_slice(text.as_bytes())?;
    Ok(())
}

/// Puts a group code with a quantity.
#[tactic(auto, unfolding(crate::specs::Lines::quantity_lines))]
fn put_quantity<const S: u32>(out: &mut Vec<u8>, code: &str, g: Grid<S>) -> Result<(), NoMemory>
    requires { IsScale S }
    ensures { OnOk result (out.new.items ≡ out.old.items ++ quantity_lines S code.now g.entry) }
{
    let text = quantity_text(g);
    out.extend_from_slice(code.as_bytes())?;
    out.push(b'\n')?;
    out.extend_from_slice(&text.bytes[..usize::from(text.len)])?;
    out.push(b'\n')?;
    Ok(())
}

#[tactic(auto, unfolding(crate::specs::Lines::first_place))]
fn put_first<const S: u32>(out: &mut Vec<u8>, p: &[Grid<S>; 3]) -> Result<(), NoMemory>
    requires { IsScale S }
    ensures { OnOk result (out.new.items ≡ out.old.items ++ first_place S p.now) }
{
    let [x, y, z] = p;
    put_quantity(out, "10", *x)?;
    put_quantity(out, "20", *y)?;
    put_quantity(out, "30", *z)
}

#[tactic(auto, unfolding(crate::specs::Lines::second_place))]
fn put_second<const S: u32>(out: &mut Vec<u8>, p: &[Grid<S>; 3]) -> Result<(), NoMemory>
    requires { IsScale S }
    ensures { OnOk result (out.new.items ≡ out.old.items ++ second_place S p.now) }
{
    let [x, y, z] = p;
    put_quantity(out, "11", *x)?;
    put_quantity(out, "21", *y)?;
    put_quantity(out, "31", *z)
}

#[tactic(auto, unfolding(crate::specs::Lines::line_text))]
fn put_line<const S: u32>(
    out: &mut Vec<u8>,
    a: &[Grid<S>; 3],
    b: &[Grid<S>; 3],
) -> Result<(), NoMemory>
    requires { IsScale S }
    ensures { OnOk result (out.new.items ≡ out.old.items ++ line_text S a.now b.now) }
{
    put(out, "0\nLINE\n8\n0\n")?;
    put_first(out, a)?;
    put_second(out, b)
}

#[tactic(auto, unfolding(crate::specs::Lines::point_text))]
fn put_point<const S: u32>(out: &mut Vec<u8>, p: &[Grid<S>; 3]) -> Result<(), NoMemory>
    requires { IsScale S }
    ensures { OnOk result (out.new.items ≡ out.old.items ++ point_text S p.now) }
{
    put(out, "0\nPOINT\n8\n0\n")?;
    put_first(out, p)
}

#[tactic(auto, unfolding(crate::specs::Lines::circle_text))]
fn put_circle<const S: u32>(
    out: &mut Vec<u8>,
    centre: &[Grid<S>; 3],
    radius: Grid<S>,
) -> Result<(), NoMemory>
    requires { IsScale S }
    ensures { OnOk result (out.new.items ≡ out.old.items ++ circle_text S centre.now radius.entry) }
{
    put(out, "0\nCIRCLE\n8\n0\n")?;
    put_first(out, centre)?;
    put_quantity(out, "40", radius)
}

#[tactic(auto, unfolding(crate::specs::Lines::vertex))]
fn put_vertex<const S: u32>(out: &mut Vec<u8>, p: &[Grid<S>; 3]) -> Result<(), NoMemory>
    requires { IsScale S }
    ensures { OnOk result (out.new.items ≡ out.old.items ++ vertex S p.now) }
{
    put(out, "0\nVERTEX\n8\n0\n")?;
    put_first(out, p)
}

/// Puts a vertex from which the polyline goes on along an arc.
#[tactic(auto, unfolding(crate::specs::Lines::bulged_vertex))]
fn put_bulged_vertex<const S: u32>(
    out: &mut Vec<u8>,
    p: &[Grid<S>; 3],
    bulge: Grid<S>,
) -> Result<(), NoMemory>
    requires { IsScale S }
    ensures { OnOk result (out.new.items ≡ out.old.items ++ bulged_vertex S p.now bulge.entry) }
{
    put_vertex(out, p)?;
    put_quantity(out, "42", bulge)
}

#[tactic(auto, unfolding(crate::specs::Lines::arc_text))]
fn put_arc<const S: u32>(
    out: &mut Vec<u8>,
    start: &[Grid<S>; 3],
    end: &[Grid<S>; 3],
    bulge: Grid<S>,
) -> Result<(), NoMemory>
    requires { IsScale S }
    ensures { OnOk result (out.new.items ≡ out.old.items ++ arc_text S start.now end.now bulge.entry) }
{
    put(out, POLYLINE)?;
    put_bulged_vertex(out, start, bulge)?;
    put_vertex(out, end)?;
    put(out, SEQUENCE_END)
}

/// Puts the first `n` points of a cubic.
fn put_vertices<const S: u32>(
    out: &mut Vec<u8>,
    n: u8,
    points: &[[Grid<S>; 3]; 4],
) -> Result<(), NoMemory>
    requires scale { IsScale S }
    requires few { n ≤ 17 }
    ensures { OnOk result (out.new.items ≡ out.old.items ++ vertices S n points.now) }
{
    for i in 0..n {
        put_vertex(out, &curve_point(points, i))?;
    }
    Ok(())
}

#[tactic(auto, unfolding(crate::specs::Lines::cubic_text))]
fn put_cubic<const S: u32>(out: &mut Vec<u8>, points: &[[Grid<S>; 3]; 4]) -> Result<(), NoMemory>
    requires { IsScale S }
    ensures { OnOk result (out.new.items ≡ out.old.items ++ cubic_text S points.now) }
{
    put(out, POLYLINE)?;
    put_vertices(out, 17, points)?;
    put(out, SEQUENCE_END)
}

/// Puts a shape.
pub(crate) fn put_shape<const S: u32>(out: &mut Vec<u8>, shape: &Shape<S>) -> Result<(), NoMemory>
    requires { IsScale S }
    ensures { OnOk result (out.new.items ≡ out.old.items ++ shape_text shape.now) }
{
    match shape {
        Shape::Line(start, end) => put_line(out, start, end),
        Shape::Point(place) => put_point(out, place),
        Shape::Circle(centre, radius) => put_circle(out, centre, *radius),
        Shape::Arc(start, end, bulge) => put_arc(out, start, end, *bulge),
        Shape::Cubic(points) => put_cubic(out, points),
    }
}
