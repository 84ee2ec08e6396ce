ghost use Rattle.std.specs.Prelude.{◌≡◌, ◌<◌, ◌↔◌, length, Contains, IsTrue, IfOk};
ghost use Rattle.std.specs.declared.cmp.Ordering.TheVariants.{Equal};
ghost use Rattle.plane.specs.Points.{IsSamePoint};
ghost use Rattle.plane.specs.Lines.{side};
ghost use Rattle.plane.specs.Directions.{IsClockwise, IsRightOf, IsSameWay, direction};
ghost use Rattle.scaled_plane.specs.Drawn.{IsDrawn, IsScaledPoint};
ghost use Rattle.scaled_plane.specs.WellSet.{IsWellSet, LiesAlong, vertex};
ghost use Rattle.face_walks.specs.Headings.{AreHeadings, IsHeadingSize, direction_of, edge_way};

use exact_number::{Whole, cross, difference};
use plane::Point;
use scaled_plane::{Drawing, Edge, compare_points};
use std::alloc::{AllocError, Global};
use std::cmp::Ordering;

/// The direction of a half-edge, between two scaled points of its line.
#[derive(Clone, Copy)]
pub struct Heading<W> {
    pub x: W,
    pub y: W,
}

/// The direction from one scaled point to another.
fn heading_between<W: Whole>(p: Point<W>, q: Point<W>) -> Heading<W>
    requires first { IsScaledPoint W.numbers p }
    requires second { IsScaledPoint W.numbers q }
    ensures value { direction_of result ≡ direction W.numbers.ops p q }
    ensures size { IsHeadingSize W.pair result }
{
    Heading {
        x: difference(q.x, p.x),
        y: difference(q.y, p.y),
    }
}

fn is_right_of<W: Whole>(d: Heading<W>, e: Heading<W>) -> bool
    requires first { IsHeadingSize W.pair d }
    requires second { IsHeadingSize W.pair e }
    ensures { IsTrue result ↔ IsRightOf W.numbers.ring (direction_of d) (direction_of e) }
{
    cross(d.x, d.y, e.x, e.y).sign() == Ordering::Less
}

/// Whether one turns clockwise from `d` to `e` before `f`.
pub fn is_clockwise<W: Whole>(d: Heading<W>, e: Heading<W>, f: Heading<W>) -> bool
    requires first { IsHeadingSize W.pair d }
    requires second { IsHeadingSize W.pair e }
    requires third { IsHeadingSize W.pair f }
    ensures { IsTrue result ↔ IsClockwise W.numbers.ring (direction_of d) (direction_of e) (direction_of f) }
{
    let first = is_right_of(d, e);
    let second = is_right_of(e, f);
    let third = is_right_of(f, d);
    (first && second) || (second && third) || (third && first)
}

/// Whether two pairs of points stand in one order, by their orders.
fn are_alike(first: Ordering, second: Ordering) -> bool
    ensures { IsTrue result ↔ (first ≡ second) }
{
    first == second
}

/// The directions of a line, there and back, in the order of two points of it.
fn headings_along<W: Whole>(
    first: Point<W>,
    second: Point<W>,
    from: Point<W>,
    to: Point<W>,
) -> (Heading<W>, Heading<W>)
    requires first_scaled { IsScaledPoint W.numbers first }
    requires second_scaled { IsScaledPoint W.numbers second }
    requires from_drawn { IsDrawn W.numbers from }
    requires to_drawn { IsDrawn W.numbers to }
    requires from_on { side W.numbers.ring first second from ≡ Equal }
    requires to_on { side W.numbers.ring first second to ≡ Equal }
    requires line { ¬ IsSamePoint W.numbers.ring first second }
    requires edge { ¬ IsSamePoint W.numbers.ring from to }
    ensures there { IsSameWay W.numbers.ring (direction_of result.0) (direction W.numbers.ops from to) }
    ensures back { IsSameWay W.numbers.ring (direction_of result.1) (direction W.numbers.ops to from) }
    ensures there_size { IsHeadingSize W.pair result.0 }
    ensures back_size { IsHeadingSize W.pair result.1 }
{
    let forth = heading_between(first, second);
    let reverse = heading_between(second, first);
    if are_alike(compare_points(first, second), compare_points(from, to)) {
        (forth, reverse)
    } else {
        (reverse, forth)
    }
}

/// The point of a vertex.
fn point_of<W: Whole>(drawing: &Drawing<W>, v: u32) -> Point<W>
    requires { v < length drawing.now.vertices }
    ensures { result ≡ vertex W.numbers drawing.now v }
{
    drawing.vertices.as_slice()[v as usize]
}

/// The headings of the two half-edges of an edge.
fn headings_of_edge<W: Whole>(
    drawing: &Drawing<W>,
    edge: Edge,
    line: (u32, u32),
) -> (Heading<W>, Heading<W>)
    requires well_set { IsWellSet W.numbers drawing.now }
    requires edge { Contains drawing.now.edges edge }
    requires along { LiesAlong W.numbers drawing.now edge line }
    ensures there { IsSameWay W.numbers.ring (direction_of result.0) (edge_way W.numbers drawing.now edge.from edge.to) }
    ensures back { IsSameWay W.numbers.ring (direction_of result.1) (edge_way W.numbers drawing.now edge.to edge.from) }
    ensures there_size { IsHeadingSize W.pair result.0 }
    ensures back_size { IsHeadingSize W.pair result.1 }
{
    let first = point_of(drawing, line.0);
    let second = point_of(drawing, line.1);
    let from = point_of(drawing, edge.from);
    let to = point_of(drawing, edge.to);
    headings_along(first, second, from, to)
}

/// The heading of each half-edge, in the order of the edges, there and back.
pub fn headings_of<W: Whole>(
    alloc: Global,
    drawing: &Drawing<W>,
) -> Result<Vec<Heading<W>>, AllocError>
    requires { IsWellSet W.numbers drawing.now }
    ensures { IfOk result (λ headings. AreHeadings W.numbers drawing.now (length drawing.now.edges) headings.items) }
{
    let lines = drawing.lines.as_slice();
    let mut headings = Vec::new(alloc);
    for (i, edge) in drawing.edges.as_slice().iter().enumerate() {
        let (there, back) = headings_of_edge(drawing, *edge, lines[i]);
        headings.push(there)?;
        headings.push(back)?;
    }
    Ok(headings)
}
