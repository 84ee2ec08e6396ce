ghost use Rattle.std.specs.Prelude.{◌≡◌};
ghost use Rattle.std.specs.declared.cmp.Ordering.TheVariants.{Equal};
ghost use Rattle.plane.specs.Points.{IsPoint, point_order};
ghost use Rattle.plane.specs.Lines.{as_point, crossing, line, meeting, side};
ghost use Rattle.plane.specs.Directions.{AreParallel};
ghost use Rattle.scaled_plane.specs.Drawn.{IsDrawn, IsScaledPoint, IsScaledSegment};
ghost use Rattle.scaled_plane.specs.Sizes.{IsDrawnSize, IsLineSize};

use crate::point::Segment;
use exact_number::{Whole, cross, difference};
use plane::{Line, Point};
use std::cmp::Ordering;

/// Which side of the line from `a` to `b` the point `c` lies on: `Greater` on the left, `Less` on the right, `Equal` on it.
pub fn orient<W: Whole>(a: Point<W>, b: Point<W>, c: Point<W>) -> Ordering
    requires first { IsScaledPoint W.numbers a }
    requires second { IsScaledPoint W.numbers b }
    requires third { IsScaledPoint W.numbers c }
    ensures { result ≡ side W.numbers.ring a b c }
{
    let first_x = difference(b.x, a.x);
    let first_y = difference(b.y, a.y);
    let second_x = difference(c.x, a.x);
    let second_y = difference(c.y, a.y);
    cross(first_x, first_y, second_x, second_y).sign()
}

/// The line through two scaled points, above zero on the left of the way from `p` to `q`.
pub fn line_through<W: Whole>(p: Point<W>, q: Point<W>) -> Line<W>
    requires first { IsScaledPoint W.numbers p }
    requires second { IsScaledPoint W.numbers q }
    ensures value { result ≡ line W.numbers.ops p q }
    ensures sizes { IsLineSize W.pair result }
{
    Line {
        a: difference(p.y, q.y),
        b: difference(q.x, p.x),
        c: cross(p.x, p.y, q.x, q.y),
    }
}

/// The vector on two lines, whose weight may be below zero.
fn meeting_of<W: Whole>(l: Line<W>, m: Line<W>) -> Point<W>
    requires first { IsLineSize W.pair l }
    requires second { IsLineSize W.pair m }
    ensures { result ≡ meeting W.numbers.ops l m }
{
    Point {
        x: cross(l.b, l.c, m.b, m.c),
        y: cross(l.c, l.a, m.c, m.a),
        w: cross(l.a, l.b, m.a, m.b),
    }
}

/// The same vector with its weight from zero on.
fn crossing_of<W: Whole>(l: Line<W>, m: Line<W>) -> Point<W>
    requires first { IsLineSize W.pair l }
    requires second { IsLineSize W.pair m }
    ensures { result ≡ as_point W.numbers.ring (meeting W.numbers.ops l m) }
{
    let point = meeting_of(l, m);
    match point.w.sign() {
        Ordering::Less => meeting_of(m, l),
        Ordering::Equal => point,
        Ordering::Greater => point,
    }
}

/// Where the lines of two segments cross.
pub fn cross_point<W: Whole>(s: Segment<W>, t: Segment<W>) -> Point<W>
    requires first { IsScaledSegment W.numbers s }
    requires second { IsScaledSegment W.numbers t }
    requires not_parallel { ¬ AreParallel W.numbers.ring s.from s.to t.from t.to }
    ensures crossing { result ≡ crossing W.numbers.ring s.from s.to t.from t.to }
    ensures drawn { IsDrawn W.numbers result }
    ensures point { IsPoint W.numbers.ring result }
    ensures on_first { side W.numbers.ring s.from s.to result ≡ Equal }
    ensures on_second { side W.numbers.ring t.from t.to result ≡ Equal }
{
    crossing_of(line_through(s.from, s.to), line_through(t.from, t.to))
}

/// The order of points, by x, then by y, from the sizes of their numbers.
pub fn compare_sized<W: Whole>(p: Point<W>, r: Point<W>) -> Ordering
    requires first { IsDrawnSize W.pair p }
    requires second { IsDrawnSize W.pair r }
    ensures { result ≡ point_order W.numbers.ring p r }
{
    match cross(p.x, p.w, r.x, r.w).sign() {
        Ordering::Less => Ordering::Less,
        Ordering::Equal => cross(p.y, p.w, r.y, r.w).sign(),
        Ordering::Greater => Ordering::Greater,
    }
}

/// The order of points: by x, then by y.
pub fn compare_points<W: Whole>(p: Point<W>, r: Point<W>) -> Ordering
    requires first { IsDrawn W.numbers p }
    requires second { IsDrawn W.numbers r }
    ensures { result ≡ point_order W.numbers.ring p r }
{
    compare_sized(p, r)
}
