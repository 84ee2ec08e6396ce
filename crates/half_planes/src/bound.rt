ghost use Rattle.std.specs.Prelude.{◌≡◌, ◌≤◌, ◌*◌, ◌^◌};
ghost use Rattle.exact_number.specs.Sizes.{whole_size};
ghost use Rattle.plane.specs.Lines.{value};
ghost use Rattle.scaled_plane.specs.Drawn.{IsScaledPoint};
ghost use Rattle.scaled_plane.specs.Sizes.{IsLineSize};
ghost use Rattle.half_planes.specs.Bounds.{gap};
ghost use Rattle.half_planes.specs.Elimination.{level, under};
ghost use Rattle.half_planes.specs.Along.{above_zero, along};
ghost use Rattle.half_planes.specs.Sizes.{IsBoundSize};

use exact_number::{Whole, cross};
use plane::{Line, Point};
use std::cmp::Ordering;

/// slope·x + offset is above zero: a bound on x, from below where the slope is above zero and from above where it's below.
#[derive(Clone, Copy)]
pub struct Bound<W> {
    pub slope: W,
    pub offset: W,
}

/// The sign of slope·offset' - offset·slope'. Of two bounds on one side it's the slopes' sign where the first is the tighter
/// one; of a lower and an upper bound it's `Greater` where there are numbers between them.
pub fn gap_sign<W: Whole>(first: Bound<W>, second: Bound<W>) -> Ordering
    requires first { IsBoundSize W.pair first }
    requires second { IsBoundSize W.pair second }
    ensures { result ≡ W.numbers.sign (gap W.numbers.ops first second) }
{
    cross(first.slope, first.offset, second.slope, second.offset).sign()
}

/// What a line without y asks of x.
pub fn level_bound<W: Whole>(line: Line<W>) -> Bound<W>
    requires { IsLineSize W.pair line }
    ensures value { result ≡ level line }
    ensures size { IsBoundSize W.pair result }
{
    Bound {
        slope: line.a,
        offset: line.c,
    }
}

/// What two lines ask of x, of which the first bounds y from below and the second from above.
pub fn bound_under<W: Whole>(lower: Line<W>, upper: Line<W>) -> Bound<W>
    requires first { IsLineSize W.pair lower }
    requires second { IsLineSize W.pair upper }
    ensures value { result ≡ under W.numbers.ops lower upper }
    ensures size { IsBoundSize W.pair result }
{
    Bound {
        slope: cross(lower.b, lower.a, upper.b, upper.a),
        offset: cross(lower.b, lower.c, upper.b, upper.c),
    }
}

/// x is above zero.
pub fn above_zero<W: Whole>() -> Bound<W>
    ensures value { result ≡ above_zero W.numbers.ops }
    ensures size { IsBoundSize W.pair result }
{
    Bound {
        slope: integer(1),
        offset: integer(0),
    }
}

/// A whole number without a root.
fn integer<W: Whole>(n: i128) -> W
    ensures { result ≡ W.numbers.int n }
{
    match W::from_pair(n, 0) {
        Some(number) => number,
        None => unreachable!(),
    }
}

/// What a line asks of a point s·from + t·to, as a bound on s/t.
pub fn bound_along<W: Whole>(line: Line<W>, from: Point<W>, to: Point<W>) -> Bound<W>
    requires small { IsLineSize W.pair line }
    requires first { IsScaledPoint W.numbers from }
    requires second { IsScaledPoint W.numbers to }
    ensures value { result ≡ along W.numbers.ops line from to }
    ensures size { IsBoundSize W.pair result }
{
    Bound {
        slope: value_at(line, from),
        offset: value_at(line, to),
    }
}

/// The value of a line at a point, which is above zero in the line's half-plane.
fn value_at<W: Whole>(line: Line<W>, point: Point<W>) -> W
    requires small { IsLineSize W.pair line }
    requires scaled { IsScaledPoint W.numbers point }
    ensures value { result ≡ value W.numbers.ops line point }
    ensures size { whole_size (W.pair result) ≤ 27 * 2 ^ 45 }
{
    let by_x = line.a.mul(point.x);
    let by_y = line.b.mul(point.y);
    let by_w = line.c.mul(point.w);
    by_x.add(by_y).add(by_w)
}
