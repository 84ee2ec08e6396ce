ghost use Rattle.std.specs.Prelude.{All};
ghost use Rattle.scaled_plane.specs.Drawn.{IsScaledPoint, IsScaledSegment, IsDrawn};
ghost use Rattle.scaled_plane.specs.Pieces.{IsProper};

use exact_number::Whole;
use plane::Point;
use scaled_plane::{Segment, compare_points, orient};
use segment_tests::{Meet, Steps, meet};
use std::cmp::Ordering;
use std::sync::ledger::Ledger;

/// The sides of points, each of the line through the two before it.
pub fn orient_all<W: Whole>(points: &[Point<W>], rounds: u32) -> i128
    requires { All (λ p. IsScaledPoint W.numbers p) points.now }
{
    let mut sum = 0;
    for _ in 0..rounds {
        sum = orient_once(points, sum);
    }
    sum
}

fn orient_once<W: Whole>(points: &[Point<W>], before: i128) -> i128
    requires { All (λ p. IsScaledPoint W.numbers p) points.now }
{
    let mut sum = before;
    for third in 2..points.len() {
        sum = summed(
            sum,
            code_of(orient(points[third - 2], points[third - 1], points[third])),
        );
    }
    sum
}

/// The order of each point and the one before it.
pub fn compare_all<W: Whole>(points: &[Point<W>], rounds: u32) -> i128
    requires { All (λ p. IsDrawn W.numbers p) points.now }
{
    let mut sum = 0;
    for _ in 0..rounds {
        sum = compare_once(points, sum);
    }
    sum
}

fn compare_once<W: Whole>(points: &[Point<W>], before: i128) -> i128
    requires { All (λ p. IsDrawn W.numbers p) points.now }
{
    let mut sum = before;
    for second in 1..points.len() {
        sum = summed(
            sum,
            code_of(compare_points(points[second - 1], points[second])),
        );
    }
    sum
}

/// What each segment and the one before it have in common.
pub fn meet_all<W: Whole, L: Ledger>(
    segments: &[Segment<W>],
    rounds: u32,
    steps: &mut Steps<L>,
) -> i128
    requires { All (λ s. IsScaledSegment W.numbers s × IsProper W.numbers.ring s) segments.now }
{
    let mut sum = 0;
    for _ in 0..rounds {
        sum = meet_once(segments, sum, steps);
    }
    sum
}

fn meet_once<W: Whole, L: Ledger>(
    segments: &[Segment<W>],
    before: i128,
    steps: &mut Steps<L>,
) -> i128
    requires { All (λ s. IsScaledSegment W.numbers s × IsProper W.numbers.ring s) segments.now }
{
    let mut sum = before;
    for second in 1..segments.len() {
        let common = meet(segments[second - 1], segments[second], steps);
        sum = summed(sum, parts_of(common));
    }
    sum
}

fn summed(sum: i128, part: i128) -> i128 {
    sum.wrapping_mul(31).wrapping_add(part)
}

fn code_of(order: Ordering) -> i128 {
    1 + i128::from(order.is_gt()) - i128::from(order.is_lt())
}

/// A part of the weight where two segments cross, and a number for each other answer.
fn parts_of<W: Whole>(common: Meet<W>) -> i128 {
    match common {
        Meet::Apart => 1,
        Meet::Touches(_) => 2,
        Meet::Crosses(point) => point.w.pair().0,
        Meet::Along(_, _) => 3,
    }
}
