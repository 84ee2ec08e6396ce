ghost use Rattle.std.specs.Prelude.{◌≡◌, ◌⊎◌, IsTrue};
ghost use Rattle.std.specs.Ordering.{is_le};
ghost use Rattle.std.specs.declared.cmp.Ordering.TheVariants.{Less, Equal};
ghost use Rattle.plane.specs.Points.{point_order};
ghost use Rattle.plane.specs.Lines.{side};
ghost use Rattle.scaled_plane.specs.Pieces.{IsProper};
ghost use Rattle.scaled_plane.specs.Drawn.{IsScaledPoint, IsScaledSegment};
ghost use Rattle.segment_tests.specs.Meets.{IsMeet};

use crate::answer::Meet;
use exact_number::Whole;
use plane::Point;
use scaled_plane::{Segment, compare_points};
use std::cmp::Ordering;

/// The ends of a segment, the lesser first.
fn ordered<W: Whole>(s: Segment<W>) -> (Point<W>, Point<W>)
    requires scaled { IsScaledSegment W.numbers s }
    requires proper { IsProper W.numbers.ring s }
    ensures order { point_order W.numbers.ring result.0 result.1 ≡ Less }
    ensures ends { ((result.0 ≡ s.from) × (result.1 ≡ s.to)) ⊎ ((result.0 ≡ s.to) × (result.1 ≡ s.from)) }
{
    match compare_points(s.from, s.to) {
        Ordering::Less => (s.from, s.to),
        Ordering::Equal => (s.from, s.to),
        Ordering::Greater => (s.to, s.from),
    }
}

/// The later of two points.
fn later<W: Whole>(p: Point<W>, q: Point<W>) -> Point<W>
    requires first { IsScaledPoint W.numbers p }
    requires second { IsScaledPoint W.numbers q }
    ensures first { IsTrue (is_le (point_order W.numbers.ring p result)) }
    ensures second { IsTrue (is_le (point_order W.numbers.ring q result)) }
    ensures is { (result ≡ p) ⊎ (result ≡ q) }
{
    match compare_points(p, q) {
        Ordering::Less => q,
        Ordering::Equal => p,
        Ordering::Greater => p,
    }
}

/// The earlier of two points.
fn earlier<W: Whole>(p: Point<W>, q: Point<W>) -> Point<W>
    requires first { IsScaledPoint W.numbers p }
    requires second { IsScaledPoint W.numbers q }
    ensures first { IsTrue (is_le (point_order W.numbers.ring result p)) }
    ensures second { IsTrue (is_le (point_order W.numbers.ring result q)) }
    ensures is { (result ≡ p) ⊎ (result ≡ q) }
{
    match compare_points(p, q) {
        Ordering::Less => p,
        Ordering::Equal => p,
        Ordering::Greater => q,
    }
}

/// The common points of two segments along one line.
pub fn meet_along<W: Whole>(s: Segment<W>, t: Segment<W>) -> Meet<W>
    requires first { IsScaledSegment W.numbers s }
    requires second { IsScaledSegment W.numbers t }
    requires first_proper { IsProper W.numbers.ring s }
    requires second_proper { IsProper W.numbers.ring t }
    requires from_along { side W.numbers.ring s.from s.to t.from ≡ Equal }
    requires to_along { side W.numbers.ring s.from s.to t.to ≡ Equal }
    ensures { IsMeet W.numbers.ring s t result }
{
    let (first_low, first_high) = ordered(s);
    let (second_low, second_high) = ordered(t);
    let low = later(first_low, second_low);
    let high = earlier(first_high, second_high);
    match compare_points(low, high) {
        Ordering::Less => Meet::Along(low, high),
        Ordering::Equal => Meet::Touches(low),
        Ordering::Greater => Meet::Apart,
    }
}
