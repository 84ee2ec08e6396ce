ghost use Rattle.std.specs.Prelude.{◌≡◌, ◌↔◌, IsTrue};
ghost use Rattle.std.specs.Bool.{OnTrue, OnFalse};
ghost use Rattle.std.specs.declared.cmp.Ordering.TheVariants.{Equal};
ghost use Rattle.plane.specs.Segments.{IsEnd, IsOn};
ghost use Rattle.scaled_plane.specs.Drawn.{IsScaledPoint, IsScaledSegment};
ghost use Rattle.scaled_plane.specs.Pieces.{IsProper};
ghost use Rattle.sheet_check.specs.Spans.{AreOneWay, MeetBeside};

use crate::same::is_same;
use exact_number::Whole;
use plane::Point;
use scaled_plane::{Segment, compare_points, orient};
use segment_tests::{Meet, Steps, meet};
use std::cmp::Ordering;
use std::sync::ledger::Ledger;

/// Whether a point is an end of a segment.
fn is_end<W: Whole>(s: Segment<W>, p: Point<W>) -> bool
    requires segment { IsScaledSegment W.numbers s }
    requires point { IsScaledPoint W.numbers p }
    ensures { IsTrue result ↔ IsEnd W.numbers.ring s.from s.to p }
{
    is_same(p, s.from) || is_same(p, s.to)
}

/// Whether a point is an end of both segments.
fn is_end_of_both<W: Whole>(s: Segment<W>, t: Segment<W>, p: Point<W>) -> bool
    requires first { IsScaledSegment W.numbers s }
    requires second { IsScaledSegment W.numbers t }
    requires point { IsScaledPoint W.numbers p }
    ensures { IsTrue result ↔ (IsEnd W.numbers.ring s.from s.to p × IsEnd W.numbers.ring t.from t.to p) }
{
    is_end(s, p) && is_end(t, p)
}

/// Whether both orders are `Less` or both are `Greater`.
fn are_one_way(first: Ordering, second: Ordering) -> bool
    ensures { IsTrue result ↔ AreOneWay first second }
{
    match first {
        Ordering::Less => second == Ordering::Less,
        Ordering::Equal => false,
        Ordering::Greater => second == Ordering::Greater,
    }
}

/// Whether a point stands between two others on their line, by its side and the orders of the three.
fn is_between(side: Ordering, first: Ordering, second: Ordering) -> bool
    ensures { IsTrue result ↔ ((side ≡ Equal) × AreOneWay first second) }
{
    side == Ordering::Equal && are_one_way(first, second)
}

/// Whether a point lies on a segment whose ends differ, and isn't an end of it.
fn lies_inside<W: Whole>(p: Point<W>, s: Segment<W>) -> bool
    requires segment { IsScaledSegment W.numbers s }
    requires proper { IsProper W.numbers.ring s }
    requires point { IsScaledPoint W.numbers p }
    ensures { IsTrue result ↔ (IsOn W.numbers.ring s.from s.to p × ¬ IsEnd W.numbers.ring s.from s.to p) }
{
    let side = orient(s.from, s.to, p);
    let first = compare_points(s.from, p);
    let second = compare_points(p, s.to);
    is_between(side, first, second)
}

/// The same where the ends of the segment may be one point.
fn lies_beside_ends<W: Whole>(p: Point<W>, s: Segment<W>) -> bool
    requires segment { IsScaledSegment W.numbers s }
    requires point { IsScaledPoint W.numbers p }
    ensures { IsTrue result ↔ (IsOn W.numbers.ring s.from s.to p × ¬ IsEnd W.numbers.ring s.from s.to p) }
{
    if is_same(s.from, s.to) {
        false
    } else {
        lies_inside(p, s)
    }
}

/// Whether two segments whose ends differ have a common point that isn't an end of both.
fn proper_meet_beside<W: Whole, L: Ledger>(
    s: Segment<W>,
    t: Segment<W>,
    steps: &mut Steps<L>,
) -> bool
    requires first { IsScaledSegment W.numbers s }
    requires second { IsScaledSegment W.numbers t }
    requires first_proper { IsProper W.numbers.ring s }
    requires second_proper { IsProper W.numbers.ring t }
    ensures meet { OnTrue result (MeetBeside W.numbers.ring s t) }
    ensures none { OnFalse result (¬ MeetBeside W.numbers.ring s t) }
{
    match meet(s, t, steps) {
        Meet::Apart => false,
        Meet::Touches(point) => !is_end_of_both(s, t, point),
        Meet::Crosses(_) => true,
        Meet::Along(_, _) => true,
    }
}

/// Whether two segments have a common point that isn't an end of both. The ends of each may be one point.
pub fn meet_beside<W: Whole, L: Ledger>(s: Segment<W>, t: Segment<W>, steps: &mut Steps<L>) -> bool
    requires first { IsScaledSegment W.numbers s }
    requires second { IsScaledSegment W.numbers t }
    ensures meet { OnTrue result (MeetBeside W.numbers.ring s t) }
    ensures none { OnFalse result (¬ MeetBeside W.numbers.ring s t) }
{
    if is_same(s.from, s.to) {
        lies_beside_ends(s.from, t)
    } else if is_same(t.from, t.to) {
        lies_beside_ends(t.from, s)
    } else {
        proper_meet_beside(s, t, steps)
    }
}
