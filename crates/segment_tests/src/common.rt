ghost use Rattle.std.specs.Prelude.{◌≡◌, ◌+◌, IsTrue, ◌↔◌};
ghost use Rattle.plane.specs.Lines.{AreApart, side};
ghost use Rattle.std.specs.declared.cmp.Ordering.TheVariants.{Equal};
ghost use Rattle.scaled_plane.specs.Pieces.{IsProper};
ghost use Rattle.scaled_plane.specs.Drawn.{IsScaledSegment};
ghost use Rattle.segment_tests.specs.Meets.{CrossesInDrawn, IsMeet};

use crate::answer::Meet;
use crate::steps::Steps;
use crate::stretch::meet_along;
use exact_number::Whole;
use scaled_plane::{Segment, cross_point, orient};
use std::cmp::Ordering;
use std::sync::ledger::Ledger;

/// Whether a point lies on a line, by its side.
fn is_level(side: Ordering) -> bool
    ensures { IsTrue result ↔ (side ≡ Equal) }
{
    side == Ordering::Equal
}

/// Whether two points lie on a line, by their sides.
fn are_level(first: Ordering, second: Ordering) -> bool
    ensures { IsTrue result ↔ ((first ≡ Equal) × (second ≡ Equal)) }
{
    is_level(first) && is_level(second)
}

/// Whether two points aren't strictly on one side of a line, by their sides.
fn are_apart(first: Ordering, second: Ordering) -> bool
    ensures { IsTrue result ↔ AreApart first second }
{
    match first {
        Ordering::Less => second != Ordering::Less,
        Ordering::Equal => true,
        Ordering::Greater => second != Ordering::Greater,
    }
}

/// The one point of two segments that meet, by the sides of the ends of each of the other's line.
fn meet_in_point<W: Whole>(
    s: Segment<W>,
    t: Segment<W>,
    sides: (Ordering, Ordering),
    back: (Ordering, Ordering),
) -> Meet<W>
    requires first { IsScaledSegment W.numbers s }
    requires second { IsScaledSegment W.numbers t }
    requires from_is { sides.0 ≡ side W.numbers.ring s.from s.to t.from }
    requires to_is { sides.1 ≡ side W.numbers.ring s.from s.to t.to }
    requires back_from_is { back.0 ≡ side W.numbers.ring t.from t.to s.from }
    requires back_to_is { back.1 ≡ side W.numbers.ring t.from t.to s.to }
    requires not_along { ¬ ((sides.0 ≡ Equal) × (sides.1 ≡ Equal)) }
    requires apart { AreApart sides.0 sides.1 }
    requires back_apart { AreApart back.0 back.1 }
    ensures { IsMeet W.numbers.ring s t result }
{
    if is_level(sides.0) {
        Meet::Touches(t.from)
    } else if is_level(sides.1) {
        Meet::Touches(t.to)
    } else if is_level(back.0) {
        Meet::Touches(s.from)
    } else if is_level(back.1) {
        Meet::Touches(s.to)
    } else {
        Meet::Crosses(cross_point(s, t))
    }
}

/// The common points of two segments that don't lie along one line.
fn meet_across<W: Whole>(s: Segment<W>, t: Segment<W>, sides: (Ordering, Ordering)) -> Meet<W>
    requires first { IsScaledSegment W.numbers s }
    requires second { IsScaledSegment W.numbers t }
    requires from_is { sides.0 ≡ side W.numbers.ring s.from s.to t.from }
    requires to_is { sides.1 ≡ side W.numbers.ring s.from s.to t.to }
    requires not_along { ¬ ((sides.0 ≡ Equal) × (sides.1 ≡ Equal)) }
    ensures { IsMeet W.numbers.ring s t result }
{
    if !are_apart(sides.0, sides.1) {
        return Meet::Apart;
    }
    let back = (orient(t.from, t.to, s.from), orient(t.from, t.to, s.to));
    if !are_apart(back.0, back.1) {
        return Meet::Apart;
    }
    meet_in_point(s, t, sides, back)
}

fn meeting<W: Whole>(s: Segment<W>, t: Segment<W>) -> Meet<W>
    requires first { IsScaledSegment W.numbers s }
    requires second { IsScaledSegment W.numbers t }
    requires first_proper { IsProper W.numbers.ring s }
    requires second_proper { IsProper W.numbers.ring t }
    ensures { IsMeet W.numbers.ring s t result }
{
    let sides = (orient(s.from, s.to, t.from), orient(s.from, s.to, t.to));
    if are_level(sides.0, sides.1) {
        meet_along(s, t)
    } else {
        meet_across(s, t, sides)
    }
}

/// The common points of two segments, at one step of the counter.
#[inline]
#[tactic(auto, using(crate::proofs::Drawing::crosses_in_drawn))]
pub fn meet<W: Whole, L: Ledger>(s: Segment<W>, t: Segment<W>, steps: &mut Steps<L>) -> Meet<W>
    requires first { IsScaledSegment W.numbers s }
    requires second { IsScaledSegment W.numbers t }
    requires first_proper { IsProper W.numbers.ring s }
    requires second_proper { IsProper W.numbers.ring t }
    ensures common { IsMeet W.numbers.ring s t result }
    ensures drawn { CrossesInDrawn W.numbers result }
    ensures counted { steps.new ≡ steps.old + 1 }
{
    steps.tick();
    meeting(s, t)
}
