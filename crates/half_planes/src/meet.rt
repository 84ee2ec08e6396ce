ghost use Rattle.std.specs.Prelude.{◌≡◌, All, IsTrue, ◌↔◌, ◌<◌, length, slice_get, Some};
ghost use Rattle.scaled_plane.specs.Sizes.{IsLineSize};
ghost use Rattle.half_planes.specs.HalfPlanes.{HalfPlanesMeet, IsFormed};
ghost use Rattle.half_planes.specs.Bounds.{Leaves};
ghost use Rattle.half_planes.specs.Elimination.{AsksWith, Clears, IsShadow};
ghost use Rattle.half_planes.specs.Intervals.{LiesWithin};

use crate::bound::{bound_under, level_bound};
use crate::interval::Interval;
use crate::lines::Lines;
use exact_number::Whole;
use plane::Line;
use std::cmp::Ordering;

/// Whether some point lies in all the open half-planes, of lines that each lead from one scaled point to another. It
/// eliminates y over pairs of lines, and then x by the tightest bounds found so far.
pub fn meet_inside<L: Lines>(lines: &L) -> bool
    requires { All (IsFormed L.Ring.numbers) (L.lines lines.now) }
    ensures { IsTrue result ↔ HalfPlanesMeet L.Ring.numbers.ring (L.lines lines.now) }
{
    shadow(lines).is_some()
}

/// The numbers x that some point in all the half-planes has.
fn shadow<L: Lines>(lines: &L) -> Option<Interval<L::Ring>>
    requires { All (IsFormed L.Ring.numbers) (L.lines lines.now) }
    ensures { Leaves L.Ring.numbers.ring (λ i p. LiesWithin L.Ring.numbers.ring i p)
        (λ p. IsShadow L.Ring.numbers.ring (L.lines lines.now) p) result }
{
    let mut room = Interval::whole();
    for place in 0..lines.count() {
        let line = small_line(lines, place);
        room = clear(lines, line, room)?;
    }
    Some(room)
}

/// The line at a place, whose numbers are small since it leads through scaled points.
pub fn small_line<L: Lines>(lines: &L, place: u32) -> Line<L::Ring>
    requires within { place < length (L.lines lines.now) }
    requires formed { All (IsFormed L.Ring.numbers) (L.lines lines.now) }
    ensures value { slice_get (L.lines lines.now) place ≡ Some result }
    ensures size { IsLineSize L.Ring.pair result }
{
    lines.line(place)
}

/// The numbers of `room` that meet what `line` asks, alone and with each of the lines.
fn clear<L: Lines>(
    lines: &L,
    line: Line<L::Ring>,
    room: Interval<L::Ring>,
) -> Option<Interval<L::Ring>>
    requires formed { All (IsFormed L.Ring.numbers) (L.lines lines.now) }
    requires small { IsLineSize L.Ring.pair line }
    ensures { Leaves L.Ring.numbers.ring (λ i p. LiesWithin L.Ring.numbers.ring i p)
        (λ p. LiesWithin L.Ring.numbers.ring room p × Clears L.Ring.numbers.ring (L.lines lines.now) line p) result }
{
    match line.b.sign() {
        Ordering::Less => Some(room),
        Ordering::Equal => room.narrow(level_bound(line)),
        Ordering::Greater => clear_each(lines, line, room),
    }
}

/// The numbers of `room` that meet what `line`, a bound on y from below, asks with each of the lines.
fn clear_each<L: Lines>(
    lines: &L,
    line: Line<L::Ring>,
    room: Interval<L::Ring>,
) -> Option<Interval<L::Ring>>
    requires formed { All (IsFormed L.Ring.numbers) (L.lines lines.now) }
    requires small { IsLineSize L.Ring.pair line }
    ensures { Leaves L.Ring.numbers.ring (λ i p. LiesWithin L.Ring.numbers.ring i p)
        (λ p. LiesWithin L.Ring.numbers.ring room p × All (λ u. AsksWith L.Ring.numbers.ring line u p) (L.lines lines.now)) result }
{
    let mut room = room;
    for place in 0..lines.count() {
        let upper = small_line(lines, place);
        room = clear_pair(line, upper, room)?;
    }
    Some(room)
}

/// The numbers of `room` that meet what two lines ask, of which the first bounds y from below.
fn clear_pair<W: Whole>(line: Line<W>, upper: Line<W>, room: Interval<W>) -> Option<Interval<W>>
    requires first { IsLineSize W.pair line }
    requires second { IsLineSize W.pair upper }
    ensures { Leaves W.numbers.ring (λ i p. LiesWithin W.numbers.ring i p)
        (λ p. LiesWithin W.numbers.ring room p × AsksWith W.numbers.ring line upper p) result }
{
    match upper.b.sign() {
        Ordering::Less => room.narrow(bound_under(line, upper)),
        Ordering::Equal => Some(room),
        Ordering::Greater => Some(room),
    }
}
