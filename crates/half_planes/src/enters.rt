ghost use Rattle.std.specs.Prelude.{All, IsTrue, ◌↔◌};
ghost use Rattle.scaled_plane.specs.Drawn.{IsScaledPoint};
ghost use Rattle.half_planes.specs.HalfPlanes.{Enters, IsFormed};
ghost use Rattle.half_planes.specs.Bounds.{Leaves};
ghost use Rattle.half_planes.specs.Along.{IsInside};
ghost use Rattle.half_planes.specs.Intervals.{LiesWithin};

use crate::bound::{above_zero, bound_along};
use crate::interval::Interval;
use crate::lines::Lines;
use crate::meet::small_line;
use plane::Point;

/// Whether some point of a segment other than its ends lies in all the open half-planes.
pub fn segment_enters<L: Lines>(from: Point<L::Ring>, to: Point<L::Ring>, lines: &L) -> bool
    requires first { IsScaledPoint L.Ring.numbers from }
    requires second { IsScaledPoint L.Ring.numbers to }
    requires formed { All (IsFormed L.Ring.numbers) (L.lines lines.now) }
    ensures { IsTrue result ↔ Enters L.Ring.numbers.ring from to (L.lines lines.now) }
{
    places_inside(from, to, lines).is_some()
}

/// The s/t of the points s·from + t·to between two points that lie in all the half-planes.
fn places_inside<L: Lines>(
    from: Point<L::Ring>,
    to: Point<L::Ring>,
    lines: &L,
) -> Option<Interval<L::Ring>>
    requires first { IsScaledPoint L.Ring.numbers from }
    requires second { IsScaledPoint L.Ring.numbers to }
    requires formed { All (IsFormed L.Ring.numbers) (L.lines lines.now) }
    ensures { Leaves L.Ring.numbers.ring (λ i p. LiesWithin L.Ring.numbers.ring i p)
        (λ p. IsInside L.Ring.numbers.ring from to (L.lines lines.now) p) result }
{
    let whole = Interval::whole();
    let mut room = whole.narrow(above_zero())?;
    for place in 0..lines.count() {
        let line = small_line(lines, place);
        room = room.narrow(bound_along(line, from, to))?;
    }
    Some(room)
}
