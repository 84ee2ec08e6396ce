ghost use Rattle.std.specs.Prelude.{◌≡◌, ◌<◌, IsTrue, ◌↔◌};
ghost use Rattle.plane.specs.Points.{IsSamePoint};
ghost use Rattle.scaled_plane.specs.Drawn.{IsScaledPoint, IsScaledSegment};
ghost use Rattle.scaled_plane.specs.Pieces.{IsProper};
ghost use Rattle.half_planes.specs.Faces.{RunTogether};

use exact_number::Whole;
use fold_base::Letter;
use plane::Point;
use scaled_plane::Segment;
use segment_tests::{Meet, Steps, meet};
use std::marker::Brand;
use std::sync::ledger::{Blank, Ledger};

/// Whether two segments, each with two ends, share more than one point.
pub fn segments_run_together<W: Whole>(
    first: (Point<W>, Point<W>),
    second: (Point<W>, Point<W>),
) -> bool
    requires first_from { IsScaledPoint W.numbers first.0 }
    requires first_to { IsScaledPoint W.numbers first.1 }
    requires second_from { IsScaledPoint W.numbers second.0 }
    requires second_to { IsScaledPoint W.numbers second.1 }
    requires first_proper { ¬ IsSamePoint W.numbers.ring first.0 first.1 }
    requires second_proper { ¬ IsSamePoint W.numbers.ring second.0 second.1 }
    ensures { IsTrue result ↔ RunTogether W.numbers.ring first.0 first.1 second.0 second.1 }
{
    // what letters they have doesn't matter
    let letter = Letter::Unassigned;
    let (from, to) = first;
    let first = Segment { from, to, letter };
    let (from, to) = second;
    let second = Segment { from, to, letter };
    share_stretch::<W, Brand>(Blank::new(1), first, second)
}

/// Whether two segments share more than one point. The counter of steps is dropped.
fn share_stretch<W: Whole, L: Ledger>(blank: Blank, first: Segment<W>, second: Segment<W>) -> bool
    requires first_scaled { IsScaledSegment W.numbers first }
    requires second_scaled { IsScaledSegment W.numbers second }
    requires first_proper { IsProper W.numbers.ring first }
    requires second_proper { IsProper W.numbers.ring second }
    requires name { blank.name ≡ L.name }
    requires parts { blank.parts ≡ L.parts }
    requires some { 0 < L.parts }
    ensures { IsTrue result ↔ RunTogether W.numbers.ring first.from first.to second.from second.to }
{
    let mut steps: Steps<L> = Steps::new(blank);
    match meet(first, second, &mut steps) {
        Meet::Apart => false,
        Meet::Touches(_) => false,
        Meet::Crosses(_) => false,
        Meet::Along(_, _) => true,
    }
}
