ghost use Rattle.std.specs.Prelude.{IsTrue, ◌↔◌, ◌+◌, ◌<◌, ◌^◌, length};
ghost use Rattle.plane.specs.Points.{IsSamePoint};
ghost use Rattle.scaled_plane.specs.Drawn.{IsScaledPoint};
ghost use Rattle.half_planes.specs.Faces.{EntersFace, InsidesMeet, RunTogether, ThreeInsidesMeet};

use crate::enters::segment_enters;
use crate::face::{Both, FaceLines, FaceView};
use crate::meet::meet_inside;
use plane::Point;

/// Whether the insides of two faces share a point.
pub fn insides_meet<F: FaceView, G: FaceView<Ring = F::Ring>>(first: &F, second: &G) -> bool
    requires few { length (F.face first.now).corners + length (G.face second.now).corners < 2 ^ 32 }
    ensures { IsTrue result ↔ InsidesMeet F.Ring.numbers.ring (F.face first.now) (G.face second.now) }
{
    let first = FaceLines { face: first };
    let second = FaceLines { face: second };
    meet_inside(&Both { first, second })
}

/// Whether the insides of three faces share a point.
pub fn three_insides_meet<F: FaceView, G: FaceView<Ring = F::Ring>, H: FaceView<Ring = F::Ring>>(
    first: &F,
    second: &G,
    third: &H,
) -> bool
    requires few { length (F.face first.now).corners
        + (length (G.face second.now).corners + length (H.face third.now).corners) < 2 ^ 32 }
    ensures { IsTrue result ↔ ThreeInsidesMeet F.Ring.numbers.ring (F.face first.now) (G.face second.now) (H.face third.now) }
{
    let first = FaceLines { face: first };
    let others = Both {
        first: FaceLines { face: second },
        second: FaceLines { face: third },
    };
    meet_inside(&Both {
        first,
        second: others,
    })
}

/// Whether a point of a segment other than its ends is inside a face.
pub fn segment_enters_face<F: FaceView>(from: Point<F::Ring>, to: Point<F::Ring>, face: &F) -> bool
    requires first { IsScaledPoint F.Ring.numbers from }
    requires second { IsScaledPoint F.Ring.numbers to }
    ensures { IsTrue result ↔ EntersFace F.Ring.numbers.ring from to (F.face face.now) }
{
    segment_enters(from, to, &FaceLines { face })
}
