ghost use Rattle.std.specs.Prelude.{◌≡◌, ◌<◌, IsTrue, ◌↔◌, length};
ghost use Rattle.fold_base.specs.declared.letter.Letter.TheVariants.{Cut};
ghost use Rattle.plane.specs.Points.{IsSamePoint};
ghost use Rattle.layers.specs.Folded.{IsFolded};
ghost use Rattle.layers.specs.Listing.{EdgeEnters, RunTogether};
ghost use Rattle.scaled_plane.specs.Drawn.{IsScaledPoint};
ghost use Rattle.half_planes.specs.Views.{edge_at, LiesAs};

use crate::face::place_after;
use crate::overlap::segment_enters_face;
use crate::sheet::SheetView;
use crate::sheet_face::SheetFace;
use crate::together::segments_run_together;
use plane::Point;

/// The ends of a folded edge, in the order in which the first of its faces has them.
pub fn edge_ends<S: SheetView>(sheet: &S, edge: u32) -> (Point<S::Ring>, Point<S::Ring>)
    requires within { edge < length (S.sheet sheet.now).edges }
    requires uncut { ¬ ((edge_at (S.sheet sheet.now) edge).letter ≡ Cut) }
    ensures lies { LiesAs S.Ring.numbers.ring (S.sheet sheet.now) edge (record { from = result.0; to = result.1 }) }
    ensures from_scaled { IsScaledPoint S.Ring.numbers result.0 }
    ensures to_scaled { IsScaledPoint S.Ring.numbers result.1 }
    ensures proper { ¬ IsSamePoint S.Ring.numbers.ring result.0 result.1 }
    ensures folded { IsFolded S.Ring.numbers.ring (S.sheet sheet.now) }
{
    let side = sheet.sides(edge).first;
    let next = place_after(side.corner, sheet.corner_count(side.face));
    (
        sheet.corner(side.face, side.corner),
        sheet.corner(side.face, next),
    )
}

/// Whether a point of a folded edge other than its ends is inside a face.
pub fn edge_enters<S: SheetView>(sheet: &S, edge: u32, face: u32) -> bool
    requires edge { edge < length (S.sheet sheet.now).edges }
    requires uncut { ¬ ((edge_at (S.sheet sheet.now) edge).letter ≡ Cut) }
    requires face { face < length (S.sheet sheet.now).faces }
    ensures { IsTrue result ↔ EdgeEnters S.Ring.numbers.ring (S.sheet sheet.now) edge face }
{
    let (from, to) = edge_ends(sheet, edge);
    segment_enters_face(from, to, &SheetFace::new(sheet, face))
}

/// Whether two folded edges share more than one point.
pub fn edges_run_together<S: SheetView>(sheet: &S, first: u32, second: u32) -> bool
    requires first { first < length (S.sheet sheet.now).edges }
    requires first_uncut { ¬ ((edge_at (S.sheet sheet.now) first).letter ≡ Cut) }
    requires second { second < length (S.sheet sheet.now).edges }
    requires second_uncut { ¬ ((edge_at (S.sheet sheet.now) second).letter ≡ Cut) }
    ensures { IsTrue result ↔ RunTogether S.Ring.numbers.ring (S.sheet sheet.now) first second }
{
    segments_run_together(edge_ends(sheet, first), edge_ends(sheet, second))
}
