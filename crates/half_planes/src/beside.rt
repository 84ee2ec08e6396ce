ghost use Rattle.std.specs.Prelude.{◌≡◌, ◌<◌, IsTrue, ◌↔◌, MatchOption, length};
ghost use Rattle.std.specs.declared.cmp.Ordering.{Ordering as AnyOrdering};
ghost use Rattle.fold_base.specs.declared.letter.Letter.TheVariants.{Cut};
ghost use Rattle.plane.specs.Points.{IsSamePoint};
ghost use Rattle.layers.specs.Folded.{IsConvex};
ghost use Rattle.layers.specs.Listing.{AreBeside};
ghost use Rattle.scaled_plane.specs.Drawn.{IsScaledPoint};
ghost use Rattle.half_planes.specs.Faces.{InsideLiesOn};
ghost use Rattle.half_planes.specs.Sides.{one_side};
ghost use Rattle.half_planes.specs.Views.{edge_at};

use crate::face::FaceView;
use crate::sheet::SheetView;
use crate::sheet_edge::edge_ends;
use crate::sheet_face::SheetFace;
use plane::Point;
use scaled_plane::orient;
use std::cmp::Ordering;

/// Whether the insides of two faces of a sheet lie on one side of a folded edge's line.
pub fn are_beside<S: SheetView>(sheet: &S, edge: u32, first: u32, second: u32) -> bool
    requires edge { edge < length (S.sheet sheet.now).edges }
    requires uncut { ¬ ((edge_at (S.sheet sheet.now) edge).letter ≡ Cut) }
    requires first { first < length (S.sheet sheet.now).faces }
    requires second { second < length (S.sheet sheet.now).faces }
    ensures { IsTrue result ↔ AreBeside S.Ring.numbers.ring (S.sheet sheet.now) edge first second }
{
    let (from, to) = edge_ends(sheet, edge);
    match inside_side(from, to, &SheetFace::new(sheet, first)) {
        None => false,
        Some(side) => inside_side(from, to, &SheetFace::new(sheet, second)) == Some(side),
    }
}

/// The side of the line from one point to another on which the inside of a face lies. There's none where the line goes through
/// the inside. The corners tell: those that aren't on the line are on the inside's side.
fn inside_side<F: FaceView>(from: Point<F::Ring>, to: Point<F::Ring>, face: &F) -> Option<Ordering>
    requires first { IsScaledPoint F.Ring.numbers from }
    requires second { IsScaledPoint F.Ring.numbers to }
    requires proper { ¬ IsSamePoint F.Ring.numbers.ring from to }
    requires convex { IsConvex F.Ring.numbers.ring (F.face face.now) }
    ensures { MatchOption result ((s : AnyOrdering) → ¬ InsideLiesOn F.Ring.numbers.ring from to (F.face face.now) s)
        (λ s. InsideLiesOn F.Ring.numbers.ring from to (F.face face.now) s) }
{
    let mut side = Ordering::Equal;
    for place in 0..face.corner_count() {
        side = one_side(side, orient(from, to, face.corner(place)))?;
    }
    Some(side)
}

/// The side on which two points are, of which each is on a side or on the line. There's none where they are on different sides.
fn one_side(first: Ordering, second: Ordering) -> Option<Ordering>
    ensures { result ≡ one_side first second }
{
    if first == Ordering::Equal || first == second {
        Some(second)
    } else if second == Ordering::Equal {
        Some(first)
    } else {
        None
    }
}
