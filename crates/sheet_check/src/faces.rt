ghost use Rattle.std.specs.Prelude.{◌≡◌, ◌<◌, ◌≤◌, ◌^◌, ℕ, All, Contains, IfErr, OnOk, length};
ghost use Rattle.face_walks.specs.Fitting.{AreFacesWithin};
ghost use Rattle.flat_fold.specs.EdgeSides.{HasPieces};
ghost use Rattle.flat_fold.specs.Faces.{corners_at};
ghost use Rattle.scaled_plane.specs.Drawn.{IsScaledPoint};
ghost use Rattle.scaled_plane.specs.Walks.{AreFaces, IsOuterWalk};
ghost use Rattle.sheet_check.specs.Listed.{AreRight, OwnPieces};
ghost use Rattle.sheet_check.specs.Passed.{HasNoneBefore, IsRefusal};
ghost use Rattle.sheet_check.specs.Spans.{AreInRange};

use crate::borders::first_wrong_border;
use crate::convex::first_bent;
use crate::fault::SheetFault;
use crate::listing::{Listing, list_all};
use crate::pinch::least_twice;
use crate::sever::{first_other, labels_of};
use exact_number::Whole;
use face_walks::Walks;
use flat_fold::{Pieces, pieces_of};
use plane::Point;
use scaled_plane::{Edge, Face, SheetFlaw};
use std::alloc::Global;

/// Whether the faces go round the face walks, each round one of its own, and round all.
fn check_walks<W: Whole>(
    alloc: Global,
    points: &[Point<W>],
    edges: &[Edge],
    faces: &[Face],
    walks: &[Face],
) -> Result<(), SheetFault>
    requires few_faces { length faces.now ≤ 512 }
    requires walked { AreFaces W.numbers.ring points.now edges.now walks.now }
    requires within { AreFacesWithin (length points.now) walks.now }
    requires before { HasNoneBefore W.numbers.ring points.now edges.now faces.now 5 }
    ensures right { OnOk result (AreRight walks.now faces.now) }
    ensures passed { OnOk result (HasNoneBefore W.numbers.ring points.now edges.now faces.now 7) }
    ensures refused { IfErr result (IsRefusal W.numbers.ring points.now edges.now faces.now) }
{
    match list_all(alloc, walks, faces)? {
        Listing::Wrong(face) => Err(SheetFault::Flaw(SheetFlaw::FaceWrong { face })),
        Listing::Missing(walk) => {
            let corners = walks[walk].corners.as_slice();
            let from = corners[0];
            let to = corners[1];
            Err(SheetFault::Flaw(SheetFlaw::FaceMissing { from, to }))
        }
        Listing::Complete => Ok(()),
    }
}

/// Whether each face is convex, and whether the edges with the letter B are those with one face.
fn check_shapes<W: Whole>(
    points: &[Point<W>],
    edges: &[Edge],
    faces: &[Face],
    pieces: &Pieces,
) -> Result<(), SheetFault>
    requires scaled { All (IsScaledPoint W.numbers) points.now }
    requires corners { (f z : ℕ) → Contains (corners_at faces.now f) z → z < length points.now }
    requires few_faces { length faces.now ≤ 512 }
    requires few_edges { length edges.now ≤ 2048 }
    requires own { OwnPieces faces.now }
    requires known { HasPieces faces.now (length faces.now) 0 pieces.now }
    requires before { HasNoneBefore W.numbers.ring points.now edges.now faces.now 7 }
    ensures passed { OnOk result (HasNoneBefore W.numbers.ring points.now edges.now faces.now 9) }
    ensures refused { IfErr result (IsRefusal W.numbers.ring points.now edges.now faces.now) }
{
    match first_bent(points, faces) {
        Some((face, vertex)) => {
            return Err(SheetFault::Flaw(SheetFlaw::NotConvex { face, vertex }));
        }
        None => {}
    }
    match first_wrong_border(pieces, edges) {
        Some(edge) => Err(SheetFault::Flaw(SheetFlaw::BorderWrong { edge: edge as u32 })),
        None => Ok(()),
    }
}

/// Whether the outer walk meets no vertex twice, and whether all faces hang together.
fn check_whole<W: Whole>(
    alloc: Global,
    points: &[Point<W>],
    edges: &[Edge],
    faces: &[Face],
    outer: &[u32],
    pieces: &Pieces,
) -> Result<(), SheetFault>
    requires ends { AreInRange (length points.now) edges.now }
    requires few_faces { length faces.now ≤ 512 }
    requires outer { IsOuterWalk W.numbers.ring points.now edges.now outer.now }
    requires own { OwnPieces faces.now }
    requires known { HasPieces faces.now (length faces.now) 0 pieces.now }
    requires before { HasNoneBefore W.numbers.ring points.now edges.now faces.now 9 }
    ensures passed { OnOk result (HasNoneBefore W.numbers.ring points.now edges.now faces.now 11) }
    ensures refused { IfErr result (IsRefusal W.numbers.ring points.now edges.now faces.now) }
{
    match least_twice(alloc, outer, points.len())? {
        Some(vertex) => return Err(SheetFault::Flaw(SheetFlaw::Pinched { vertex })),
        None => {}
    }
    let labels = labels_of(alloc, pieces, edges, faces.len())?;
    match first_other(labels.as_slice()) {
        Some(face) => Err(SheetFault::Flaw(SheetFlaw::Severed { face: face as u32 })),
        None => Ok(()),
    }
}

/// Whether faces are those of a sheet: the lines of the table from the first of faces on.
pub fn check_faces<W: Whole>(
    alloc: Global,
    points: &[Point<W>],
    edges: &[Edge],
    faces: &[Face],
    walks: &Walks,
) -> Result<(), SheetFault>
    requires scaled { All (IsScaledPoint W.numbers) points.now }
    requires ends { AreInRange (length points.now) edges.now }
    requires few_edges { length edges.now ≤ 2048 }
    requires few_faces { length faces.now ≤ 512 }
    requires walked { AreFaces W.numbers.ring points.now edges.now walks.now.faces }
    requires outer { IsOuterWalk W.numbers.ring points.now edges.now walks.now.outer.corners }
    requires within { AreFacesWithin (length points.now) walks.now.faces }
    requires before { HasNoneBefore W.numbers.ring points.now edges.now faces.now 5 }
    ensures passed { OnOk result (HasNoneBefore W.numbers.ring points.now edges.now faces.now 11) }
    ensures refused { IfErr result (IsRefusal W.numbers.ring points.now edges.now faces.now) }
{
    check_walks(alloc, points, edges, faces, walks.faces.as_slice())?;
    let pieces = pieces_of(alloc, faces)?;
    check_shapes(points, edges, faces, &pieces)?;
    check_whole(
        alloc,
        points,
        edges,
        faces,
        walks.outer.corners.as_slice(),
        &pieces,
    )
}
