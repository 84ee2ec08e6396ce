ghost use Rattle.std.specs.Prelude.{◌≡◌, List as Listed, IfErr, IfOk, OnOk, length, map};
ghost use Rattle.scaled_plane.specs.declared.drawing.Face.{Face as AnyFace};
ghost use Rattle.scaled_plane.specs.Walks.{AreFaces, IsOuter, IsOuterWalk};
ghost use Rattle.scaled_plane.specs.WellSet.{IsWellSet};
ghost use Rattle.face_walks.specs.Fitting.{AreFacesWithin};
ghost use Rattle.flat_fold.specs.Sheets.{drawing_of, own_line};
ghost use Rattle.sheet_check.specs.Passed.{HasNoneBefore, IsRefusal};

use crate::fault::SheetFault;
use exact_number::Whole;
use face_walks::{Walks, walks};
use fold_base::List;
use plane::Point;
use scaled_plane::{Drawing, Edge, SheetFlaw};
use std::alloc::{AllocError, Global};

/// For each edge its own ends, as two vertices whose line it lies on.
fn own_lines(alloc: Global, edges: &[Edge]) -> Result<Vec<(u32, u32)>, AllocError>
    ensures { IfOk result (λ lines. lines.items ≡ map own_line edges.now) }
{
    edges.iter().map(|edge| (edge.from, edge.to)).collect(alloc)
}

/// The drawing of vertices and edges, each edge on the line through its own ends.
pub fn drawing_with<W: Whole>(
    alloc: Global,
    vertices: List<Point<W>>,
    edges: &[Edge],
) -> Result<Drawing<W>, AllocError>
    ensures { IfOk result (λ drawing. drawing ≡ drawing_of vertices edges.now) }
{
    let lines = own_lines(alloc, edges)?;
    let edges = List::from_slice(alloc, edges)?;
    Ok(Drawing {
        vertices,
        edges,
        lines: List::from_vec(lines),
    })
}

/// The walks of a plane drawing whose vertices are all joined.
fn walks_of<W: Whole>(alloc: Global, drawing: &Drawing<W>) -> Result<Walks, SheetFault>
    requires well_set { IsWellSet W.numbers drawing.now }
    requires before { (faces : Listed AnyFace) → HasNoneBefore W.numbers.ring drawing.now.vertices drawing.now.edges faces 3 }
    ensures walked { IfOk result (λ w. AreFaces W.numbers.ring drawing.now.vertices drawing.now.edges w.faces) }
    ensures outer { IfOk result (λ w. IsOuter W.numbers.ring drawing.now.vertices drawing.now.edges w.outer) }
    ensures within { IfOk result (λ w. AreFacesWithin (length drawing.now.vertices) w.faces) }
    ensures passed { OnOk result ((faces : Listed AnyFace) → HasNoneBefore W.numbers.ring drawing.now.vertices drawing.now.edges faces 4) }
    ensures refused { IfErr result (λ e. (faces : Listed AnyFace) → IsRefusal W.numbers.ring drawing.now.vertices drawing.now.edges faces e) }
{
    let walks = walks(alloc, drawing)?;
    Ok(walks)
}

/// The walks of a plane drawing whose vertices are all joined and that has a face.
pub fn walks_joined<W: Whole>(alloc: Global, drawing: &Drawing<W>) -> Result<Walks, SheetFault>
    requires well_set { IsWellSet W.numbers drawing.now }
    requires before { (faces : Listed AnyFace) → HasNoneBefore W.numbers.ring drawing.now.vertices drawing.now.edges faces 3 }
    ensures walked { IfOk result (λ w. AreFaces W.numbers.ring drawing.now.vertices drawing.now.edges w.faces) }
    ensures outer { IfOk result (λ w. IsOuterWalk W.numbers.ring drawing.now.vertices drawing.now.edges w.outer.corners) }
    ensures within { IfOk result (λ w. AreFacesWithin (length drawing.now.vertices) w.faces) }
    ensures passed { OnOk result ((faces : Listed AnyFace) → HasNoneBefore W.numbers.ring drawing.now.vertices drawing.now.edges faces 5) }
    ensures refused { IfErr result (λ e. (faces : Listed AnyFace) → IsRefusal W.numbers.ring drawing.now.vertices drawing.now.edges faces e) }
{
    let walks = walks_of(alloc, drawing)?;
    if walks.faces.is_empty() {
        return Err(SheetFault::Flaw(SheetFlaw::EmptySheet));
    }
    Ok(walks)
}
