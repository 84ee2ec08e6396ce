ghost use Rattle.std.specs.Prelude.{◌≡◌, ◌+◌, ◌<◌, ◌≤◌, length, map, Contains, IfOk, IfErr, OnOk, List as Listed};
ghost use Rattle.std.specs.List.{AllZip};
ghost use Rattle.std.specs.BTreeMap.{IsOrdered};
ghost use Rattle.plane.specs.declared.point.Point.{Point as AnyPoint};
ghost use Rattle.scaled_plane.specs.declared.point.Segment.{Segment as AnySegment};
ghost use Rattle.scaled_plane.specs.Counts.{tests_for};
ghost use Rattle.scaled_plane.specs.Drawn.{IsDrawn, IsScaledPoint, IsScaledSegment};
ghost use Rattle.scaled_plane.specs.Pieces.{AreLines, ArePieces, AreVertices, IsEndOfOne};
ghost use Rattle.scaled_plane.specs.WellSet.{IsWellSet};
ghost use Rattle.arrangement.specs.Covers.{IsEdgeOf, piece_order};

use crate::covers::{Cover, Covers};
use crate::cutting::cut_all;
use crate::fault::PieceFault;
use crate::vertex::Vertex;
use crate::vertices::find_vertices;
use exact_number::Whole;
use fold_base::List;
use plane::Point;
use scaled_plane::{Drawing, Edge, Segment};
use segment_tests::Steps;
use std::alloc::{AllocError, Global};
use std::sync::ledger::Ledger;

/// The points of vertices.
fn points_of<W: Whole>(alloc: Global, vertices: &[Vertex<W>]) -> Result<List<Point<W>>, AllocError>
    ensures { IfOk result (λ points. points ≡ map (λ v. v.point) vertices.now) }
{
    let mut points = List::with_room(alloc, vertices.len())?;
    for vertex in vertices {
        points.push(vertex.point)?;
    }
    Ok(points)
}

/// A piece as an edge.
fn edge_of(piece: (u32, u32), cover: Cover) -> Edge
    ensures { IsEdgeOf (piece, cover) result }
{
    Edge {
        from: piece.0,
        to: piece.1,
        letter: cover.letters.merged(),
    }
}

/// Pieces as edges, and their lines.
fn edges_of(alloc: Global, covers: &Covers) -> Result<(List<Edge>, List<(u32, u32)>), AllocError>
    ensures ordered { IsOrdered piece_order covers.now }
    ensures edges { IfOk result (λ r. AllZip IsEdgeOf covers.now.entries r.0) }
    ensures lines { IfOk result (λ r. r.1 ≡ map (λ e. e.1.line) covers.now.entries) }
{
    let mut edges = List::with_room(alloc, covers.len())?;
    let mut lines = List::with_room(alloc, covers.len())?;
    for (piece, cover) in covers {
        edges.push(edge_of(*piece, *cover))?;
        lines.push(cover.line)?;
    }
    Ok((edges, lines))
}

/// The drawing of segments with these vertices.
fn drawing_of<W: Whole>(
    alloc: Global,
    segments: &[Segment<W>],
    vertices: &[Vertex<W>],
) -> Result<Drawing<W>, AllocError>
    requires scaled { (s : AnySegment W) → Contains segments.now s → IsScaledSegment W.numbers s }
    requires vertices { AreVertices W.numbers.ring segments.now (map (λ v. v.point) vertices.now) }
    requires drawn { (p : AnyPoint W) → Contains (map (λ v. v.point) vertices.now) p → IsDrawn W.numbers p }
    requires scaled_ends { (p : AnyPoint W) → Contains (map (λ v. v.point) vertices.now) p
        → IsEndOfOne W.numbers.ring segments.now p → IsScaledPoint W.numbers p }
    requires few { length vertices.now ≤ 16384 }
    ensures same { IfOk result (λ d. d.vertices ≡ map (λ v. v.point) vertices.now) }
    ensures pieces { IfOk result (λ d. ArePieces W.numbers.ring segments.now d.vertices d.edges) }
    ensures lines { IfOk result (λ d. AreLines W.numbers.ring segments.now d.vertices d.edges d.lines) }
    ensures well_set { IfOk result (λ d. IsWellSet W.numbers d) }
{
    let covers = cut_all(alloc, segments, vertices)?;
    let points = points_of(alloc, vertices)?;
    let (edges, lines) = edges_of(alloc, &covers)?;
    Ok(Drawing {
        vertices: points,
        edges,
        lines,
    })
}

/// The vertices of segments and the pieces between them.
pub fn pieces<W: Whole, L: Ledger>(
    alloc: Global,
    segments: &List<Segment<W>>,
    steps: &mut Steps<L>,
) -> Result<Drawing<W>, PieceFault>
    requires { (s : AnySegment W) → Contains segments.now s → IsScaledSegment W.numbers s }
    ensures vertices { IfOk result (λ d. AreVertices W.numbers.ring segments.now d.vertices) }
    ensures pieces { IfOk result (λ d. ArePieces W.numbers.ring segments.now d.vertices d.edges) }
    ensures lines { IfOk result (λ d. AreLines W.numbers.ring segments.now d.vertices d.edges d.lines) }
    ensures well_set { IfOk result (λ d. IsWellSet W.numbers d) }
    // an end of a proper segment is itself the vertex, and not another vector of the point
    ensures scaled_ends { IfOk result (λ d. (p : AnyPoint W) → Contains d.vertices p
        → IsEndOfOne W.numbers.ring segments.now p → IsScaledPoint W.numbers p) }
    ensures within { IfOk result (λ d. length d.vertices ≤ 16384) }
    ensures too_many { IfErr result (λ e. e ≡ PieceFault.TooMany
        → (vertices : Listed (AnyPoint W)) → AreVertices W.numbers.ring segments.now vertices → 16384 < length vertices) }

    // one test for each pair of proper segments whose closed x-ranges share a number
    ensures counted { OnOk result (steps.new ≡ steps.old + tests_for W.numbers.ring segments.now) }
    ensures counted_at_most { (steps.old ≤ steps.new) × (steps.new ≤ steps.old + tests_for W.numbers.ring segments.now) }
{
    let vertices = find_vertices(alloc, segments.as_slice(), steps)?;
    let drawing = drawing_of(alloc, segments.as_slice(), &vertices)?;
    Ok(drawing)
}
