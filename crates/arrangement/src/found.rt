ghost use Rattle.std.specs.Prelude.{◌≡◌, ◌≤◌, length, map, All, Contains, IfOk, OnOk, IfErr};
ghost use Rattle.std.specs.List.Sorted.{IsStrictlySortedBy};
ghost use Rattle.plane.specs.Points.{IsPoint, point_order};
ghost use Rattle.scaled_plane.specs.Sizes.{IsDrawnSize};
ghost use Rattle.scaled_plane.specs.declared.point.Segment.{Segment as AnySegment};
ghost use Rattle.arrangement.specs.Found.{Grows, Has, HasEnds, IsEndIn, IsOneEndOf, IsTooMany, IsUsable};
ghost use Rattle.arrangement.specs.Spans.{IsSpan};

use crate::fault::PieceFault;
use crate::span::Span;
use crate::vertex::{Vertex, vertex_at};
use exact_number::Whole;
use plane::Point;
use scaled_plane::Segment;
use std::alloc::{AllocError, Global};
use std::collections::BTreeSet;

/// A drawing has no more vertices.
const MOST_VERTICES: usize = 16_384;

/// Adds a point, if none of its vectors is there.
pub fn add<W: Whole>(found: &mut BTreeSet<Vertex<W>>, point: Point<W>) -> Result<(), AllocError>
    requires point { IsPoint W.numbers.ring point }
    requires within { IsDrawnSize W.pair point }
    ensures grows { Grows W.numbers.ring (λ p. p ≡ point) (map (λ v. v.point) found.old.keys) (map (λ v. v.point) found.new.keys) }
    ensures has { OnOk result (Has W.numbers.ring (map (λ v. v.point) found.new.keys) point) }
    ensures sorted { IsStrictlySortedBy (point_order W.numbers.ring) (map (λ v. v.point) found.new.keys) }
{
    found.insert(vertex_at(point))?;
    Ok(())
}

/// Adds a point, unless there are too many then.
pub fn add_few<W: Whole>(found: &mut BTreeSet<Vertex<W>>, point: Point<W>) -> Result<(), PieceFault>
    requires point { IsPoint W.numbers.ring point }
    requires within { IsDrawnSize W.pair point }
    ensures grows { Grows W.numbers.ring (λ p. p ≡ point) (map (λ v. v.point) found.old.keys) (map (λ v. v.point) found.new.keys) }
    ensures has { OnOk result (Has W.numbers.ring (map (λ v. v.point) found.new.keys) point) }
    ensures few { OnOk result (length found.new.keys ≤ 16384) }
    ensures too_many { IfErr result (λ e. e ≡ PieceFault.TooMany → IsTooMany W.numbers.ring (map (λ v. v.point) found.new.keys)) }
{
    add(found, point)?;
    if found.len() > MOST_VERTICES {
        return Err(PieceFault::TooMany);
    }
    Ok(())
}

/// Adds both ends of a segment, unless there are too many points then.
fn add_both<W: Whole>(found: &mut BTreeSet<Vertex<W>>, s: Segment<W>) -> Result<(), PieceFault>
    requires { IsUsable W.numbers s }
    ensures grows { Grows W.numbers.ring (IsOneEndOf W.numbers.ring s) (map (λ v. v.point) found.old.keys) (map (λ v. v.point) found.new.keys) }
    ensures has { OnOk result (HasEnds W.numbers.ring (map (λ v. v.point) found.new.keys) s) }
    ensures few { OnOk result (length found.new.keys ≤ 16384) }
    ensures too_many { IfErr result (λ e. e ≡ PieceFault.TooMany → IsTooMany W.numbers.ring (map (λ v. v.point) found.new.keys)) }
{
    add_few(found, s.from)?;
    add_few(found, s.to)
}

/// Adds the ends of all segments, unless there are too many points then.
pub fn add_ends<W: Whole>(
    found: &mut BTreeSet<Vertex<W>>,
    spans: &[Span<W>],
) -> Result<(), PieceFault>
    requires spans { All (λ s. IsSpan W.numbers s.segment s.left.point s.right.point) spans.now }
    requires few { length found.old.keys ≤ 16384 }
    ensures grows { Grows W.numbers.ring (IsEndIn W.numbers.ring (map (λ s. s.segment) spans.now)) (map (λ v. v.point) found.old.keys) (map (λ v. v.point) found.new.keys) }
    ensures has { OnOk result ((s : AnySegment W) → Contains (map (λ s. s.segment) spans.now) s → HasEnds W.numbers.ring (map (λ v. v.point) found.new.keys) s) }
    ensures few { OnOk result (length found.new.keys ≤ 16384) }
    ensures too_many { IfErr result (λ e. e ≡ PieceFault.TooMany → IsTooMany W.numbers.ring (map (λ v. v.point) found.new.keys)) }
{
    for span in spans {
        add_both(found, span.segment)?;
    }
    Ok(())
}

/// The vertices in their order.
pub fn vertices_of<W: Whole>(
    alloc: Global,
    found: BTreeSet<Vertex<W>>,
) -> Result<Vec<Vertex<W>>, AllocError>
    ensures same { IfOk result (λ vertices. vertices.items ≡ found.keys) }
    ensures sorted { OnOk result (IsStrictlySortedBy (point_order W.numbers.ring) (map (λ v. v.point) found.keys)) }
{
    let mut vertices = Vec::with_capacity(alloc, found.len())?;
    for vertex in found {
        vertices.push(vertex)?;
    }
    Ok(vertices)
}
