ghost use Rattle.std.specs.Prelude.{◌≡◌, ◌+◌, ◌≤◌, ◌<◌, length, map, Contains, All, AllPairs, IsTrue, IfOk, OnOk, IfErr, List as Listed};
ghost use Rattle.std.specs.Ordering.{is_le};
ghost use Rattle.plane.specs.declared.point.Point.{Point as AnyPoint};
ghost use Rattle.plane.specs.Points.{point_order};
ghost use Rattle.scaled_plane.specs.Counts.{pairs_sharing_x, tests_for};
ghost use Rattle.scaled_plane.specs.Drawn.{IsDrawn, IsScaledPoint, IsScaledSegment};
ghost use Rattle.scaled_plane.specs.Pieces.{AreVertices, IsEndOfOne};
ghost use Rattle.scaled_plane.specs.declared.point.Segment.{Segment as AnySegment};
ghost use Rattle.arrangement.specs.Spans.{IsSpan};

use crate::fault::PieceFault;
use crate::found::{add_ends, vertices_of};
use crate::span::{Span, spans_of};
use crate::sweep::cross_all;
use crate::vertex::Vertex;
use exact_number::Whole;
use scaled_plane::Segment;
use segment_tests::Steps;
use std::alloc::Global;
use std::collections::BTreeSet;
use std::sync::ledger::Ledger;

/// The vertices of spans in order.
fn vertices_of_spans<W: Whole, L: Ledger>(
    alloc: Global,
    spans: &[Span<W>],
    steps: &mut Steps<L>,
) -> Result<Vec<Vertex<W>>, PieceFault>
    requires spans { All (λ s. IsSpan W.numbers s.segment s.left.point s.right.point) spans.now }
    requires in_order { AllPairs (λ s t. IsTrue (is_le (point_order W.numbers.ring s.left.point t.left.point))) spans.now }
    ensures vertices { IfOk result (λ vertices. AreVertices W.numbers.ring (map (λ s. s.segment) spans.now) (map (λ v. v.point) vertices.items)) }
    ensures drawn { IfOk result (λ vertices. (p : AnyPoint W) → Contains (map (λ v. v.point) vertices.items) p → IsDrawn W.numbers p) }
    ensures scaled_ends { IfOk result (λ vertices. (p : AnyPoint W) → Contains (map (λ v. v.point) vertices.items) p
        → IsEndOfOne W.numbers.ring (map (λ s. s.segment) spans.now) p → IsScaledPoint W.numbers p) }
    ensures within { IfOk result (λ vertices. length vertices.items ≤ 16384) }
    ensures counted { OnOk result (steps.new ≡ steps.old + pairs_sharing_x W.numbers.ring (map (λ s. s.segment) spans.now)) }
    ensures counted_at_most { (steps.old ≤ steps.new) × (steps.new ≤ steps.old + pairs_sharing_x W.numbers.ring (map (λ s. s.segment) spans.now)) }
    ensures too_many { IfErr result (λ e. e ≡ PieceFault.TooMany
        → (vertices : Listed (AnyPoint W)) → AreVertices W.numbers.ring (map (λ s. s.segment) spans.now) vertices → 16384 < length vertices) }
{
    let mut found = BTreeSet::new(alloc);
    add_ends(&mut found, spans)?;
    cross_all(&mut found, spans, steps)?;
    let vertices = vertices_of(alloc, found)?;
    Ok(vertices)
}

/// The vertices of segments. One test is counted for each two whose closed ranges of x share a number.
pub fn find_vertices<W: Whole, L: Ledger>(
    alloc: Global,
    segments: &[Segment<W>],
    steps: &mut Steps<L>,
) -> Result<Vec<Vertex<W>>, PieceFault>
    requires { (s : AnySegment W) → Contains segments.now s → IsScaledSegment W.numbers s }
    ensures vertices { IfOk result (λ vertices. AreVertices W.numbers.ring segments.now (map (λ v. v.point) vertices.items)) }
    ensures drawn { IfOk result (λ vertices. (p : AnyPoint W) → Contains (map (λ v. v.point) vertices.items) p → IsDrawn W.numbers p) }
    ensures scaled_ends { IfOk result (λ vertices. (p : AnyPoint W) → Contains (map (λ v. v.point) vertices.items) p
        → IsEndOfOne W.numbers.ring segments.now p → IsScaledPoint W.numbers p) }
    ensures within { IfOk result (λ vertices. length vertices.items ≤ 16384) }
    ensures counted { OnOk result (steps.new ≡ steps.old + tests_for W.numbers.ring segments.now) }
    ensures counted_at_most { (steps.old ≤ steps.new) × (steps.new ≤ steps.old + tests_for W.numbers.ring segments.now) }
    ensures too_many { IfErr result (λ e. e ≡ PieceFault.TooMany
        → (vertices : Listed (AnyPoint W)) → AreVertices W.numbers.ring segments.now vertices → 16384 < length vertices) }
{
    let spans = spans_of(alloc, segments)?;
    vertices_of_spans(alloc, &spans, steps)
}
