ghost use Rattle.std.specs.Prelude.{◌≡◌, ◌≢◌, ◌<◌, ◌≤◌, ◌^◌, ℕ, refl, Some, All, AllPairs, Contains, IsTrue, IfOk, OnOk, length, map, slice_get};
ghost use Rattle.std.specs.Ordering.{on, eq_by_cmp, as_partial_cmp, is_le};
ghost use Rattle.std.specs.Cmp.{on_total, partial_equiv_from_equiv, eq_by_cmp_equiv, partial_order_from_total};
ghost use Rattle.plane.proofs.Order.{points_total};
ghost use Rattle.plane.specs.Points.{point_order};
ghost use Rattle.scaled_plane.specs.Drawn.{IsScaledPoint};
ghost use Rattle.scaled_plane.specs.Pieces.{point_at};
ghost use Rattle.std.specs.List.Sorted.{IsPermutation};
ghost use Rattle.sheet_check.specs.Spans.{AreInRange, IsOfEdge, IsSpan, up_to};

use arrangement::{Vertex, left_end, right_end, vertex_at};
use exact_number::Whole;
use plane::Point;
use scaled_plane::{Edge, Segment};
use std::alloc::{AllocError, Global};
use std::cmp::Ordering;

/// An edge as a segment, with its ends from left to right. Spans are ordered by their left ends.
#[derive(Drop)]
pub struct Span<W: Whole> {
    pub left: Vertex<W>,
    pub right: Vertex<W>,
    pub segment: Segment<W>,
    pub edge: u32,
}

impl<W: Whole> PartialEq for Span<W> {
    ghost eq = { λ s t. eq_by_cmp (λ p q. point_order W.numbers.ring p q) s.left.point t.left.point };

    fn eq(&self, other: &Span<W>) -> bool {
        self.left == other.left
    }

    ghost laws = { partial_equiv_from_equiv (eq_by_cmp_equiv (on_total (λ s. (s.left.point, s.left.is_point)) (points_total W.numbers.ring))) };
}

impl<W: Whole> Eq for Span<W> {
    ghost laws = { eq_by_cmp_equiv (on_total (λ s. (s.left.point, s.left.is_point)) (points_total W.numbers.ring)) };
}

impl<W: Whole> PartialOrd for Span<W> {
    ghost partial_cmp = { λ s t. Some (point_order W.numbers.ring s.left.point t.left.point) };

    ghost laws = { partial_order_from_total (on_total (λ s. (s.left.point, s.left.is_point)) (points_total W.numbers.ring)) };

    fn partial_cmp(&self, other: &Span<W>) -> Option<Ordering> {
        Some(self.cmp(other))
    }
}

impl<W: Whole> Ord for Span<W> {
    ghost cmp = { λ s t. point_order W.numbers.ring s.left.point t.left.point };

    ghost total = { on_total (λ s. (s.left.point, s.left.is_point)) (points_total W.numbers.ring) };

    ghost matches_partial_cmp = { λ s t. refl };

    ghost matches_eq = { λ s t. refl };

    fn cmp(&self, other: &Span<W>) -> Ordering {
        self.left.cmp(&other.left)
    }
}

/// An edge as a span.
fn span_of<W: Whole>(vertices: &[Point<W>], edge: Edge, number: u32) -> Span<W>
    requires scaled { All (IsScaledPoint W.numbers) vertices.now }
    requires from { edge.from < length vertices.now }
    requires to { edge.to < length vertices.now }
    ensures number { result.edge ≡ number }
    ensures from_is { result.segment.from ≡ point_at W.numbers.ring vertices.now edge.from }
    ensures to_is { result.segment.to ≡ point_at W.numbers.ring vertices.now edge.to }
    ensures span { IsSpan W.numbers result.segment result.left.point result.right.point }
{
    let segment = Segment {
        from: vertices[edge.from as usize],
        to: vertices[edge.to as usize],
        letter: edge.letter,
    };
    Span {
        left: vertex_at(left_end(segment)),
        right: vertex_at(right_end(segment)),
        segment,
        edge: number,
    }
}

/// The edges as spans, in their order.
fn spans_in_order<W: Whole>(
    alloc: Global,
    vertices: &[Point<W>],
    edges: &[Edge],
) -> Result<Vec<Span<W>>, AllocError>
    requires scaled { All (IsScaledPoint W.numbers) vertices.now }
    requires ends { AreInRange (length vertices.now) edges.now }
    requires few { length edges.now ≤ 2048 }
    ensures spans { IfOk result (λ spans. All (λ s. IsSpan W.numbers s.segment s.left.point s.right.point) spans.items) }
    ensures of_edges { IfOk result (λ spans. All (λ s. IsOfEdge W.numbers.ring vertices.now edges.now s.segment s.edge) spans.items) }
    ensures every { IfOk result (λ spans. map (λ s. s.edge) spans.items ≡ up_to (length edges.now)) }
{
    let mut spans = Vec::with_capacity(alloc, edges.len())?;
    for edge in 0..edges.len() {
        spans.push(span_of(vertices, edges[edge], edge as u32))?;
    }
    Ok(spans)
}

/// The edges as spans, in the order of their left ends.
pub fn spans_of<W: Whole>(
    alloc: Global,
    vertices: &[Point<W>],
    edges: &[Edge],
) -> Result<Vec<Span<W>>, AllocError>
    requires scaled { All (IsScaledPoint W.numbers) vertices.now }
    requires ends { AreInRange (length vertices.now) edges.now }
    requires few { length edges.now ≤ 2048 }
    ensures spans { IfOk result (λ spans. All (λ s. IsSpan W.numbers s.segment s.left.point s.right.point) spans.items) }
    ensures of_edges { IfOk result (λ spans. All (λ s. IsOfEdge W.numbers.ring vertices.now edges.now s.segment s.edge) spans.items) }
    ensures every { IfOk result (λ spans. IsPermutation (up_to (length edges.now)) (map (λ s. s.edge) spans.items)) }
    ensures in_order { IfOk result (λ spans. AllPairs (λ s t. IsTrue (is_le (point_order W.numbers.ring s.left.point t.left.point))) spans.items) }
{
    let mut spans = spans_in_order(alloc, vertices, edges)?;
    spans.sort()?;
    Ok(spans)
}
